ghost use Rattle.std.specs.Prelude.{◌≡◌, ℕ};
ghost use Rattle.schedule.specs.declared.geometry.Position.{Position};
ghost use Rattle.schedule.specs.Sides.{side_number};
ghost use Rattle.rules.specs.Routes.{Routes, along as along_axis, columns_first, rows_first};
ghost use Rattle.rules.specs.Nearer.{columns_first_routes, rows_first_routes};

use schedule::geometry::Position;
use schedule::side::Side;

// Names the side by which a packet leaves a router on its way to another: 0 east, 1 west, 2 south, 3 north, 4 the router's own core.
// A number and no `Side`: a rule owes nothing at positions that no mesh has, and a `Side` would ask of it one of the five there too.
pub trait RouteRule {
    ghost meaning: { Self → Position → Position → ℕ };

    fn side(&self, from: Position, to: Position) -> u8
        ensures { result ≡ meaning self.now from to };

    ghost routes: { (a : Self) → Routes (meaning a) };
}

// East or west until the columns agree, then south or north.
#[derive(Clone, Copy, Debug, PartialEq, Eq, Default)]
pub struct ColumnsFirst;

impl RouteRule for ColumnsFirst {
    ghost meaning = { λ _. columns_first };

    ghost routes = { λ _. columns_first_routes };

    fn side(&self, from: Position, to: Position) -> u8 {
        let by_row = along(from.row, to.row, Side::South, Side::North, Side::Local);
        along(from.column, to.column, Side::East, Side::West, by_row).into()
    }
}

// South or north until the rows agree, then east or west.
#[derive(Clone, Copy, Debug, PartialEq, Eq, Default)]
pub struct RowsFirst;

impl RouteRule for RowsFirst {
    ghost meaning = { λ _. rows_first };

    ghost routes = { λ _. rows_first_routes };

    fn side(&self, from: Position, to: Position) -> u8 {
        let by_column = along(from.column, to.column, Side::East, Side::West, Side::Local);
        along(from.row, to.row, Side::South, Side::North, by_column).into()
    }
}

// Along one axis: ahead towards higher numbers, behind towards lower ones, else the side that is given.
fn along(from: u8, to: u8, ahead: Side, behind: Side, level: Side) -> Side
    ensures { side_number result ≡ along_axis from to (side_number ahead) (side_number behind) (side_number level) }
{
    if from < to {
        ahead
    } else if from > to {
        behind
    } else {
        level
    }
}
