// Where routers stand in the mesh, and which router lies on each side of another.
ghost use Rattle.std.specs.Prelude.{◌≡◌, ℕ, ◌+◌, ◌*◌, ◌<◌, ◌≤◌, IfSome};
ghost use Rattle.schedule.specs.Mesh.{hops as hops_between, position_of as place_of, router_at, neighbour as neighbour_at, neighbour_of, Within};
ghost use Rattle.schedule.specs.Sides.{side_number};
ghost use Rattle.schedule.specs.Timetable.{routers as router_count, ports as port_count};

use super::allowed::AllowedSizes;
use super::side::Side;

// The column is counted eastward from 0, the row southward from 0.
#[derive(Clone, Copy, Debug, PartialEq, Eq, Hash)]
pub struct Position {
    pub column: u8,
    pub row: u8,
}

// How many links lie between two routers: the difference of columns plus the difference of rows.
pub fn hops(from: Position, to: Position) -> u16
    ensures { result ≡ hops_between from to }
{
    u16::from(from.column.abs_diff(to.column)) + u16::from(from.row.abs_diff(to.row))
}

impl AllowedSizes {
    // How many routers the mesh has.
    pub(crate) fn routers(self) -> u8
        ensures is { result ≡ router_count self.sizes }
        ensures few { result ≤ 64 }
    {
        self.sizes.width * self.sizes.height
    }

    // How many ports the mesh has, one for each side of each router.
    pub(crate) fn ports(self) -> usize
        ensures is { result ≡ port_count self.sizes }
        ensures few { result ≤ 320 }
    {
        usize::from(self.routers()) * 5
    }

    // Where a router stands: routers are numbered row by row.
    pub(crate) fn position_of(self, router: u8) -> Position
        ensures { result ≡ place_of self.sizes.width router }
    {
        Position {
            column: router % self.sizes.width,
            row: router / self.sizes.width,
        }
    }

    // The position on a side of another, where the mesh has one there.
    fn beside(self, at: Position, side: Side) -> Option<Position>
        requires { Within self.sizes.width self.sizes.height at }
        ensures is { result ≡ neighbour_at self.sizes.width self.sizes.height at (side_number side) }
        ensures within { IfSome result (Within self.sizes.width self.sizes.height) }
    {
        match side {
            Side::East => (at.column + 1 < self.sizes.width).then(|| Position {
                column: at.column + 1,
                ..at
            }),
            Side::West => (0 < at.column).then(|| Position {
                column: at.column - 1,
                ..at
            }),
            Side::South => (at.row + 1 < self.sizes.height).then(|| Position {
                row: at.row + 1,
                ..at
            }),
            Side::North => (0 < at.row).then(|| Position {
                row: at.row - 1,
                ..at
            }),
            Side::Local => None,
        }
    }

    // The router on a side of another, where the mesh has one there. The side is a number, as callers of a plan name it.
    pub(crate) fn neighbour(self, router: u8, side: u8) -> Option<u8>
        requires { router < router_count self.sizes }
        ensures is { result ≡ neighbour_of self.sizes.width self.sizes.height router side }
        ensures within { IfSome result (λ n. n < router_count self.sizes) }
    {
        let side = Side::try_from(side).ok()?;
        let at = self.beside(self.position_of(router), side)?;
        Some(at.row * self.sizes.width + at.column)
    }
}
