// A kind stands for the arbiter, or the route rule, that it names.
ghost use Rattle.frames.specs.Chosen.{arbiter_arbitrates, arbiter_bits, arbiter_meant, route_meant, route_routes};

use super::choices::{ArbiterKind, RouteKind};
use rules::arbiter::Arbiter;
use rules::fixed::Fixed;
use rules::order_list::OrderList;
use rules::rotating::Rotating;
use rules::route::{ColumnsFirst, RouteRule, RowsFirst};
use schedule::geometry::Position;

impl Arbiter for ArbiterKind {
    ghost bits = { arbiter_bits };

    ghost meaning = { arbiter_meant };

    ghost arbitrates = { arbiter_arbitrates };

    fn memory_bits(&self) -> u32 {
        match self {
            ArbiterKind::Fixed => Fixed.memory_bits(),
            ArbiterKind::Rotating => Rotating.memory_bits(),
            ArbiterKind::OrderList => OrderList.memory_bits(),
        }
    }

    fn choose(&self, word: u32, sides: u8) -> (u8, u32) {
        match self {
            ArbiterKind::Fixed => Fixed.choose(word, sides),
            ArbiterKind::Rotating => Rotating.choose(word, sides),
            ArbiterKind::OrderList => OrderList.choose(word, sides),
        }
    }
}

impl RouteRule for RouteKind {
    ghost meaning = { route_meant };

    ghost routes = { route_routes };

    fn side(&self, from: Position, to: Position) -> u8 {
        match self {
            RouteKind::ColumnsFirst => ColumnsFirst.side(from, to),
            RouteKind::RowsFirst => RowsFirst.side(from, to),
        }
    }
}
