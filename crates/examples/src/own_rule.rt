// A route rule of one's own, which names no side from column 8 on, where no mesh has a position: a rule owes nothing there, and a step takes it.
ghost use Rattle.examples.specs.Inside.{inside_first, inside_first_routes};

use super::bench::{Bench, Filling};
use machine::tables::{Delivery, Queue};
use rules::fixed::Fixed;
use rules::route::{ColumnsFirst, RouteRule};
use schedule::geometry::Position;
use schedule::plan::Plan;
use std::test::Fail;

struct InsideFirst;

impl RouteRule for InsideFirst {
    ghost meaning = { λ _. inside_first };

    ghost routes = { λ _. inside_first_routes };

    fn side(&self, from: Position, to: Position) -> u8 {
        if from.column < 8 {
            ColumnsFirst.side(from, to)
        } else {
            255
        }
    }
}

#[test]
fn a_rule_owes_nothing_outside_a_mesh(rt: HostRuntime) -> Result<(), Fail> {
    let outside = Position { column: 8, row: 0 };
    assert_eq!(rt; InsideFirst.side(outside, outside), 255);
    let filling = Filling {
        queue: Queue::default(),
        payload: 0u32,
        word: 0,
    };
    let mut bench = Bench::new(rt.alloc(), Plan::smallest(), 0, filling)?;
    assert_eq!(rt; bench.inject(0, 0, 0, 5), Ok(1));
    assert_eq!(rt; bench.step_by(&Fixed, &InsideFirst), Ok(0));
    assert_eq!(rt;
        bench.told(0),
        Some(Delivery {
            mark: 1,
            domain: 0,
            source: 0,
        })
    );
    Ok(())
}
