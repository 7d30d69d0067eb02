// The calls on a mesh, tried on the sample's plan and at the edges.
use super::bench::{Bench, Filling};
use machine::tables::{Delivery, Queue};
use mesh::needed::{deliveries_needed, places_needed, queues_needed};
use rules::fixed::Fixed;
use rules::rotating::Rotating;
use schedule::plan::Plan;
use schedule::sizes::Sizes;
use std::test::Fail;

const UNSOUND: Queue = Queue { first: 3, count: 9 };

// What was collected, as a payload of a kind of the tests' own: the calls stand on no frames.
#[derive(Clone, Copy, Debug, PartialEq, Eq)]
struct Collection {
    tank: u16,
    litres: u16,
}

// How many queue records, places and delivery records a plan needs.
fn needed(plan: &Plan) -> [usize; 3] {
    [
        queues_needed(plan),
        places_needed(plan),
        deliveries_needed(plan),
    ]
}

// Two routers in a row, two domains, queues of two places, hop 1, slots 0 and 1.
fn sample_plan() -> Plan {
    let mut plan = Plan::smallest();
    let sizes = Sizes {
        width: 2,
        height: 1,
        domains: 2,
        depth: 2,
        hop: 1,
    };
    let _ = plan.adopt_built(sizes, &[0, 1]);
    plan
}

// The record of a domain's packet that came from router 0.
fn from_first(domain: u8) -> Delivery {
    Delivery {
        mark: 1,
        domain,
        source: 0,
    }
}

#[test]
fn sample_runs(rt: HostRuntime) -> Result<(), Fail> {
    let filling = Filling {
        queue: UNSOUND,
        payload: 9u32,
        word: 6,
    };
    let plan = sample_plan();
    assert_eq!(rt; needed(&plan), [20, 40, 2]);
    let mut bench = Bench::new(rt.alloc(), plan, 7, filling)?;
    assert_eq!(rt; bench.open(), Ok(()));
    assert_eq!(rt; bench.inject(0, 0, 1, 300), Ok(1));
    assert_eq!(rt; bench.inject(0, 1, 1, 258), Ok(1));
    assert_eq!(rt; bench.inject(0, 2, 1, 0), Err(11));
    assert_eq!(rt; bench.step(&Rotating), Ok(0));
    assert_eq!(rt; bench.told(0), Some(Delivery::default()));
    assert_eq!(rt; bench.told(1), Some(Delivery::default()));
    assert_eq!(rt; bench.step(&Rotating), Ok(1));
    assert_eq!(rt; bench.told(1), Some(from_first(0)));
    assert_eq!(rt; bench.delivered(1), Some(300));
    assert_eq!(rt; bench.step(&Rotating), Ok(2));
    assert_eq!(rt; bench.told(1), Some(from_first(1)));
    assert_eq!(rt; bench.delivered(1), Some(258));
    assert_eq!(rt; bench.cycle, 3);
    Ok(())
}

#[test]
fn records_are_carried_and_a_full_queue_refuses(rt: HostRuntime) -> Result<(), Fail> {
    let milk = Collection {
        tank: 2,
        litres: 450,
    };
    let filling = Filling {
        queue: UNSOUND,
        payload: Collection { tank: 0, litres: 0 },
        word: 1,
    };
    let mut bench = Bench::new(rt.alloc(), Plan::smallest(), 0, filling)?;
    assert_eq!(rt; needed(&Plan::smallest()), [5, 5, 1]);
    assert_eq!(rt; bench.open(), Ok(()));
    assert_eq!(rt; bench.room(0, 0), Ok(1));
    assert_eq!(rt; bench.inject(0, 0, 0, milk), Ok(1));
    assert_eq!(rt; bench.inject(0, 0, 0, milk), Err(12));
    assert_eq!(rt; bench.step(&Fixed), Ok(0));
    assert_eq!(rt; bench.told(0), Some(from_first(0)));
    assert_eq!(rt; bench.delivered(0), Some(milk));
    Ok(())
}

#[test]
fn the_last_cycle_is_refused(rt: HostRuntime) -> Result<(), Fail> {
    let filling = Filling {
        queue: Queue::default(),
        payload: 0u32,
        word: 0,
    };
    let mut bench = Bench::new(rt.alloc(), Plan::smallest(), 4294967294, filling)?;
    assert_eq!(rt; bench.step(&Fixed), Ok(4294967294));
    assert_eq!(rt; bench.step(&Fixed), Err(13));
    assert_eq!(rt; bench.cycle, 4294967295);
    Ok(())
}
