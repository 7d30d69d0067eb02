// The worked examples, tried on the code.
use super::bench::numbered;
use rules::arbiter::Arbiter;
use rules::fixed::Fixed;
use rules::order_list::OrderList;
use rules::rotating::Rotating;
use rules::route::{ColumnsFirst, RouteRule, RowsFirst};
use schedule::geometry::Position;
use schedule::plan::Plan;
use schedule::sizes::Sizes;

// One row of so many routers, one domain, one place in a queue.
fn row_of(width: u8, hop: u8) -> Sizes {
    Sizes {
        width,
        height: 1,
        domains: 1,
        depth: 1,
        hop,
    }
}

#[test]
fn built_offsets_wrap_around(rt: HostRuntime) {
    let mut plan = Plan::smallest();
    assert_eq!(rt; numbered(plan.adopt_built(row_of(3, 3), &[0; 5])), Ok(()));
    let three_wide = plan.offsets;
    assert_eq!(rt; three_wide[10], 4);
    assert_eq!(rt; three_wide[11], 1);
    assert_eq!(rt; numbered(plan.adopt_built(row_of(2, 3), &[0; 2])), Ok(()));
    let two_wide = plan.offsets;
    assert_eq!(rt; two_wide[5], 1);
    assert_eq!(rt; two_wide[6], 1);
}

#[test]
fn gaps_run_round_the_ring(rt: HostRuntime) {
    let mut plan = Plan::smallest();
    let sizes = Sizes {
        width: 1,
        height: 1,
        domains: 2,
        depth: 1,
        hop: 1,
    };
    assert_eq!(rt; numbered(plan.adopt_built(sizes, &[0, 0, 1])), Ok(()));
    assert_eq!(rt; plan.gap(0), Some(2));
    assert_eq!(rt; plan.gap(1), Some(3));
    assert_eq!(rt; plan.gap(2), None);
}

#[test]
fn arbiters_choose(rt: HostRuntime) {
    assert!(rt; Rotating.choose(3, 17) == (4, 0));
    assert!(rt; OrderList.choose(0, 10) == (1, 6352));
    assert!(rt; Fixed.choose(0, 12) == (2, 0));
}

#[test]
fn waves_that_stand_still_break(rt: HostRuntime) {
    let mut plan = Plan::smallest();
    assert_eq!(rt;
        numbered(plan.adopt(row_of(2, 1), &[0, 0], &[0; 10])),
        Err(7)
    );
    assert_eq!(rt; plan.sizes.width, 1, "a refused call leaves the held plan");
}

#[test]
fn routes_begin_along_their_axis(rt: HostRuntime) {
    let corner = Position { column: 0, row: 0 };
    let goal = Position { column: 2, row: 1 };
    assert_eq!(rt; ColumnsFirst.side(corner, goal), 0);
    assert_eq!(rt; RowsFirst.side(corner, goal), 2);
}

#[test]
fn sixty_four_slots_are_the_most(rt: HostRuntime) {
    let mut plan = Plan::smallest();
    assert_eq!(rt; numbered(plan.adopt_built(row_of(1, 1), &[0; 65])), Err(2));
    assert_eq!(rt; numbered(plan.adopt_built(row_of(1, 1), &[0; 64])), Ok(()));
    assert_eq!(rt; plan.period, 64);
}
