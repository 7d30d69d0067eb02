// What the first packet of a queue asks for.
ghost use Rattle.std.specs.Prelude.{◌≡◌, ℕ, ◌<◌};
ghost use Rattle.schedule.specs.Mesh.{position_of};
ghost use Rattle.mesh.specs.Heads.{wanted as wanted_of, queue_count};
ghost use Rattle.mesh.specs.Shared.{outset_of};

use super::outset::Outset;
use rules::arbiter::Arbiter;
use rules::route::RouteRule;
use schedule::geometry::Position;
use schedule::plan::Plan;

// Where a router stands. The plan's own `position` answers an Option, since it is asked of routers outside the mesh too.
fn position(plan: &Plan, router: u8) -> Position
    ensures { result ≡ position_of plan.now.sizes.width router }
{
    Position {
        column: router % plan.sizes.width,
        row: router / plan.sizes.width,
    }
}

impl<A: Arbiter, R: RouteRule> Outset<'_, A, R> {
    // The port that the first packet of queue `q` of a router asks for, if one does: a number, as the route rule tells it.
    #[tactic(auto, using(crate::proofs::Index::head_in))]
    pub(crate) fn wanted(&self, router: u8, q: usize) -> Option<u8>
        requires { q < queue_count self.now.plan.now }
        ensures { result ≡ wanted_of (outset_of R.RouteRule.meaning self.now) router q }
    {
        let queue = self.queues[q];
        if queue.count == 0 {
            return None;
        }
        let first = self.places[q * self.plan.sizes.depth as usize + queue.first as usize];
        if first.ready > self.cycle as u64 {
            return None;
        }
        let here = position(self.plan, router);
        Some(self.rule.side(here, position(self.plan, first.destination)))
    }
}
