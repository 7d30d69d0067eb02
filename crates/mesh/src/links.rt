// Who owns a port, what lies across its link, and whether the queue that it feeds has room.
ghost use Rattle.std.specs.Prelude.{◌≡◌, ℕ, ◌+◌, ◌*◌, ◌<◌, IfSome};
ghost use Rattle.machine.specs.Machine.{opposite as opposite_side};
ghost use Rattle.mesh.specs.Heads.{routers, ports};
ghost use Rattle.mesh.specs.Ports.{across as across_from, owner as owner_of, room as room_of};

use super::outset::Outset;
use rules::arbiter::Arbiter;
use rules::route::RouteRule;
use schedule::plan::Plan;

// The side on which a router has the neighbour that has it on this side. Sides are numbers here, since port or side k of the mesh is k % 5.
#[tactic(auto, using(crate::proofs::Across::opposite_high), unfolding(machine::specs::Machine::opposite))]
fn opposite(side: usize) -> usize
    ensures is { result ≡ opposite_side side }
    ensures below { result < 5 }
{
    match side {
        0 => 1,
        1 => 0,
        2 => 3,
        3 => 2,
        _ => 4,
    }
}

// The port or side that lies across the link from port or side `k`.
pub(crate) fn across(plan: &Plan, k: usize) -> Option<usize>
    requires { k < ports plan.now }
    ensures is { result ≡ across_from plan.now k }
    ensures inside { IfSome result (λ j. j < ports plan.now) }
{
    let back = opposite(k % 5);
    plan.neighbour((k / 5) as u8, (k % 5) as u8)
        .map(|next| next as usize * 5 + back)
}

impl<A: Arbiter, R: RouteRule> Outset<'_, A, R> {
    // The domain that a port of a router belongs to. The port is a number, as the plan is asked for it.
    pub(crate) fn owner(&self, router: u8, port: u8) -> u8
        requires router { router < routers self.now.plan.now }
        requires port { port < 5 }
        ensures is { result ≡ owner_of self.now.plan.now self.now.cycle (router * 5 + port) }
        ensures below { result < self.now.plan.now.sizes.domains }
    {
        self.plan.owner(router, port, self.cycle).unwrap()
    }

    // Whether the queue that port `k` feeds in `domain` has room as the cycle begins; a router's own core always has.
    pub(crate) fn has_room(&self, k: usize, domain: u8) -> bool
        requires port_in { k < ports self.now.plan.now }
        requires domain_in { domain < self.now.plan.now.sizes.domains }
        ensures { result ≡ room_of self.now.plan.now self.now.queues.now k domain }
    {
        let (domains, depth) = (self.plan.sizes.domains as usize, self.plan.sizes.depth);
        let domain = domain as usize;
        k % 5 == 4
            || across(self.plan, k).is_some_and(|j| self.queues[j * domains + domain].count < depth)
    }
}
