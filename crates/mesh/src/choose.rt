// What each port of the mesh does in a cycle, chosen from the tables as the cycle begins.
ghost use Rattle.std.specs.Prelude.{◌≡◌, ℕ, ◌+◌, ◌*◌, ◌<◌, replicate, None, slice_index};
ghost use Rattle.machine.specs.Moves.{edit};
ghost use Rattle.mesh.specs.Heads.{routers, ports, queue_count};
ghost use Rattle.mesh.specs.Shared.{outset_of};
ghost use Rattle.mesh.specs.Ports.{room as room_of, chosen, move_by, moves as moves_of, passes};

use super::asking::Asked;
use super::moves::Move;
use super::outset::Outset;
use rules::arbiter::Arbiter;
use rules::route::RouteRule;

impl<A: Arbiter, R: RouteRule> Outset<'_, A, R> {
    // A port passes the first packet of queue `q`. The winner is a number, as the arbiter tells it.
    #[tactic(auto, using(crate::proofs::Index::head_in))]
    fn pass(&self, q: usize, owner: u8, winner: u8, next: u32) -> Move
        requires { q < queue_count self.now.plan.now }
        ensures { result ≡ passes self.now.plan.now self.now.queues.now self.now.places.now owner winner next q }
    {
        let from = q * self.plan.sizes.depth as usize + self.queues[q].first as usize;
        let packet = self.places[from];
        Move {
            owner,
            winner,
            next,
            from,
            destination: packet.destination,
            source: packet.source,
        }
    }

    // What port `k` of the mesh does, if it passes a packet.
    fn choose_port(&self, k: usize, port: Asked) -> Option<Move>
        requires port_in { k < ports self.now.plan.now }
        requires domain_in { port.owner < self.now.plan.now.sizes.domains }
        requires few { port.sides < 32 }
        ensures { result ≡ move_by self.now.plan.now self.now.queues.now self.now.places.now k port.owner
            (room_of self.now.plan.now self.now.queues.now k port.owner) port.sides
            (A.Arbiter.meaning self.now.arbiter.now
            (slice_index self.now.words.now (k * self.now.plan.now.sizes.domains + port.owner)) port.sides) }
    {
        if port.sides == 0 {
            return None;
        }
        if !self.has_room(k, port.owner) {
            return None;
        }
        let domains = self.plan.sizes.domains as usize;
        let domain = port.owner as usize;
        let (winner, next) = self
            .arbiter
            .choose(self.words[k * domains + domain], port.sides);
        let q = (k / 5 * 5 + winner as usize) * domains + domain;
        Some(self.pass(q, port.owner, winner, next))
    }

    // What the ports of a router do, after those of the routers before it.
    #[tactic(auto, using(crate::proofs::Index::port_in, crate::proofs::Index::ports_le))]
    fn choose_router(&self, router: u8, moves: &mut [Option<Move>; 320])
        requires router_in { router < routers self.now.plan.now }
        requires before { moves.old ≡ edit 0 (router * 5)
            (chosen (outset_of R.RouteRule.meaning self.now) (A.Arbiter.meaning self.now.arbiter.now) self.now.words.now)
            (replicate 320 None) }
        ensures { moves.new ≡ edit 0 (router * 5 + 5)
            (chosen (outset_of R.RouteRule.meaning self.now) (A.Arbiter.meaning self.now.arbiter.now) self.now.words.now)
            (replicate 320 None) }
    {
        for (p, port) in self.asking(router).iter().enumerate() {
            let k = router as usize * 5 + p;
            moves[k] = self.choose_port(k, *port);
        }
    }

    // What each port of the mesh does in a cycle, put into a table that holds no move yet: it is as long as the largest mesh has ports, and would be
    // copied as an answer.
    pub(crate) fn choose_all(&self, moves: &mut [Option<Move>; 320])
        requires { moves.old ≡ replicate 320 None }
        ensures { moves.new ≡ moves_of (outset_of R.RouteRule.meaning self.now) (A.Arbiter.meaning self.now.arbiter.now) self.now.words.now }
    {
        for router in 0..self.plan.routers() {
            self.choose_router(router, moves);
        }
    }
}
