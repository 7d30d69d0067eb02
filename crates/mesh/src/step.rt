// A step: one cycle of the mesh, in place.
ghost use Rattle.std.specs.Prelude.{◌≡◌, ℕ, ◌+◌, ◌*◌, ◌<◌, ◌≤◌, length};
ghost use Rattle.schedule.specs.Verdict.{answered};
ghost use Rattle.machine.specs.Calls.{lengths, outcome, outcome_of, step as step_call, step_refusal};
ghost use Rattle.machine.specs.Machine.{machine};
ghost use Rattle.machine.specs.Tables.{sound as sound_tables, tables};
ghost use Rattle.mesh.specs.Needed.{WithAnyRules};
ghost use Rattle.mesh.specs.Shared.{tables_of};

use super::apply::make_moves;
use super::checks::check;
use super::deliver::deliver;
use super::lent::Lent;
use super::needed::deliveries_long_enough;
use super::outset::Outset;
use machine::tables::{Delivery, Place, Queue};
use rules::arbiter::Arbiter;
use rules::route::RouteRule;
use schedule::plan::Plan;
use schedule::refusal::Refusal;

impl<P: Copy> Lent<'_, P> {
    // Whether a cycle may be run, with two delivery tables of these lengths.
    fn check_step(&self, deliveries: usize, delivered: usize) -> Result<(), Refusal>
        ensures { WithAnyRules self.now.plan.now (λ m.
            let t = tables_of self.now in
            result ≡ answered (step_refusal m (sound_tables m t) (lengths t deliveries delivered) t.cycle)) }
    {
        let long = deliveries_long_enough(self.plan, deliveries, delivered);
        check(long, Refusal::TableTooShort)?;
        self.check_tables()?;
        check(self.cycle < u32::MAX, Refusal::CyclesSpent)
    }
}

// Runs one cycle, and answers which.
// The tables are lent one by one, a rule of the project: a caller keeps its own slices, and gives up to be changed only what changes.
pub fn step<A: Arbiter, R: RouteRule, P: Copy>(
    plan: &Plan,
    arbiter: &A,
    rule: &R,
    cycle: &mut u32,
    queues: &mut [Queue],
    places: &mut [Place],
    payloads: &mut [P],
    words: &mut [u32],
    deliveries: &mut [Delivery],
    delivered: &mut [P],
) -> Result<u32, Refusal>
    ensures { outcome_of result (tables cycle.new queues.new places.new payloads.new words.new)
        deliveries.new delivered.new
        ≡ outcome (machine plan.now (A.Arbiter.meaning arbiter.now) (R.RouteRule.meaning rule.now))
        (tables cycle.old queues.old places.old payloads.old words.old)
        (step_call deliveries.old delivered.old) }
{
    let present = *cycle;
    let tables = Lent {
        plan,
        cycle: present,
        queues,
        places,
        payloads,
        words,
    };
    tables.check_step(deliveries.len(), delivered.len())?;
    let outset = Outset {
        plan,
        arbiter,
        rule,
        cycle: present,
        queues,
        places,
        words,
    };
    // with no heap, the table has room for the ports of the largest mesh
    let mut chosen = [None; 320];
    outset.choose_all(&mut chosen);
    let moves = &chosen[..plan.routers() as usize * 5];
    deliver(moves, payloads, deliveries, delivered);
    make_moves(plan, present, moves, queues, places, payloads, words);
    *cycle = present + 1;
    Ok(present)
}
