// How much room a router's own queue has.
ghost use Rattle.std.specs.Prelude.{◌≡◌, ℕ, ◌<◌, []};
ghost use Rattle.machine.specs.Calls.{outcome, outcome_of, own_queue, room as asks_room};
ghost use Rattle.machine.specs.Tables.{tables};
ghost use Rattle.mesh.specs.Heads.{queue_count, routers};
ghost use Rattle.mesh.specs.Needed.{WithAnyRules};

use super::checks::check;
use super::lent::Lent;
use machine::tables::{Place, Queue};
use schedule::plan::Plan;
use schedule::refusal::Refusal;

// The number of the queue into which a router's own core puts a domain's packets. Router and domain go together here and in the calls, but are
// nothing of the subject as a pair.
#[tactic(auto, unfolding(machine::specs::Calls::own_queue, machine::specs::Machine::queue_number, machine::specs::Machine::domains))]
pub(crate) fn own_queue(plan: &Plan, router: u8, domain: u8) -> usize
    requires router { router < routers plan.now }
    requires domain { domain < plan.now.sizes.domains }
    ensures is { WithAnyRules plan.now (λ m. result ≡ own_queue m router domain) }
    ensures inside { result < queue_count plan.now }
{
    (router as usize * 5 + 4) * plan.sizes.domains as usize + domain as usize
}

// How many more packets of a domain a router's own core may put in before its queue is full.
// The tables are lent one by one, a rule of the project: a caller keeps its own slices, and gives up to be changed only what changes.
pub fn room<P: Copy>(
    plan: &Plan,
    cycle: u32,
    queues: &[Queue],
    places: &[Place],
    payloads: &[P],
    words: &[u32],
    router: u8,
    domain: u8,
) -> Result<u8, Refusal>
    ensures { WithAnyRules plan.now (λ m.
        outcome_of result
        (tables cycle queues.now places.now payloads.now words.now) [] []
        ≡ outcome m
        (tables cycle queues.now places.now payloads.now words.now)
        (asks_room router domain)) }
{
    let lent = Lent {
        plan,
        cycle,
        queues,
        places,
        payloads,
        words,
    };
    lent.check_tables()?;
    check(router < plan.routers(), Refusal::OutsideMesh)?;
    check(domain < plan.sizes.domains, Refusal::NoSuchDomain)?;
    Ok(plan.sizes.depth - queues[own_queue(plan, router, domain)].count)
}
