// A router's own core puts a packet into the mesh.
ghost use Rattle.std.specs.Prelude.{◌≡◌, ℕ, ◌+◌, ◌*◌, ◌<◌, ◌≤◌, [], length, slice_index_or, slice_set};
ghost use Rattle.machine.specs.Calls.{answer, injection_refusal, inject as injection, lengths, outcome, outcome_of, own_queue};
ghost use Rattle.machine.specs.Tables.{queue_at, sound as sound_tables, tables};
ghost use Rattle.mesh.specs.Answers.{one_more};
ghost use Rattle.mesh.specs.Heads.{Fit, no_queue, queue_count};
ghost use Rattle.mesh.specs.Needed.{WithAnyRules};
ghost use Rattle.mesh.specs.Orderly.{end_place};
ghost use Rattle.mesh.specs.Shared.{tables_of};

use super::apply::{end_place, joined};
use super::checks::check;
use super::lent::Lent;
use super::room::own_queue;
use machine::tables::{Place, Queue};
use schedule::plan::Plan;
use schedule::refusal::Refusal;

impl<P: Copy> Lent<'_, P> {
    // The queue that a packet may join, or why it may not.
    fn admitted(&self, router: u8, domain: u8, destination: u8) -> Result<usize, Refusal>
        ensures { WithAnyRules self.now.plan.now (λ m.
            let t = tables_of self.now in
            let q = own_queue m router domain in
            result ≡ answer (injection_refusal m (sound_tables m t) (lengths t 0 0) router domain destination (queue_at t q).count) q) }
    {
        self.check_tables()?;
        let routers = self.plan.routers();
        check(
            (router < routers) & (destination < routers),
            Refusal::OutsideMesh,
        )?;
        check(domain < self.plan.sizes.domains, Refusal::NoSuchDomain)?;
        let q = own_queue(self.plan, router, domain);
        check(
            self.queues[q].count < self.plan.sizes.depth,
            Refusal::QueueFull,
        )?;
        Ok(q)
    }
}

// Puts a packet at the end of queue `q`, and answers how many packets the queue then holds. The tables are told one by one, as to `make_moves`.
fn join<P: Copy>(
    plan: &Plan,
    queues: &mut [Queue],
    places: &mut [Place],
    payloads: &mut [P],
    q: usize,
    place: Place,
    payload: P,
) -> u8
    requires fit { Fit plan.now queues.old places.old }
    requires payloads_in { queue_count plan.now * plan.now.sizes.depth ≤ length payloads.old }
    requires inside { q < queue_count plan.now }
    requires free { (slice_index_or queues.old q no_queue).count < plan.now.sizes.depth }
    ensures counted { result ≡ (slice_index_or queues.old q no_queue).count + 1 }
    ensures queued { queues.new
        ≡ slice_set queues.old q (one_more (slice_index_or queues.old q no_queue)) }
    ensures placed { places.new
        ≡ slice_set places.old (end_place plan.now queues.old q) place }
    ensures loaded { payloads.new
        ≡ slice_set payloads.old (end_place plan.now queues.old q) payload }
{
    let at = end_place(plan, queues, q);
    places[at] = place;
    payloads[at] = payload;
    let longer = joined(queues[q]);
    queues[q] = longer;
    longer.count
}

// Puts a packet at the end of a router's own queue, ready in the present cycle, and answers how many packets the queue then holds.
// The tables are lent one by one, a rule of the project: a caller keeps its own slices, and gives up to be changed only what changes.
pub fn inject<P: Copy>(
    plan: &Plan,
    cycle: u32,
    queues: &mut [Queue],
    places: &mut [Place],
    payloads: &mut [P],
    words: &[u32],
    router: u8,
    domain: u8,
    destination: u8,
    payload: P,
) -> Result<u8, Refusal>
    ensures { WithAnyRules plan.now (λ m.
        outcome_of result
        (tables cycle queues.new places.new payloads.new words.now) [] []
        ≡ outcome m
        (tables cycle queues.old places.old payloads.old words.now)
        (injection router domain destination payload)) }
{
    let lent = Lent {
        plan,
        cycle,
        queues,
        places,
        payloads,
        words,
    };
    let q = lent.admitted(router, domain, destination)?;
    let place = Place {
        destination,
        source: router,
        ready: cycle as u64,
    };
    Ok(join(plan, queues, places, payloads, q, place, payload))
}
