// The moves of a cycle made in place, one after another.
ghost use Rattle.std.specs.Prelude.{◌≡◌, ℕ, ◌+◌, ◌-◌, ◌*◌, ◌%◌, ◌<◌, ◌≤◌, length, slice_index_or};
ghost use Rattle.machine.specs.Moves.{edit};
ghost use Rattle.mesh.specs.After.{word_after, queue_after, place_after, payload_after};
ghost use Rattle.mesh.specs.Heads.{Fit, ports, queue_count, no_queue};
ghost use Rattle.mesh.specs.Orderly.{Orderly, end_place};

use super::links::across;
use super::moves::Move;
use machine::tables::{Place, Queue};
use schedule::plan::Plan;

// The remainder of a number that passes `depth` once at most.
fn wrapped(at: u8, depth: u8) -> u8
    requires { at < depth + depth }
    ensures { result ≡ at % depth }
{
    if at < depth { at } else { at - depth }
}

// A queue whose first packet has left. It is no method, since a type has methods only in the crate that declares it.
fn left(plan: &Plan, queue: Queue) -> Queue
    requires some { 0 < queue.count }
    requires low { queue.first < plan.now.sizes.depth }
    ensures first { result.first ≡ (queue.first + 1) % plan.now.sizes.depth }
    ensures count { result.count ≡ queue.count - 1 }
{
    Queue {
        first: wrapped(queue.first + 1, plan.sizes.depth),
        count: queue.count - 1,
    }
}

// A queue that a packet has joined.
pub(crate) fn joined(queue: Queue) -> Queue
    requires { queue.count < 255 }
    ensures first { result.first ≡ queue.first }
    ensures count { result.count ≡ queue.count + 1 }
{
    Queue {
        count: queue.count + 1,
        ..queue
    }
}

// The first free place of queue `q`. It is asked in the midst of the moves, so its records are no struct's that says how they were.
#[tactic(auto, using(crate::proofs::Index::place_in, crate::proofs::Index::place_count_le, std::proofs::lemmas::Nat::mod_below))]
pub(crate) fn end_place(plan: &Plan, queues: &[Queue], q: usize) -> usize
    requires inside { q < queue_count plan.now }
    requires queues_in { queue_count plan.now ≤ length queues.now }
    requires low { (slice_index_or queues.now q no_queue).first < plan.now.sizes.depth }
    requires few { (slice_index_or queues.now q no_queue).count ≤ plan.now.sizes.depth }
    ensures is { result ≡ end_place plan.now queues.now q }
    ensures inside { result < queue_count plan.now * plan.now.sizes.depth }
{
    let queue = queues[q];
    q * plan.sizes.depth as usize + wrapped(queue.first + queue.count, plan.sizes.depth) as usize
}

// Makes the moves of a cycle in the four tables. They are told one by one: a struct of `&mut` would owe that it still lends the same ones.
#[tactic(auto, using(crate::proofs::Scatter::takes_from, crate::proofs::Scatter::passes_to, crate::proofs::Index::queue_count_le))]
pub(crate) fn make_moves<P: Copy>(
    plan: &Plan,
    cycle: u32,
    moves: &[Option<Move>],
    queues: &mut [Queue],
    places: &mut [Place],
    payloads: &mut [P],
    words: &mut [u32],
)
    requires fit { Fit plan.now queues.old places.old }
    requires payloads_in { queue_count plan.now * plan.now.sizes.depth ≤ length payloads.old }
    requires words_in { queue_count plan.now ≤ length words.old }
    requires moves_in { length moves.now ≡ ports plan.now }
    requires orderly { Orderly plan.now queues.old moves.now }
    ensures queued { queues.new
        ≡ edit 0 (queue_count plan.now) (queue_after plan.now moves.now) queues.old }
    ensures placed { places.new
        ≡ edit 0 (queue_count plan.now * plan.now.sizes.depth)
        (place_after plan.now cycle queues.old moves.now) places.old }
    ensures loaded { payloads.new
        ≡ edit 0 (queue_count plan.now * plan.now.sizes.depth)
        (payload_after plan.now queues.old moves.now payloads.old) payloads.old }
    ensures worded { words.new
        ≡ edit 0 (queue_count plan.now) (word_after plan.now moves.now) words.old }
{
    let domains = plan.sizes.domains as usize;
    for (k, m) in moves.iter().enumerate() {
        let Some(m) = m else {
            continue;
        };
        let domain = m.owner as usize;
        words[k * domains + domain] = m.next;
        let from = (k / 5 * 5 + m.winner as usize) * domains + domain;
        queues[from] = left(plan, queues[from]);
        let Some(j) = across(plan, k) else {
            continue;
        };
        let to = j * domains + domain;
        let at = end_place(plan, queues, to);
        places[at] = Place {
            destination: m.destination,
            source: m.source,
            ready: cycle as u64 + plan.sizes.hop as u64,
        };
        payloads[at] = payloads[m.from];
        queues[to] = joined(queues[to]);
    }
}
