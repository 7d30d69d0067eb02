// What the choices of a cycle read, as the cycle begins.
ghost use Rattle.std.specs.Prelude.{ℕ, ◌≤◌, length};
ghost use Rattle.mesh.specs.Heads.{Fit, queue_count};

use machine::tables::{Place, Queue};
use schedule::plan::Plan;

// That a router, a port, a domain or a queue is the plan's stays a `requires` of each method and of the functions beside them: a number that
// knows it would have to carry the plan.
// It has five fields of `Lent` and not that struct itself, whose payloads no choice reads: it would be generic in them for nothing.
#[derive(Drop)]
pub(crate) struct Outset<'a, A, R> {
    pub(crate) plan: &'a Plan,
    pub(crate) arbiter: &'a A,
    pub(crate) rule: &'a R,
    pub(crate) cycle: u32,
    pub(crate) queues: &'a [Queue],
    pub(crate) places: &'a [Place],
    pub(crate) words: &'a [u32],
    ghost fit: { Fit plan.now queues.now places.now },
    ghost words_in: { queue_count plan.now ≤ length words.now },
}
