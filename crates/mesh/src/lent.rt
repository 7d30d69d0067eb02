use machine::tables::{Place, Queue};
use schedule::plan::Plan;

// The four tables of a mesh as a call finds them.
#[derive(Drop)]
pub(crate) struct Lent<'a, P> {
    pub(crate) plan: &'a Plan,
    pub(crate) cycle: u32,
    pub(crate) queues: &'a [Queue],
    pub(crate) places: &'a [Place],
    pub(crate) payloads: &'a [P],
    pub(crate) words: &'a [u32],
}
