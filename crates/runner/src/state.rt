// What the program holds of the mesh that it runs.
use frames::choices::Choices;
use frames::payload::Collection;
use machine::tables::{Place, Queue};
use schedule::plan::Plan;

// The cycle, and the tables that the calls are lent beside payloads. They are arrays, since the program's memory is fixed.
#[derive(Drop)]
pub(crate) struct MeshTables {
    pub(crate) cycle: u32,
    pub(crate) queues: [Queue; 320],
    pub(crate) places: [Place; 1280],
    pub(crate) words: [u32; 320],
}

// Payloads of one kind: those of the places, and those that a step delivers, which are read before the next one. Arrays too.
#[derive(Drop)]
pub(crate) struct PayloadTables<P> {
    pub(crate) held: [P; 1280],
    pub(crate) delivered: [P; 16],
}

// Tables for 16 routers and 4 domains, with payloads of both kinds.
#[derive(Drop)]
pub(crate) struct RunningMesh {
    pub(crate) plan: Plan,
    pub(crate) choices: Choices,
    pub(crate) tables: MeshTables,
    pub(crate) words: PayloadTables<u32>,
    pub(crate) records: PayloadTables<Collection>,
}
