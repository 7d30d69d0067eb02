// Plans for a wave-scheduled mesh: which domain may use which router port in which cycle.
#![tactic(auto)]

mod allowed;
mod build;
mod check;
pub mod geometry;
pub mod plan;
pub mod planning;
pub mod queries;
pub mod refusal;
pub mod side;
pub mod sizes;
