// The mesh of routers over tables that a caller lends.
#![tactic(auto)]

mod apply;
mod ask;
mod asking;
mod checks;
mod choose;
mod deliver;
pub mod inject;
mod lent;
mod links;
mod moves;
pub mod needed;
pub mod open;
mod outset;
pub mod room;
mod sound;
pub mod step;
