// A mesh run by frames: from a block of input to the lines that are printed for it.
#![tactic(auto)]

mod handling;
pub mod run;
mod state;
mod stepping;
