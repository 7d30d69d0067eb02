// The mesh as a machine: its tables, what a cycle and the four calls do to them, and what is promised over every run of calls.
#![tactic(auto)]

pub mod promise;
pub mod tables;
