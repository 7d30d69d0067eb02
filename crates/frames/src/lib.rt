// The text that the programs read and write: lines of lowercase hexadecimal, one frame a line.
#![tactic(auto)]

pub mod choices;
pub mod chosen;
pub mod frame;
pub mod given;
pub mod hex;
pub mod limits;
pub mod lines;
pub mod output;
pub mod payload;
#[cfg(test)]
mod tests;
