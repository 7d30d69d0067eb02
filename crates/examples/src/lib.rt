// Worked examples of plans, arbiters and route rules: proved of the definitions, and tried on the code.
#![tactic(auto)]

#[cfg(test)]
mod bench;
#[cfg(test)]
mod calls;
#[cfg(test)]
mod own_rule;
pub mod proved;
#[cfg(test)]
mod tests;
