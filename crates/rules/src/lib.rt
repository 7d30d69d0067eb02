// The choices that a mesh leaves open: which side wins a contested port, and by which side a packet leaves.
#![tactic(auto)]

pub mod arbiter;
pub mod fixed;
pub mod order_list;
pub mod rotating;
pub mod route;
mod sides;
