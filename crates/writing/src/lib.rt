// The sheet of a handle's rule, written into an output: the head, a record for each leaf and node in the order of the walk, the end.
#![tactic(auto)]

mod emit;
mod head;
mod sheet;

pub use head::{Head, head_of};
pub use sheet::write;
