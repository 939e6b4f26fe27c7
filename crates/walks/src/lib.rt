// Walks over the places of a table: from a place to its children, each place once, children before parents, low before high. They are lent a list of
// numbers by the caller, and leave its first entries zero.
#![tactic(auto)]

mod collecting;
mod guard;
mod order;
mod sizes;
mod sweeping;

pub use collecting::collect;
pub use guard::{Cleared, clear};
pub use order::Order;
pub use sizes::{nodes, reach, size, unwalked};
pub use sweeping::sweep;
