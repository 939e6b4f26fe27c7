// Layouts, fruits and capacities: what a table is made from.
#![tactic(auto)]

pub mod capacity;
pub mod form;
pub mod fruit;
pub mod layout;
mod level;
pub mod turn;

pub use capacity::Capacity;
pub use form::Form;
pub use fruit::has_mark;
pub use layout::Layout;
pub use turn::Turn;
