// Why a call is refused, and what a fault of reading tells.
#![tactic(auto)]

pub mod fault;
pub mod layer;
pub mod refusal;

pub use fault::{ByteFault, SheetFault, TableFault};
pub use layer::Layer;
pub use refusal::Refusal;
