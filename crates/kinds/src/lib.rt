// The kinds of value that a table can have.
#![tactic(auto)]

pub mod points;
pub mod value;
pub mod yes_no;

pub use points::Points;
pub use value::Value;
pub use yes_no::YesNo;
