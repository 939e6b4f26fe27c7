// The value of a handle's rule for a fruit.
#![tactic(auto)]

mod frames;
mod walk;

pub use walk::grade;
