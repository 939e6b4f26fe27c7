// Reading a sheet into the places of a table.
#![tactic(auto)]

pub mod admit;
pub mod fill;
pub mod read;
