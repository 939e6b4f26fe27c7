#![tactic(auto)]

pub mod fill;
pub mod fresh;
pub mod keep;
pub mod place;
pub mod places;
pub mod read;
pub mod saved;
