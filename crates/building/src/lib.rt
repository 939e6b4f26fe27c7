// Building rules in the places of a table. Each function borrows the parts of a table that it needs; undoing and forgetting are left to the table.
// Free functions on split borrows (places, store, layout), each with one record as its contract: a rule of the project, on which later requests lean.
// That a handle is in use, or stands on a level or deeper, is said in each contract: places change, so that no type of a handle can keep it. That a level
// is below 32 is said with it, where a node is made or parted: a type for levels would be made and taken apart at each, as layouts and places give bytes.
#![tactic(auto)]

pub mod combine;
pub mod operation;
pub mod quick;
pub mod restrict;
pub mod simple;
pub mod steps;
