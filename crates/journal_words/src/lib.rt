// The commands of a journal, read from the words of a line.
#![tactic(auto)]

pub mod asking;
pub mod command;
pub mod operands;
pub mod verb;
pub mod words;
