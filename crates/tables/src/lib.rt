// Rule tables: the open table, on which rules are built, and the released table, by which fruit is graded. Every public call takes one step of the
// specification of tables, whatever it is given. The public bodies are thin, over helpers with the same contracts: a rule of the project, by which a wrong
// body is refused at its contract.
#![tactic(auto)]

mod call;
mod checks;
pub mod open;
pub mod released;

pub use open::Open;
pub use released::Released;
