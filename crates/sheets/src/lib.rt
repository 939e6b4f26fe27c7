// Sheets as bytes: records put into an output, and bytes checked to be a sheet.
#![tactic(auto)]

mod check;
mod frame;
mod head;
mod kind;
mod numbering;
pub mod put;
mod record;
mod records;
mod rules;
mod scan;

pub use check::check as check_sheet;
pub use head::Expected;
pub use record::Item;
pub use records::item;
