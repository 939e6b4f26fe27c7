// The journal of a lane: turns one line of it into a command.
#![tactic(auto)]

mod names;
mod reading;

pub use journal_text::decimal::number;
pub use journal_text::hex::{InHex, Unread, hex_digit, unhex};
pub use journal_text::mistake::Mistake;
pub use journal_text::scan::next_line;
pub use journal_words::command::{Command, KindName, Line, Operand, StoreName};
pub use names::Names;
pub use reading::parse;
