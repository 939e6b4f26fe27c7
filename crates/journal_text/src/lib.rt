// What the words of a journal are made of: classes of bytes, numbers, hex, and what can be wrong.
#![tactic(auto)]

pub mod decimal;
pub mod hex;
pub mod mistake;
pub mod scan;
