ghost use Rattle.std.specs.Prelude.{◌≡◌, ℕ};
ghost use Rattle.layouts.specs.Forms.{decomposition};
ghost use Rattle.layouts.specs.Turns.{children, chosen};

use crate::form::Form;

/// Which of its children a node adds up to, where its mark is 1 or 0: the rule of the node is the sum of theirs.
#[derive(Clone, Copy, Debug, PartialEq, Eq)]
pub enum Turn {
    Low,
    High,
    Both,
}

impl Form {
    /// The children that a node of the type adds up to where its mark is 1, or is 0.
    pub fn turn(self, marked: bool) -> Turn
        ensures { (low high : ℕ) → children result low high ≡ chosen (decomposition self) marked low high }
    {
        match (self, marked) {
            (Form::Shannon, false) => Turn::Low,
            (Form::Shannon, true) => Turn::High,
            (Form::PositiveDavio, false) => Turn::Low,
            (Form::PositiveDavio, true) => Turn::Both,
            (Form::NegativeDavio, false) => Turn::Both,
            (Form::NegativeDavio, true) => Turn::Low,
        }
    }
}
