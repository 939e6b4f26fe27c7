// What can be wrong with a line.
ghost use Rattle.std.specs.Prelude.{◌≡◌, Some};
ghost use Rattle.journal_text.specs.Mistakes.{wording};

use std::fmt;

#[derive(Clone, Copy)]
pub enum Mistake {
    UnknownCommand,
    MissingCommand,
    MissingOperand,
    ExtraOperand,
    NotANumber,
    OutOfRange,
    BadName,
    BadHandle,
    UnknownKind,
    UnknownStore,
    UnknownList,
    OddHex,
    BadHex,
    NoHandle,
}

impl Mistake {
    // What to tell the journal's author.
    pub fn words(self) -> &'static str
        ensures { result.now ≡ wording self }
    {
        match self {
            Mistake::UnknownCommand =>
                "unknown command: begin the line with a command's name, or with NAME = and a command",
            Mistake::MissingCommand => "nothing follows the =: write a command after it",
            Mistake::MissingOperand =>
                "an operand is missing: give the command all of its operands",
            Mistake::ExtraOperand =>
                "an operand too many: end the line after the command's last operand, or write # before a comment",
            Mistake::NotANumber => "not a number: write decimal digits only",
            Mistake::OutOfRange => "number out of range: write 0 to 4294967295",
            Mistake::BadName => "not a name: write a letter a-z, then letters a-z, digits or _",
            Mistake::BadHandle =>
                "not a handle: write a number or a name, a letter a-z and then letters a-z, digits or _",
            Mistake::UnknownKind => "unknown kind: write yesno or points",
            Mistake::UnknownStore => "unknown store: write last, own, or lent and a number",
            Mistake::UnknownList => "unknown list: write show walk or show output",
            Mistake::OddHex =>
                "odd number of hex digits: write two for each byte, or - for no bytes",
            Mistake::BadHex =>
                "not hex: write digits 0-9 and a-f, two for each byte, or - for no bytes",
            Mistake::NoHandle => "the command answers no handle: write it without NAME =",
        }
    }
}

impl fmt::Display for Mistake {
    ghost output = { λ mistake. Some (wording mistake) };

    fn fmt<W: fmt::Write>(&self, f: &mut fmt::Formatter<W>) -> fmt::Result {
        f.write_str(self.words())
    }
}
