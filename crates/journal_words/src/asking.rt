// A command and its operands.
ghost use Rattle.std.specs.Prelude.{◌≡◌};
ghost use Rattle.journal_words.specs.Words.{left};
ghost use Rattle.journal_words.specs.Requests.{answered, begun, said, request};

use crate::command::Command;
use crate::operands::Hex;
use crate::verb::{ListName, Verb};
use crate::words::Words;
use journal_text::mistake::Mistake;
use journal_text::scan::text;

// The command that the word names.
pub fn begin(word: &[u8]) -> Result<Verb, Mistake>
    ensures { result ≡ begun word.now }
{
    text(word).parse()
}

// The command of the word, with its operands.
pub fn command<'a>(verb: Verb, words: Words<'a>) -> Result<Command<'a>, Mistake>
    ensures { answered said result ≡ request verb (left words.entry) }
{
    match verb {
        Verb::Layout => {
            let marks = words.one()?;
            Ok(Command::Layout { marks })
        }
        Verb::Exchange => {
            let (a, b) = words.two()?;
            Ok(Command::Exchange { a, b })
        }
        Verb::SetType => {
            let (mark, to) = words.two()?;
            Ok(Command::SetType { mark, to })
        }
        Verb::Table => {
            let (kind, capacity, store) = words.three()?;
            Ok(Command::Table {
                kind,
                capacity,
                store,
            })
        }
        Verb::Walk => {
            let (length, fill) = words.two()?;
            Ok(Command::Walk { length, fill })
        }
        Verb::Output => {
            let (length, fill) = words.two()?;
            Ok(Command::Output { length, fill })
        }
        Verb::Constant => {
            let value = words.one()?;
            Ok(Command::Constant { value })
        }
        Verb::Mark => {
            let mark = words.one()?;
            Ok(Command::Mark { mark })
        }
        Verb::Sum => {
            let (a, b) = words.two()?;
            Ok(Command::Sum { a, b })
        }
        Verb::Difference => {
            let (a, b) = words.two()?;
            Ok(Command::Difference { a, b })
        }
        Verb::Product => {
            let (a, b) = words.two()?;
            Ok(Command::Product { a, b })
        }
        Verb::Restrict => {
            let (handle, mark, constant) = words.three()?;
            Ok(Command::Restrict {
                handle,
                mark,
                constant,
            })
        }
        Verb::Read => {
            let Hex(hex) = words.one()?;
            Ok(Command::Read { hex })
        }
        Verb::Hold => {
            let handle = words.one()?;
            Ok(Command::Hold { handle })
        }
        Verb::LetGo => {
            let handle = words.one()?;
            Ok(Command::LetGo { handle })
        }
        Verb::Sweep => {
            words.end()?;
            Ok(Command::Sweep)
        }
        Verb::Size => {
            let handle = words.one()?;
            Ok(Command::Size { handle })
        }
        Verb::Write => {
            let handle = words.one()?;
            Ok(Command::Write { handle })
        }
        Verb::Grade => {
            let (handle, fruit) = words.two()?;
            Ok(Command::Grade { handle, fruit })
        }
        Verb::Release => {
            words.end()?;
            Ok(Command::Release)
        }
        Verb::Reopen => {
            words.end()?;
            Ok(Command::Reopen)
        }
        Verb::Show => match words.one()? {
            ListName::Walk => Ok(Command::ShowWalk),
            ListName::Output => Ok(Command::ShowOutput),
        },
    }
}
