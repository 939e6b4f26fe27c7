// The operands of a command.
ghost use Rattle.std.specs.Prelude.{◌≡◌, List, [], ◌∷◌, MatchResult};
ghost use Rattle.std.specs.Option.{option_map};
ghost use Rattle.journal_text.specs.declared.mistake.Mistake.TheVariants.{MissingOperand};
ghost use Rattle.journal_words.specs.Words.{left};
ghost use Rattle.journal_words.specs.Requests.{Slot, Part, answered, handle, operand_part, is_name, name_of};
ghost use Rattle.journal_words.specs.Requests as requests;
ghost use Rattle.journal_words.specs.Takes.{Takes, Reads};

use crate::command::{KindName, Operand, StoreName};
use crate::verb::{ListName, StoreWord};
use crate::words::Words;
use journal_text::decimal::number;
use journal_text::hex::check_hex;
use journal_text::mistake::Mistake;
use journal_text::scan::{Class, is_all, text};
use std::str::from_utf8;

// What a command takes from the words of its line.
pub trait FromWords<'a>: Sized + Drop {
    // What may stand at its place.
    ghost slot: { Slot };

    // The value, as an operand.
    ghost part: { Self → Part };

    // The next operand, which has to be there.
    fn take(words: &mut Words<'a>) -> Result<Self, Mistake>
        ensures { Takes part slot words.old result words.new };
}

impl<'a> FromWords<'a> for u32 {
    ghost slot = { requests.Number };

    ghost part = { requests.number };

    fn take(words: &mut Words<'a>) -> Result<u32, Mistake> {
        number(words.word()?)
    }
}

impl<'a> FromWords<'a> for Operand<'a> {
    ghost slot = { requests.Handle };

    ghost part = { operand_part };

    fn take(words: &mut Words<'a>) -> Result<Operand<'a>, Mistake> {
        operand(words.word()?)
    }
}

// A word of hex, of whole bytes.
#[derive(Clone, Copy)]
pub struct Hex<'a>(pub &'a [u8]);

impl<'a> FromWords<'a> for Hex<'a> {
    ghost slot = { requests.Hex };

    ghost part = { λ h. requests.hex h.0.now };

    fn take(words: &mut Words<'a>) -> Result<Hex<'a>, Mistake> {
        let word = words.word()?;
        check_hex(word)?;
        Ok(Hex(word))
    }
}

impl<'a> FromWords<'a> for KindName {
    ghost slot = { requests.Kind };

    ghost part = { requests.kind };

    fn take(words: &mut Words<'a>) -> Result<KindName, Mistake> {
        text(words.word()?).parse()
    }
}

impl<'a> FromWords<'a> for ListName {
    ghost slot = { requests.Shown };

    ghost part = { requests.list };

    fn take(words: &mut Words<'a>) -> Result<ListName, Mistake> {
        text(words.word()?).parse()
    }
}

impl<'a> FromWords<'a> for StoreName {
    ghost slot = { requests.Store };

    ghost part = { requests.store };

    fn take(words: &mut Words<'a>) -> Result<StoreName, Mistake> {
        match text(words.word()?).parse()? {
            StoreWord::Last => Ok(StoreName::Last),
            StoreWord::Own => Ok(StoreName::Own),
            StoreWord::Lent => Ok(StoreName::Lent(u32::take(words)?)),
        }
    }
}

impl<'a> Words<'a> {
    // The next word, which has to be there.
    fn word(&mut self) -> Result<&'a [u8], Mistake>
        ensures { MatchResult result (λ w. left self.old ≡ w.now ∷ left self.new) (λ e. (left self.old ≡ []) × (e ≡ MissingOperand)) }
    {
        self.next().ok_or(Mistake::MissingOperand)
    }

    // No operand may be left.
    pub fn end(mut self) -> Result<(), Mistake>
        ensures { Reads (λ _. []) [] self.entry result }
    {
        match self.next() {
            None => Ok(()),
            Some(_) => Err(Mistake::ExtraOperand),
        }
    }

    // The only operand.
    pub fn one<A: FromWords<'a>>(mut self) -> Result<A, Mistake>
        ensures { Reads (λ a. A.part a ∷ []) (A.slot ∷ []) self.entry result }
    {
        let only = A::take(&mut self)?;
        self.end()?;
        Ok(only)
    }

    pub fn two<A: FromWords<'a>, B: FromWords<'a>>(mut self) -> Result<(A, B), Mistake>
        ensures { Reads (λ p. A.part p.0 ∷ B.part p.1 ∷ []) (A.slot ∷ B.slot ∷ []) self.entry result }
    {
        let first = A::take(&mut self)?;
        let second = self.one()?;
        Ok((first, second))
    }

    pub fn three<A: FromWords<'a>, B: FromWords<'a>, C: FromWords<'a>>(
        mut self,
    ) -> Result<(A, B, C), Mistake>
        ensures { Reads (λ p. A.part p.0 ∷ B.part p.1 ∷ C.part p.2 ∷ []) (A.slot ∷ B.slot ∷ C.slot ∷ []) self.entry result }
    {
        let first = A::take(&mut self)?;
        let (second, third) = self.two()?;
        Ok((first, second, third))
    }
}

// The word as a name: a letter a-z, and then letters a-z, digits and `_`.
// An `if`, and no `from_utf8(word).ok().filter(..)`, which was tried: the clause stays unproved.
pub fn name(word: &[u8]) -> Option<&str>
    ensures { option_map (λ x. x.now) result ≡ name_of word.now }
{
    if is_name(word) {
        from_utf8(word).ok()
    } else {
        None
    }
}

fn is_name(word: &[u8]) -> bool
    ensures { result ≡ is_name word.now }
{
    matches!(word, [b'a'..=b'z', ..]) && is_all(word, Class::NameByte)
}

// The handle that a word writes.
fn operand(word: &[u8]) -> Result<Operand<'_>, Mistake>
    ensures { answered operand_part result ≡ handle word.now }
{
    if let [b'0'..=b'9', ..] = word {
        return Ok(Operand::Number(number(word)?));
    }
    name(word).map(Operand::Name).ok_or(Mistake::BadHandle)
}
