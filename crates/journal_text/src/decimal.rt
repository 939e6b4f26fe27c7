// Decimal numbers.
ghost use Rattle.std.specs.Prelude.{◌≡◌, ◌&&◌, length, nat_lt};
ghost use Rattle.std.specs.List.{list_all};
ghost use Rattle.journal_text.specs.declared.scan.Class.TheVariants.{Digit};
ghost use Rattle.journal_text.specs.Numbers.{decimal};
ghost use Rattle.journal_text.specs.Scans.{within};

use crate::mistake::Mistake;
use crate::scan::{Class, is_all, text};

// The number that a word of decimal digits writes; leading zeros are allowed.
pub fn number(word: &[u8]) -> Result<u32, Mistake>
    ensures { result ≡ decimal word.now }
{
    if !is_digits(word) {
        return Err(Mistake::NotANumber);
    }
    // With digits alone, only the range can be wrong.
    text(word).parse().or(Err(Mistake::OutOfRange))
}

fn is_digits(word: &[u8]) -> bool
    ensures { result ≡ (nat_lt 0 (length word.now) && list_all (within Digit) word.now) }
{
    !word.is_empty() && is_all(word, Class::Digit)
}
