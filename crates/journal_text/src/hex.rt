// Bytes as pairs of hex digits.
ghost use Rattle.std.specs.Prelude.{◌≡◌, ◌≤◌, length, true, is_ok, Err, Some, MatchResult};
ghost use Rattle.journal_text.specs.declared.hex.Unread.TheVariants as unread;
ghost use Rattle.journal_text.specs.Hex.{hex_digit, hex_value, byte_of, digits_of, hex_of, Decoded, digits, hex_text};

use crate::mistake::Mistake;
use crate::scan::text;
use arrayvec::ArrayVec;
use std::alloc::{AllocFailed, Global};
use std::fmt;

// Why a hex text gives no bytes.
#[derive(Clone, Copy)]
pub enum Unread {
    Mistake(Mistake),
    NoMemory,
}

impl From<Mistake> for Unread {
    ghost from_gives = { λ e r. r ≡ unread.Mistake e };

    fn from(mistake: Mistake) -> Unread {
        Unread::Mistake(mistake)
    }
}

impl<T: Drop> From<AllocFailed<T>> for Unread {
    ghost from_gives = { λ e r. r ≡ unread.NoMemory };

    fn from(_refused: AllocFailed<T>) -> Unread {
        Unread::NoMemory
    }
}

// The digit, in small letters, of the low four bits.
// `char::from_digit` is no plainer: it gives an Option of a char, and this cannot fail.
pub fn hex_digit(n: u8) -> u8
    ensures { result ≡ hex_digit n }
{
    match n % 16 {
        low @ 0..=9 => b'0' + low,
        low => b'a' - 10 + low,
    }
}

// The value of a digit of either case.
fn hex_value(digit: u8) -> Option<u8>
    ensures { result ≡ hex_value digit }
{
    char::from(digit).to_digit(16).map(|value| value as u8)
}

// The byte of a pair of digits.
fn byte_of(pair: &[u8]) -> Result<u8, Mistake>
    ensures { result ≡ byte_of pair.now }
{
    let [high, low] = pair else {
        return Err(Mistake::OddHex);
    };
    let high = hex_value(*high).ok_or(Mistake::BadHex)?;
    let low = hex_value(*low).ok_or(Mistake::BadHex)?;
    Ok(high * 16 + low)
}

// The digits of a hex text: `-` stands for none.
fn digits(text: &[u8]) -> &[u8]
    ensures { result.now ≡ digits_of text.now }
{
    match text {
        b"-" => &[],
        _ => text,
    }
}

// Not by the library's `decode`: that tells an odd number of digits before a wrong one, and here the first wrong pair is told.

// Whether the text is hex of whole bytes.
pub fn check_hex(text: &[u8]) -> Result<(), Mistake>
    ensures { MatchResult result (λ _. is_ok (hex_of text.now) ≡ true) (λ e. hex_of text.now ≡ Err e) }
{
    for pair in digits(text).chunks(2) {
        byte_of(pair)?;
    }
    Ok(())
}

// The bytes of a hex text.
pub fn unhex(heap: Global, text: &[u8]) -> Result<Vec<u8>, Unread>
    ensures { Decoded (digits_of text.now) result }
{
    decode(heap, digits(text))
}

// The bytes that the digits write.
fn decode(heap: Global, digits: &[u8]) -> Result<Vec<u8>, Unread>
    ensures { Decoded digits.now result }
{
    let mut bytes = Vec::new(heap);
    for pair in digits.chunks(2) {
        bytes.push(byte_of(pair)?)?;
    }
    Ok(bytes)
}

// The digits of a few bytes, two for each.
// By `hex_digit`, of which a hex text is made: `{byte:02x}` is no plainer, as the library's words for it would have to be tied to that.
fn chunk_digits(bytes: &[u8]) -> ArrayVec<u8, 64>
    requires { length bytes.now ≤ 32 }
    ensures { result.items ≡ digits bytes.now }
{
    let mut written = ArrayVec::new();
    for byte in bytes {
        written.push(hex_digit(*byte / 16));
        written.push(hex_digit(*byte));
    }
    written
}

// Bytes that print as their hex text.
#[derive(Clone, Copy)]
pub struct InHex<'a> {
    pub bytes: &'a [u8],
}

impl fmt::Display for InHex<'_> {
    ghost output = { λ hex. Some (hex_text hex.bytes.now) };

    fn fmt<W: fmt::Write>(&self, f: &mut fmt::Formatter<W>) -> fmt::Result {
        if self.bytes.is_empty() {
            return f.write_str("-");
        }
        // Many digits by one call: a call for each takes several times as long.
        for chunk in self.bytes.chunks(32) {
            f.write_str(text(&chunk_digits(chunk)))?;
        }
        Ok(())
    }
}
