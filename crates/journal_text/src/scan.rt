// Classes of bytes, and runs of them.
ghost use Rattle.std.specs.Prelude.{◌≡◌, ◌<◌, ◌≤◌, length, take, drop, MatchOption};
ghost use Rattle.std.specs.List.{prefix_len, list_all};
ghost use Rattle.journal_text.specs.Scans.{within, Shows, Lines};

use std::str::from_utf8;

// A set of bytes. A value and no closure, since contracts name it, as `within Digit` in `decimal`.
#[derive(Clone, Copy)]
pub enum Class {
    // Space, tab and carriage return separate words, so lines may end as on any system.
    Blank,
    Solid,
    NameByte,
    Digit,
    Not(u8),
}

impl Class {
    pub fn has(self, byte: u8) -> bool
        ensures { result ≡ within self byte }
    {
        match self {
            Class::Blank => is_blank(byte),
            Class::Solid => !is_blank(byte),
            Class::NameByte => byte.is_ascii_lowercase() || byte.is_ascii_digit() || byte == b'_',
            Class::Digit => byte.is_ascii_digit(),
            Class::Not(stop) => byte != stop,
        }
    }
}

fn is_blank(byte: u8) -> bool
    ensures { result ≡ within Class.Blank byte }
{
    matches!(byte, b' ' | b'\t' | b'\r')
}

// How many bytes at the front are of the class.
fn run(text: &[u8], class: Class) -> usize
    ensures length { result ≡ prefix_len (within class) text.now }
    ensures fits { result ≤ length text.now }
{
    text.iter().take_while(|byte| class.has(**byte)).count()
}

// The bytes of the class at the front, and what follows them.
pub fn split_run(text: &[u8], class: Class) -> (&[u8], &[u8])
    ensures front { result.0.now ≡ take (prefix_len (within class) text.now) text.now }
    ensures back { result.1.now ≡ drop (prefix_len (within class) text.now) text.now }
{
    text.split_at(run(text, class))
}

// Whether every byte is of the class.
pub fn is_all(text: &[u8], class: Class) -> bool
    ensures { result ≡ list_all (within class) text.now }
{
    text.iter().all(|byte| class.has(*byte))
}

// A word as text, and empty where it is no text: no word of the journal's language is empty.
pub fn text(word: &[u8]) -> &str
    ensures { Shows word.now result.now }
{
    from_utf8(word).unwrap_or("")
}

// The first line of a text without its newline, and the text after it; nothing where the text is empty.
pub fn next_line(text: &[u8]) -> Option<(&[u8], &[u8])>
    ensures { MatchOption result (length text.now ≡ 0) (λ p. Lines text.now p.0.now p.1.now) }
{
    if text.is_empty() {
        return None;
    }
    let (line, rest) = cut_line(text);
    Some((line, rest))
}

// The first line of a text that is not empty, and the text after it.
fn cut_line(text: &[u8]) -> (&[u8], &[u8])
    requires { 0 < length text.now }
    ensures { Lines text.now result.0.now result.1.now }
{
    let (line, newline) = split_run(text, Class::Not(b'\n'));
    match newline {
        [] => (line, newline),
        [_, rest @ ..] => (line, rest),
    }
}
