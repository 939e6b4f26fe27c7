// A line of a journal.
ghost use Rattle.std.specs.Prelude.{◌≡◌};
ghost use Rattle.std.specs.Option.{option_map};
ghost use Rattle.journal_words.specs.Requests.{answered};
ghost use Rattle.journal_words.specs.Words.{left};
ghost use Rattle.journal.specs.Lines as lines;
ghost use Rattle.journal.specs.Lines.{line_said, meaning};

use journal_text::mistake::Mistake;
use journal_text::scan::{Class, split_run};
use journal_words::asking::{begin, command};
use journal_words::command::Line;
use journal_words::operands::name;
use journal_words::words::Words;

// The command that a line of a journal asks for, or nothing where the line is empty or a comment.
//
// The line comes without its newline, and may hold any bytes. `NAME = COMMAND` binds a name, which
// may also be a command's word; a command that answers no handle takes no name.
pub fn parse(line: &[u8]) -> Result<Option<Line<'_>>, Mistake>
    ensures { answered (option_map line_said) result ≡ meaning line.now }
{
    let (text, _) = split_run(line, Class::Not(b'#'));
    let mut words = Words { rest: text };
    let Some(first) = words.next() else {
        return Ok(None);
    };
    Ok(Some(after_first(first, words)?))
}

// The line of a first word and the words after it.
fn after_first<'a>(first: &'a [u8], words: Words<'a>) -> Result<Line<'a>, Mistake>
    ensures { answered line_said result ≡ lines.after_first first.now (left words.entry) }
{
    let mut after = words;
    match after.next() {
        Some(b"=") => bound(first, after),
        _ => unbound(first, words),
    }
}

// A line that binds no name.
fn unbound<'a>(word: &[u8], words: Words<'a>) -> Result<Line<'a>, Mistake>
    ensures { answered line_said result ≡ lines.unbound word.now (left words.entry) }
{
    let verb = begin(word)?;
    let command = command(verb, words)?;
    Ok(Line {
        binds: None,
        command,
    })
}

// A line that binds a name.
fn bound<'a>(word: &'a [u8], words: Words<'a>) -> Result<Line<'a>, Mistake>
    ensures { answered line_said result ≡ lines.bound word.now (left words.entry) }
{
    bound_to(name(word).ok_or(Mistake::BadName)?, words)
}

// What follows `NAME =`.
fn bound_to<'a>(name: &'a str, mut words: Words<'a>) -> Result<Line<'a>, Mistake>
    ensures { answered line_said result ≡ lines.bound_to name.now (left words.entry) }
{
    let verb = begin(words.next().ok_or(Mistake::MissingCommand)?)?;
    if !verb.answers_handle() {
        return Err(Mistake::NoHandle);
    }
    let command = command(verb, words)?;
    Ok(Line {
        binds: Some(name),
        command,
    })
}
