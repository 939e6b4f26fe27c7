// The words of a text.
ghost use Rattle.std.specs.Iterator.{YieldsFirstRef, item_count};
ghost use Rattle.journal_words.specs.Words.{left};

use journal_text::scan::{Class, split_run};

// The words of a text that are still to come.
#[derive(Clone, Copy)]
pub struct Words<'a> {
    pub rest: &'a [u8],
}

impl<'a> Iterator for Words<'a> {
    type Item = &'a [u8];

    ghost next_gives = { YieldsFirstRef left };

    ghost remaining = { item_count left };

    fn next(&mut self) -> Option<&'a [u8]> {
        let (_, text) = split_run(self.rest, Class::Blank);
        if text.is_empty() {
            return None;
        }
        let (word, rest) = split_run(text, Class::Solid);
        self.rest = rest;
        Some(word)
    }
}
