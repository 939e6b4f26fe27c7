// Reads a journal line by line.
ghost use Rattle.std.specs.Prelude.{◌≡◌, length};
ghost use Rattle.replay.specs.Lines.{Read};

use crate::failure::Failure;
use journal::{Line, next_line, parse};

#[derive(Drop)]
pub struct Reader<'a> {
    // What is still to be read.
    pub rest: &'a [u8],
    // The number of the line that was read last.
    pub line: u64,
}

impl<'a> Reader<'a> {
    // The next line that holds a command, if there is one.
    pub fn next_command(&mut self) -> Result<Option<Line<'a>>, Failure>
        ensures { Read result (length self.old.rest.now) (length self.new.rest.now) }
    {
        while let Some((text, rest)) = next_line(self.rest) {
            self.rest = rest;
            self.line = self.line.saturating_add(1);
            if let Some(line) = parse(text)? {
                return Ok(Some(line));
            }
        }
        Ok(None)
    }
}
