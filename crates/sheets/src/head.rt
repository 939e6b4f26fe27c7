ghost use Rattle.diagrams.specs.Kinds.{Kind};
ghost use Rattle.diagrams.specs.Layouts.{Layout};
ghost use Rattle.sheets.specs.Scanned.{Asks, Headed};

use crate::frame::Frame;
use crate::kind::RecordKind;
use refusals::{Refusal, SheetFault};

/// What a table asks of a sheet.
// That there are fewer than 256 types is no field: it follows from what a table asks (`Asks`), and a field would ask it of whoever makes one.
#[derive(Clone, Copy)]
pub struct Expected<'a> {
    /// The head record of the table's kind and layout.
    pub head: &'a [u8],
    /// The number of each level's type.
    pub types: &'a [u8],
    /// How many leaves and nodes there may be.
    pub limit: usize,
}

impl Expected<'_> {
    /// Whether bytes begin with the head, or the first of the rules 13 to 16 that they break.
    pub fn check_head(self, bytes: &[u8]) -> Result<(), SheetFault>
        ensures { (K : Kind) (L : Layout) → Asks K L self.entry → Headed K L self.entry.limit bytes.now result }
    {
        let frame = Frame::read(bytes, 0)?;
        if frame.kind != Some(RecordKind::Head) {
            return Err(Refusal::RecordKind.at(0));
        }
        if 4 + frame.body.len() != self.head.len() {
            return Err(Refusal::RecordLength.at(0));
        }
        if !bytes.starts_with(self.head) {
            return Err(Refusal::WrongHead.at(0));
        }
        Ok(())
    }
}
