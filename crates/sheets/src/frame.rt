ghost use Rattle.sheets.specs.Frames.{Framing};

use crate::kind::RecordKind;
use refusals::ByteFault;

/// A record: its kind, if it is one, and its body, as long as the record states.
#[derive(Clone, Copy)]
pub struct Frame<'a> {
    pub kind: Option<RecordKind>,
    pub body: &'a [u8],
}

impl Frame<'_> {
    /// The record at the front of the bytes, whose byte place in the sheet is told.
    pub fn read(bytes: &[u8], place: usize) -> Result<Frame<'_>, ByteFault>
        ensures { Framing place bytes.now result }
    {
        let &[length_low, length_high, kind_low, kind_high, ref rest @ ..] = bytes else {
            return Err(ByteFault { place });
        };
        let length = u16::from_le_bytes([length_low, length_high]) as usize;
        let kind = u16::from_le_bytes([kind_low, kind_high]);
        let body = rest.get(..length).ok_or(ByteFault { place })?;
        Ok(Frame {
            kind: RecordKind::of_code(kind),
            body,
        })
    }
}
