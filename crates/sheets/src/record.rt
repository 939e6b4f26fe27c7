ghost use Rattle.std.specs.Prelude.{◌≡◌, ◌+◌, ◌<◌, ◌≤◌, length, MatchOption};
ghost use Rattle.diagrams.specs.Reading.{by_kind};
ghost use Rattle.sheets.specs.Codes.{code};
ghost use Rattle.sheets.specs.Frames.{Framed, item_of, item_in};

use crate::frame::Frame;
use crate::kind::RecordKind;
use refusals::{Refusal, SheetFault};

/// What a record after the head holds.
#[derive(Clone, Copy, PartialEq, Eq)]
pub enum Item {
    /// The word of a leaf.
    Leaf(u32),
    /// The level of a node, and its children by record number.
    Node { level: u8, low: u16, high: u16 },
    /// How many leaves and nodes the end counts.
    End(u16),
}

impl Item {
    /// What the record at the front of the bytes holds, if its kind is in turn after `count` leaves and nodes and its length is its kind's.
    pub fn read(bytes: &[u8], place: usize, count: usize) -> Result<Item, SheetFault>
        ensures { Framed count place bytes.now result }
    {
        let frame = Frame::read(bytes, place)?;
        let kind = match frame.kind {
            Some(kind) if kind.follows(count) => kind,
            _ => return Err(Refusal::RecordKind.at(place)),
        };
        Item::of_body(kind, frame.body).ok_or(Refusal::RecordLength.at(place))
    }

    /// What a record of a kind holds: 2 is a leaf, 3 a node, and any other an end.
    pub fn of_kind(kind: u16, bytes: &[u8]) -> Item
        requires { 4 + by_kind kind 4 5 2 ≤ length bytes.now }
        ensures { result ≡ item_of kind bytes.now }
    {
        match kind {
            2 => Item::Leaf(u32::from_le_bytes([bytes[4], bytes[5], bytes[6], bytes[7]])),
            3 => Item::Node {
                level: bytes[4],
                low: u16::from_le_bytes([bytes[5], bytes[6]]),
                high: u16::from_le_bytes([bytes[7], bytes[8]]),
            },
            _ => Item::End(u16::from_le_bytes([bytes[4], bytes[5]])),
        }
    }

    // What a body holds, if it is as long as its kind's. A head holds no item, and is not asked for one.
    fn of_body(kind: RecordKind, body: &[u8]) -> Option<Item>
        ensures { 1 < code kind → MatchOption result (¬ (length body.now ≡ by_kind (code kind) 4 5 2)) (λ item. (length body.now ≡ by_kind (code kind) 4 5 2) × (item ≡ item_in (code kind) body.now)) }
    {
        match (kind, body) {
            (RecordKind::Leaf, &[a, b, c, d]) => Some(Item::Leaf(u32::from_le_bytes([a, b, c, d]))),
            (RecordKind::Node, &[level, a, b, c, d]) => Some(Item::Node {
                level,
                low: u16::from_le_bytes([a, b]),
                high: u16::from_le_bytes([c, d]),
            }),
            (RecordKind::End, &[a, b]) => Some(Item::End(u16::from_le_bytes([a, b]))),
            _ => None,
        }
    }
}
