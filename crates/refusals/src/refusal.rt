ghost use Rattle.std.specs.Prelude.{◌≡◌, Some};
ghost use Rattle.refusals.specs.Refusals.{number, layer, text};

use crate::layer::Layer;
use std::fmt;

/// Why a call is refused. The numbers also give the order in which the reasons are looked for.
#[derive(Clone, Copy, Debug, PartialEq, Eq)]
pub enum Refusal {
    /// A layout's size lies outside 1 to 32.
    LayoutSize = 1,
    /// A mark or level is the layout's size or above.
    NoSuchMark = 2,
    /// A type is above 2.
    NoSuchType = 3,
    /// A capacity lies outside 2 to 4,096.
    Capacity = 4,
    /// A word is no value of the kind.
    NotAValue = 5,
    /// A handle names no place in use.
    NotLive = 6,
    /// A restriction's constant is above 1.
    NotAConstant = 7,
    /// A fruit has a bit set at the layout's size or above.
    NotAFruit = 8,
    /// The hold count is already 65,535.
    HoldLimit = 9,
    /// The count to let go is 0.
    NotHeld = 10,
    /// The walk list is shorter than the capacity.
    WalkTooShort = 11,
    /// The output is shorter than the sheet.
    OutputTooShort = 12,
    /// A record is missing, or its header or stated body is cut short.
    RecordCut = 13,
    /// A record's kind is out of turn.
    RecordKind = 14,
    /// A record's length is not its kind's.
    RecordLength = 15,
    /// The head is not the table's.
    WrongHead = 16,
    /// Leaves and nodes outnumber the capacity.
    TooManyRecords = 17,
    /// A leaf's word is no value.
    LeafNotAValue = 18,
    /// A node's level is the layout's size or above, a child is no earlier record, or a child stands no deeper.
    BadNode = 19,
    /// The drop rule removes the node.
    Dropped = 20,
    /// A record equals an earlier one.
    Repeated = 21,
    /// The end's count is wrong.
    WrongCount = 22,
    /// Bytes follow the end.
    BytesAfterEnd = 23,
    /// A record's number is not the one that writing would give it.
    WrongNumber = 24,
    /// The rules in use and the needed ones together outnumber the capacity.
    TableFull = 25,
}

impl Refusal {
    /// The refusal's number, 1 to 25.
    pub fn number(self) -> u8
        ensures { result ≡ number self }
    {
        // Named, and no `From` for `u8`: callers print the number beside the words, and `number` says which number it is.
        self as u8
    }

    /// The layer that the refusal comes from, where it is a fault of reading.
    pub fn layer(self) -> Layer
        ensures { result ≡ layer self }
    {
        match self {
            Refusal::RecordCut => Layer::Bytes,
            Refusal::RecordKind
            | Refusal::RecordLength
            | Refusal::WrongHead
            | Refusal::TooManyRecords
            | Refusal::LeafNotAValue
            | Refusal::BadNode
            | Refusal::Dropped
            | Refusal::Repeated
            | Refusal::WrongCount
            | Refusal::BytesAfterEnd
            | Refusal::WrongNumber => Layer::Sheet,
            _ => Layer::Table,
        }
    }

    /// What is wrong, in a few words.
    pub fn words(self) -> &'static str
        ensures { result.now ≡ text self }
    {
        match self {
            Refusal::LayoutSize => "the layout has no marks or more than 32",
            Refusal::NoSuchMark => "the layout has no such mark or level",
            Refusal::NoSuchType => "a type is 0, 1 or 2",
            Refusal::Capacity => "a capacity is a number from 2 to 4096",
            Refusal::NotAValue => "the word is no value of this kind",
            Refusal::NotLive => "the handle names no place in use",
            Refusal::NotAConstant => "a mark is restricted to 0 or 1",
            Refusal::NotAFruit => "the fruit has a mark that the layout lacks",
            Refusal::HoldLimit => "the handle is held 65535 times already",
            Refusal::NotHeld => "the handle is not held",
            Refusal::WalkTooShort => "the walk list is shorter than the capacity",
            Refusal::OutputTooShort => "the output is shorter than the sheet",
            Refusal::RecordCut => "a record is missing or cut short",
            Refusal::RecordKind => "a record of this kind is out of turn",
            Refusal::RecordLength => "a record has not the length of its kind",
            Refusal::WrongHead => "the sheet is for another kind or layout",
            Refusal::TooManyRecords => "the sheet has more records than the table has places",
            Refusal::LeafNotAValue => "a leaf holds no value of this kind",
            Refusal::BadNode => "a node has a wrong level or a wrong child",
            Refusal::Dropped => "the drop rule removes a node",
            Refusal::Repeated => "a record stands twice",
            Refusal::WrongCount => "the end counts the records wrongly",
            Refusal::BytesAfterEnd => "bytes follow the end",
            Refusal::WrongNumber => "a record stands out of the order of writing",
            Refusal::TableFull => "the table is full",
        }
    }
}

impl fmt::Display for Refusal {
    ghost output = { λ refusal. Some (text refusal) };

    fn fmt<W: fmt::Write>(&self, f: &mut fmt::Formatter<W>) -> fmt::Result {
        f.write_str(self.words())
    }
}
