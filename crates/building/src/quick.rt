ghost use Rattle.std.specs.Prelude.{◌≡◌, ℕ, ◌<◌};
ghost use Rattle.places.specs.Tables.{Used};
ghost use Rattle.building.specs.Operations.{meant};
ghost use Rattle.building.specs.Shortcuts.{floor, Quickly, Last};

use crate::operation::Operation;
use kinds::Value;
use places::place::Content;
use places::places::Places;

// What answers a combination at once: a handle, or a value whose leaf is the answer.
#[derive(Clone, Copy)]
pub enum Answer {
    Handle(u16),
    Value(u32),
}

// The higher of the levels of two handles.
pub fn higher(places: &Places, a: u16, b: u16) -> u8
    ensures { result ≡ floor places.now a b }
{
    places.level_of(a).min(places.level_of(b))
}

// Two leaves are combined at once.
fn leaves<K: Value>(places: &Places, operation: Operation, a: u16, b: u16) -> Option<Answer>
    requires left { Used places.now a }
    requires right { Used places.now b }
    ensures { Last K.Value.kind places.now (meant operation) a b result }
{
    match (places.content(a), places.content(b)) {
        (Content::Leaf(x), Content::Leaf(y)) => Some(Answer::Value(operation.apply::<K>(x, y))),
        _ => None,
    }
}

// The shortcuts of a combination. Places 0 and 1 hold zero and one.
pub fn shorten<K: Value>(places: &Places, operation: Operation, a: u16, b: u16) -> Option<Answer>
    requires left { Used places.now a }
    requires right { Used places.now b }
    ensures { Quickly K.Value.kind places.now (meant operation) a b result }
{
    match (operation, a, b) {
        // Zero is neutral.
        (Operation::Sum, 0, h) | (Operation::Sum, h, 0) => Some(Answer::Handle(h)),
        // Less zero is itself, and less itself is zero.
        (Operation::Difference, h, 0) => Some(Answer::Handle(h)),
        (Operation::Difference, x, y) if x == y => Some(Answer::Handle(0)),
        // Times zero is zero, and one is neutral.
        (Operation::Product, 0, _) | (Operation::Product, _, 0) => Some(Answer::Handle(0)),
        (Operation::Product, 1, h) | (Operation::Product, h, 1) => Some(Answer::Handle(h)),
        _ => leaves::<K>(places, operation, a, b),
    }
}
