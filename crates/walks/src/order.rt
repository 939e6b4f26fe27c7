ghost use Rattle.std.specs.Prelude.{◌≤◌};
ghost use Rattle.places.specs.declared.places.TheConstants.{SLOTS};

use places::places::SLOTS;

mod calls;

/// The places that a walk has come to, in the order in which it left them. It has room for every place of a table.
// An array and a count, and no ArrayVec: an order is copied.
#[derive(Clone, Copy)]
pub struct Order {
    handles: [u16; SLOTS],
    count: usize,
    ghost few: { count ≤ SLOTS },
}
