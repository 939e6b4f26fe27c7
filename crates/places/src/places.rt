ghost use Rattle.std.specs.Prelude.{◌≡◌, ℕ, ◌≤◌, true, length};
ghost use Rattle.places.specs.declared.places.TheConstants.{SLOTS};
ghost use Rattle.places.specs.Contents.{at, leafy, Past, Idle, Deeper, Apart};

use crate::place::Place;

// How many slots a table has.
pub const SLOTS: usize = 4096;

// A unique table: as many places as its capacity says may be in use, of which the first two hold leaves.
// A whole array beside the capacity, free places too: a place keeps its number, and its record is lent to be filled, freed or counted.
#[derive(Clone, Copy)]
pub struct Places {
    pub(crate) capacity: u16,
    pub(crate) places: [Place; SLOTS],
    ghost least: { 2 ≤ capacity },
    ghost few: { capacity ≤ SLOTS },
    ghost whole: { length places ≡ SLOTS },
    ghost past: { Past capacity places },
    ghost idle: { Idle places },
    ghost deeper: { Deeper places },
    ghost apart: { Apart places },
    ghost zero: { leafy (at places 0) ≡ true },
    ghost one: { leafy (at places 1) ≡ true },
}
