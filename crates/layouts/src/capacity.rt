ghost use Rattle.std.specs.Prelude.{◌≤◌};

mod calls;

/// How many places a table has: a number from 2 to 4,096.
#[derive(Clone, Copy, Debug, PartialEq, Eq)]
pub struct Capacity {
    places: u16,
    ghost least: { 2 ≤ places },
    ghost most: { places ≤ 4096 },
}
