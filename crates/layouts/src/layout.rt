ghost use Rattle.std.specs.Prelude.{◌≡◌, ℕ, ◌<◌};
ghost use Rattle.layouts.specs.Levels.{mark_on, level_of};

use crate::level::Level;

mod calls;

/// Which mark stands on each level, with which type. Levels and marks at or past the size stand for themselves.
#[derive(Clone, Copy, Debug, PartialEq, Eq)]
pub struct Layout {
    size: u8,
    // Whole arrays beside the size, and no ArrayVec: a layout is copied, and a level or a mark past the size stands for itself.
    /// What stands on each level.
    levels: [Level; 32],
    /// The level of each mark.
    places: [u8; 32],
    ghost some: { 0 < size },
    ghost most: { size < 33 },
    ghost marked: { (l : ℕ) → l < size → mark_on levels l < size },
    ghost levelled: { (i : ℕ) → i < size → level_of places i < size },
    ghost onto: { (l : ℕ) → level_of places (mark_on levels l) ≡ l },
    ghost back: { (i : ℕ) → mark_on levels (level_of places i) ≡ i },
}
