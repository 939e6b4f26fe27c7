ghost use Rattle.std.specs.Prelude.{◌≤◌};

mod calls;

pub use calls::head_of;

/// What the head record of a sheet holds, without the length and the kind that begin it. It takes two bytes, and two for each of at most 32 levels.
// An array and a count, and no ArrayVec: a head is copied.
#[derive(Clone, Copy)]
pub struct Head {
    body: [u8; 66],
    count: usize,
    ghost few: { count ≤ 66 },
}
