ghost use Rattle.std.specs.Prelude.{◌≡◌, ◌<◌, ◌++◌, length};
ghost use Rattle.grading.specs.Frames.{pending};
ghost use Rattle.layouts.specs.Turns.{children};

use arrayvec::ArrayVec;
use layouts::Turn;

/// The places whose values are still to be added, the next one last. No more places come before one than its level says, so that 33
/// are enough.
pub type Frames = ArrayVec<u16, 33>;

/// Puts the children that a node adds on top, low before high.
pub fn open(frames: &mut Frames, turn: Turn, low: u16, high: u16)
    requires { length (pending frames.old) < 32 }
    ensures { pending frames.new ≡ children turn low high ++ pending frames.old }
{
    match turn {
        Turn::Low => frames.push(low),
        Turn::High => frames.push(high),
        Turn::Both => {
            frames.push(high);
            frames.push(low);
        }
    }
}
