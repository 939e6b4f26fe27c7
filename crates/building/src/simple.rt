ghost use Rattle.std.specs.Prelude.{◌≡◌, ℕ, ◌<◌};
ghost use Rattle.diagrams.specs.Kinds.{Kind};
ghost use Rattle.diagrams.specs.Layouts.{Layout as Plan};
ghost use Rattle.diagrams.specs.Tasks.{Task.constant as Constant, Task.mark as Mark};
ghost use Rattle.diagrams.specs.Building.{mark_low, mark_high};
ghost use Rattle.layouts.specs.Forms.{decomposition};
ghost use Rattle.layouts.specs.View.{view};
ghost use Rattle.building.specs.Work.{Works};

use kinds::Value;
use layouts::{Form, Layout};
use places::places::Places;

// The leaf of a value, of whatever kind.
pub fn constant(places: &mut Places, word: u32) -> Option<u16>
    ensures { (K : Kind) (L : Plan) → Works K L (Constant word) places.old places.new result }
{
    places.leaf(word)
}

// The words of a mark's two leaves, low first, on a level of that type.
fn leaf_words<K: Value>(form: Form) -> (u32, u32)
    ensures low { result.0 ≡ mark_low K.Value.kind (decomposition form) }
    ensures high { result.1 ≡ mark_high K.Value.kind (decomposition form) }
{
    match form {
        Form::Shannon | Form::PositiveDavio => (K::ZERO, K::ONE),
        Form::NegativeDavio => (K::ONE, K::difference(K::ZERO, K::ONE)),
    }
}

// The node of a mark, with its two leaves.
pub fn mark<K: Value>(places: &mut Places, layout: &Layout, index: u8) -> Option<u16>
    requires { index < (view layout.now).size }
    ensures { Works K.Value.kind (view layout.now) (Mark index) places.old places.new result }
{
    let level = layout.level(index);
    let (low, high) = leaf_words::<K>(layout.form(level));
    let low = places.leaf(low)?;
    let high = places.leaf(high)?;
    places.node(level, low, high)
}
