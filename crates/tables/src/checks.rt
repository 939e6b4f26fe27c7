// What calls look at before they do anything.
ghost use Rattle.std.specs.Prelude.{◌≡◌, ◌<◌, ◌≤◌, MatchResult};
ghost use Rattle.std.specs.Int.{from_bool};
ghost use Rattle.layouts.specs.View.{view};
ghost use Rattle.places.specs.Tables.{Used};
ghost use Rattle.refusals.specs.declared.refusal.Refusal.TheVariants.{NotLive, NoSuchMark, NotAConstant};

use layouts::Layout;
use places::places::Places;
use refusals::Refusal;

// The place of a handle, which is refused where it is not live.
pub(crate) fn live(places: &Places, handle: u32) -> Result<u16, Refusal>
    ensures { MatchResult result (λ place. (place ≡ handle) × Used places.now handle) (λ e. (e ≡ NotLive) × (Used places.now handle → ⊥)) }
{
    places.live(handle).ok_or(Refusal::NotLive)
}

// A mark of the layout; one that the layout lacks is refused.
pub(crate) fn known_mark(layout: &Layout, index: u32) -> Result<u8, Refusal>
    ensures { MatchResult result (λ mark. (mark ≡ index) × (index < (view layout.now).size)) (λ e. (e ≡ NoSuchMark) × ((view layout.now).size ≤ index)) }
{
    match u8::try_from(index) {
        Ok(mark) if mark < layout.size() => Ok(mark),
        _ => Err(Refusal::NoSuchMark),
    }
}

// Whether a constant is 1 and not 0; any other number is refused.
pub(crate) fn known_constant(constant: u32) -> Result<bool, Refusal>
    ensures { MatchResult result (λ one. (from_bool one ≡ constant) × (constant < 2)) (λ e. (e ≡ NotAConstant) × (2 ≤ constant)) }
{
    match constant {
        0 => Ok(false),
        1 => Ok(true),
        _ => Err(Refusal::NotAConstant),
    }
}
