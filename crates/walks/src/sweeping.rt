ghost use Rattle.std.specs.Prelude.{◌≡◌, ◌≤◌, length, replicate};
ghost use Rattle.histories.specs.Steps.{wiped};
ghost use Rattle.walks.specs.Walks.{root, KeptMarked, Swept, Sweeping};

use crate::collecting::collect;
use crate::guard::{Cleared, clear};
use crate::order::Order;
use places::places::Places;
use refusals::Refusal;

// Whether a place is kept for itself: 0, 1, or one that is held.
fn is_root(places: &Places, place: u16) -> bool
    ensures { result ≡ root places.now place }
{
    place < 2 || places.count(place) > 0
}

// Marks what is reached from places 0 and 1 and from those that are held.
fn mark_kept(places: &Places, marks: &mut [u32])
    requires { places.now.capacity ≤ length marks.old }
    ensures { KeptMarked places.now marks.new }
{
    clear(marks, places.capacity() as usize);
    let mut order = Order::new();
    // By number: a handle is a place's number, and by it a place is a root and is walked from.
    for place in 0..places.capacity() {
        if is_root(places, place) {
            collect(places, place, marks, &mut order);
        }
    }
}

// Frees what is not kept, where the list is long enough, and answers how many places that were. The list is zero afterwards.
fn swept(places: &mut Places, marks: &mut [u32]) -> u32
    requires { places.old.capacity ≤ length marks.old }
    ensures answer { Swept places.old places.new result }
    ensures cleared { marks.new ≡ replicate (length marks.old) 0 }
{
    let walk = Cleared { list: marks };
    mark_kept(places, walk.list);
    u32::from(places.free_unmarked(walk.list))
}

/// Frees every place that is not reached from places 0, 1 or one that is held, and answers how many it freed.
pub fn sweep(places: &mut Places, walk: &mut [u32]) -> Result<u32, Refusal>
    ensures answer { Sweeping places.old places.new walk.old result }
    ensures list { walk.new ≡ wiped places.old.capacity walk.old }
{
    let capacity = places.capacity() as usize;
    if walk.len() < capacity {
        return Err(Refusal::WalkTooShort);
    }
    Ok(swept(places, &mut walk[..capacity]))
}
