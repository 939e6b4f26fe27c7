ghost use Rattle.std.specs.Prelude.{◌≡◌, ◌≤◌, ◌++◌, length};
ghost use Rattle.diagrams.specs.Diagrams.{Diagram, rule, Good};
ghost use Rattle.diagrams.specs.Places.{Stands};
ghost use Rattle.places.specs.Contents.{depth};
ghost use Rattle.places.specs.Tables.{holds};
ghost use Rattle.layouts.specs.View.{view};
ghost use Rattle.grading.specs.Frames.{pending};
ghost use Rattle.grading.specs.Turns.{worth, opened};

use crate::frames::{Frames, open};
use kinds::Value;
use layouts::{Layout, has_mark};
use places::place::Content;
use places::places::Places;

// What a place adds at once: a leaf its word, a node zero. The children whose values a node adds are put on top of the frames.
// Places and layout come apart, as a table lends them, from its store.
fn visit<K: Value>(
    frames: &mut Frames,
    places: &Places,
    layout: &Layout,
    place: u16,
    fruit: u32,
) -> u32
    requires { length (pending frames.old) ≤ depth (holds places.now place) }
    ensures gives { result ≡ worth K.Value.kind (holds places.now place) }
    ensures opens { pending frames.new ≡ opened (view layout.now) fruit (holds places.now place) ++ pending frames.old }
{
    match places.content(place) {
        Content::Leaf(word) => word,
        Content::Node { level, low, high } => {
            let marked = has_mark(fruit, layout.mark(level));
            let turn = layout.form(level).turn(marked);
            open(frames, turn, low, high);
            K::ZERO
        }
        // A free place has no rule.
        Content::Free => K::ZERO,
    }
}

/// The value of a handle's rule for a fruit.
pub fn grade<K: Value>(places: &Places, layout: &Layout, handle: u16, fruit: u32) -> u32
    ensures { (d : Diagram) → Stands (holds places.now) d handle → Good K.Value.kind (view layout.now) 0 d → result ≡ rule K.Value.kind (view layout.now) d fruit }
{
    let mut frames = Frames::new();
    frames.push(handle);
    let mut total = K::ZERO;
    while let Some(place) = frames.pop() {
        total = K::sum(total, visit::<K>(&mut frames, places, layout, place, fruit));
    }
    total
}
