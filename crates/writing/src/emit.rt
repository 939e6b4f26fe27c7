ghost use Rattle.std.specs.Prelude.{◌≡◌, ◌+◌, ◌-◌, ◌≤◌, [], length, slice_index};
ghost use Rattle.std.proofs.lemmas.List.Edits.{sets};
ghost use Rattle.diagrams.specs.Diagrams.{Diagram};
ghost use Rattle.diagrams.specs.Sheets.{visited};
ghost use Rattle.places.specs.Tables.{holds};
ghost use Rattle.walks.specs.Orders.{collected};
ghost use Rattle.walks.specs.Walks.{Collected};
ghost use Rattle.writing.specs.Records.{Numbered, Ready, entry, body};

use places::place::Content;
use places::places::Places;
use sheets::put::{put_leaf, put_node};
use walks::Order;

// The number of a place that has a mark.
fn number(marks: &[u32], place: u16) -> u16
    requires { Numbered marks.now place }
    ensures { result ≡ slice_index marks.now place - 1 }
{
    (marks[place as usize] - 1) as u16
}

// The record of a place.
fn put_record(places: &Places, marks: &[u32], place: u16, out: &mut [u8], at: usize) -> usize
    requires ready { Ready marks.now (holds places.now place) }
    requires room { at + length (entry marks.now (holds places.now place)) ≤ length out.old }
    ensures bytes { out.new ≡ sets out.old at (entry marks.now (holds places.now place)) }
    ensures after { result ≡ at + length (entry marks.now (holds places.now place)) }
{
    match places.content(place) {
        Content::Leaf(word) => put_leaf(out, at, word),
        Content::Node { level, low, high } => {
            put_node(out, at, level, number(marks, low), number(marks, high))
        }
        Content::Free => at,
    }
}

/// The records of the places that a walk from a place came to.
pub fn put_records(
    places: &Places,
    marks: &[u32],
    order: &Order,
    out: &mut [u8],
    start: usize,
) -> usize
    requires { (d : Diagram) × Collected places.now marks.now (collected order.now) (visited d []) × (start + length (body d) ≤ length out.old) }
    ensures bytes { (d : Diagram) → Collected places.now marks.now (collected order.now) (visited d []) → out.new ≡ sets out.old start (body d) }
    ensures after { (d : Diagram) → Collected places.now marks.now (collected order.now) (visited d []) → result ≡ start + length (body d) }
{
    let mut at = start;
    for place in order.as_slice() {
        at = put_record(places, marks, *place, out, at);
    }
    at
}
