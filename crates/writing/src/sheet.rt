ghost use Rattle.std.specs.Prelude.{◌≡◌, ℕ, ◌+◌, ◌*◌, ◌≤◌, List, [], length, replicate};
ghost use Rattle.std.proofs.lemmas.List.Edits.{sets};
ghost use Rattle.diagrams.specs.Diagrams.{Diagram};
ghost use Rattle.diagrams.specs.Sheets.{visited};
ghost use Rattle.histories.specs.Steps.{wiped};
ghost use Rattle.layouts.specs.View.{view};
ghost use Rattle.walks.specs.Orders.{collected};
ghost use Rattle.walks.specs.Walks.{Collected};
ghost use Rattle.writing.specs.Heads.{head_bytes};
ghost use Rattle.writing.specs.Records.{under_head};
ghost use Rattle.writing.specs.Writes.{Written};

use crate::emit::put_records;
use crate::head::{Head, head_of};
use kinds::Value;
use layouts::Layout;
use places::places::{Places, SLOTS};
use refusals::Refusal;
use sheets::put::{put_end, put_head};
use walks::{Cleared, Order, nodes, reach, unwalked};

// How long a sheet is: twelve bytes and two for each level, eight for each leaf or node, and one more for each node.
fn measure(levels: u8, records: usize, nodes: u32) -> u32
    requires few { records ≤ SLOTS }
    requires within { nodes ≤ records }
    ensures { result ≡ 12 + 2 * levels + 8 * records + nodes }
{
    12 + 2 * u32::from(levels) + 8 * records as u32 + nodes
}

// Puts the head, the records of a walk's places and the end.
#[tactic(auto, using(crate::proofs::Measuring::parts_length))]
fn put_sheet(places: &Places, marks: &[u32], order: &Order, head: &Head, out: &mut [u8])
    requires { (d : Diagram) × Collected places.now marks.now (collected order.now) (visited d []) × (length (under_head (head_bytes head.now) d) ≤ length out.old) }
    ensures { (d : Diagram) → Collected places.now marks.now (collected order.now) (visited d []) → out.new ≡ sets out.old 0 (under_head (head_bytes head.now) d) }
{
    let after_head = put_head(out, 0, head.as_slice());
    let after_records = put_records(places, marks, order, out, after_head);
    put_end(out, after_records, order.len() as u16);
}

// Writes the sheet of a handle's rule, where the walk list is long enough. The list is zero afterwards.
fn written<K: Value>(
    places: &Places,
    layout: &Layout,
    handle: u32,
    marks: &mut [u32],
    output: &mut [u8],
) -> Result<u32, Refusal>
    requires { places.now.capacity ≤ length marks.old }
    ensures answer { (walk : List ℕ) → places.now.capacity ≤ length walk → Written K.Value.kind (view layout.now) places.now handle walk output.old output.new result }
    ensures cleared { marks.new ≡ replicate (length marks.old) 0 }
{
    let walk = Cleared { list: marks };
    let place = places.live(handle).ok_or(Refusal::NotLive)?;
    let order = reach(places, place, walk.list);
    let needed = measure(layout.size(), order.len(), nodes(places, &order));
    if output.len() < needed as usize {
        return Err(Refusal::OutputTooShort);
    }
    put_sheet(places, walk.list, &order, &head_of::<K>(layout), output);
    Ok(needed)
}

/// Writes the sheet of a handle's rule into the output, and answers the sheet's length.
// The places and the layout come apart, since a table lends them apart from its store.
pub fn write<K: Value>(
    places: &Places,
    layout: &Layout,
    handle: u32,
    walk: &mut [u32],
    output: &mut [u8],
) -> Result<u32, Refusal>
    ensures answer { Written K.Value.kind (view layout.now) places.now handle walk.old output.old output.new result }
    ensures list { walk.new ≡ wiped places.now.capacity walk.old }
{
    let capacity = places.capacity() as usize;
    if walk.len() < capacity {
        return Err(unwalked(places, handle));
    }
    written::<K>(places, layout, handle, &mut walk[..capacity], output)
}
