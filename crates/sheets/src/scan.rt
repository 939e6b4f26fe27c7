ghost use Rattle.std.specs.Prelude.{◌≡◌, ◌<◌, ◌≤◌, List, length, drop};
ghost use Rattle.diagrams.specs.Diagrams.{Diagram};
ghost use Rattle.diagrams.specs.Layouts.{Layout};
ghost use Rattle.sheets.specs.Held.{Listed};
ghost use Rattle.sheets.specs.Judged.{Types, Next};
ghost use Rattle.sheets.specs.Scanned.{Asks, Begun, At, Stepped, Scanned};

use crate::head::Expected;
use crate::record::Item;
use crate::records::Records;
use kinds::Value;
use refusals::SheetFault;

/// How far a sheet is read: up to a byte place, before which stand so many leaves and nodes. The list is the caller's, and longer: it is lent anew to each
/// step, so neither the count nor the sheet can keep it.
#[derive(Clone, Copy)]
pub struct Progress {
    pub place: usize,
    pub count: usize,
}

// What the record at a byte place holds, after those of the list, or the first of the rules 13 to 22 that it breaks.
fn next<V: Value>(
    bytes: &[u8],
    list: &[u32],
    expected: Expected<'_>,
    place: usize,
) -> Result<Item, SheetFault>
    requires read { (seen : List Diagram) × Listed bytes.now list.now seen }
    requires small { length expected.types.now < 256 }
    requires inside { place ≤ length bytes.now }
    ensures { (L : Layout) (seen : List Diagram) → Types L expected.entry.types.now → Listed bytes.now list.now seen → Next V.Value.kind L expected.entry.limit seen place bytes.now result }
{
    let item = Item::read(&bytes[place..], place, list.len())?;
    let records = Records::new(bytes, list);
    records
        .check_item::<V>(expected, item)
        .map_err(|refusal| refusal.at(place))?;
    Ok(item)
}

// One more record, its byte place put into the list; nothing at the end.
fn step<V: Value>(
    bytes: &[u8],
    expected: Expected<'_>,
    list: &mut [u32],
    reached: Progress,
) -> Result<Option<Progress>, SheetFault>
    requires reads { (L : Layout) × Asks V.Value.kind L expected × At V.Value.kind L expected.limit bytes.now reached.place reached.count list.old }
    requires room { expected.limit ≤ length list.old }
    ensures reads { (L : Layout) → Asks V.Value.kind L expected.entry → At V.Value.kind L expected.entry.limit bytes.now reached.place reached.count list.old → Stepped V.Value.kind L expected.entry.limit bytes.now reached.place reached.count list.new result }
    ensures past { drop expected.entry.limit list.new ≡ drop expected.entry.limit list.old }
{
    let seen = &list[..reached.count];
    let size = match next::<V>(bytes, seen, expected, reached.place)? {
        Item::Leaf(_) => 8,
        Item::Node { .. } => 9,
        Item::End(_) => return Ok(None),
    };
    list[reached.count] = reached.place as u32;
    Ok(Some(Progress {
        place: reached.place + size,
        count: reached.count + 1,
    }))
}

/// All records after the head, up to the end: the byte place of each into the list.
pub fn scan<V: Value>(
    bytes: &[u8],
    expected: Expected<'_>,
    list: &mut [u32],
) -> Result<Progress, SheetFault>
    requires reads { (L : Layout) × Asks V.Value.kind L expected × Begun V.Value.kind L bytes.now }
    requires room { expected.limit ≤ length list.old }
    ensures reads { (L : Layout) → Asks V.Value.kind L expected.entry → Begun V.Value.kind L bytes.now → Scanned V.Value.kind L expected.entry.limit bytes.now list.new result }
    ensures past { drop expected.entry.limit list.new ≡ drop expected.entry.limit list.old }
{
    let mut reached = Progress {
        place: expected.head.len(),
        count: 0,
    };
    while let Some(next) = step::<V>(bytes, expected, list, reached)? {
        reached = next;
    }
    Ok(reached)
}
