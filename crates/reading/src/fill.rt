ghost use Rattle.std.specs.Prelude.{◌≡◌, List, length};
ghost use Rattle.diagrams.specs.Diagrams.{Diagram};
ghost use Rattle.diagrams.specs.Kinds.{Kind};
ghost use Rattle.diagrams.specs.Layouts.{Layout as Plan};
ghost use Rattle.places.specs.Tables.{Filling};
ghost use Rattle.reading.specs.Placing.{content_of, Placeable, Ready, FillsUp, Inside};

use places::places::Places;
use sheets::{Item, item};
use walks::Order;

/// A record of a sheet found the table full: its number, counted from 0.
#[derive(Clone, Copy)]
pub struct NoRoom {
    pub number: usize,
}

// Gives a record its place, where `handles` has those of the records before it. An end has none, and is not asked for one.
fn place(places: &mut Places, handles: &[u16], item: Item) -> Option<u16>
    requires { Placeable places.old handles.now item }
    ensures { Filling places.old places.new (content_of handles.now item) result }
{
    match item {
        Item::Leaf(word) => places.leaf(word),
        Item::Node { level, low, high } => places.node(
            level,
            handles[low as usize],
            handles[high as usize],
        ),
        Item::End(_) => None,
    }
}

/// Gives the records of a sheet their places, in turn: the handle of the last, or the first that finds the table full. The list has the byte places of the
/// records, and no more.
pub fn fill(places: &mut Places, bytes: &[u8], records: &[u32]) -> Result<u16, NoRoom>
    requires { (K : Kind) × (L : Plan) × (seen : List Diagram) × Ready K L bytes.now records.now seen × (length records.now ≡ length seen) }
    ensures filled { (K : Kind) (L : Plan) (seen : List Diagram) → Ready K L bytes.now records.now seen → length records.now ≡ length seen → FillsUp K L seen places.old places.new result }
    ensures inside { Inside (length records.now) result }
{
    let mut order = Order::new();
    // By its number, since that is how a record is asked for and how a refusal names it.
    for number in 0..records.len() {
        let given = place(places, order.as_slice(), item(bytes, records, number));
        let handle = given.ok_or(NoRoom { number })?;
        order.push(handle);
    }
    Ok(order.as_slice()[records.len() - 1])
}
