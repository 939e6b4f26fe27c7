ghost use Rattle.std.specs.Prelude.{◌≡◌, ℕ, ◌≤◌, List, [], length, drop, replicate};
ghost use Rattle.diagrams.specs.Diagrams.{Diagram};
ghost use Rattle.diagrams.specs.Sheets.{visited};
ghost use Rattle.diagrams.specs.Places.{Stands};
ghost use Rattle.histories.specs.Steps.{wiped};
ghost use Rattle.places.specs.Tables.{holds, Used};
ghost use Rattle.walks.specs.Orders.{collected};
ghost use Rattle.walks.specs.Walks.{Collected, is_node, node_count, Sized, Unwalked};

use crate::collecting::collect;
use crate::guard::{Cleared, clear};
use crate::order::Order;
use places::place::Content;
use places::places::Places;
use refusals::Refusal;

/// All that is reached from a place, in order, with its numbers as marks.
pub fn reach(places: &Places, place: u16, marks: &mut [u32]) -> Order
    requires used { Used places.now place }
    requires room { places.now.capacity ≤ length marks.old }
    ensures walked { (d : Diagram) → Stands (holds places.now) d place → Collected places.now marks.new (collected result) (visited d []) }
    ensures past { drop places.now.capacity marks.new ≡ drop places.now.capacity marks.old }
{
    clear(marks, places.capacity() as usize);
    let mut order = Order::new();
    collect(places, place, marks, &mut order);
    order
}

// Whether a place holds a node.
fn holds_node(places: &Places, place: u16) -> bool
    ensures { result ≡ is_node (holds places.now place) }
{
    matches!(places.content(place), Content::Node { .. })
}

/// How many of the places of an order hold nodes.
pub fn nodes(places: &Places, order: &Order) -> u32
    ensures { result ≡ node_count (holds places.now) (collected order.now) }
{
    order
        .as_slice()
        .iter()
        .filter(|place| holds_node(places, **place))
        .count() as u32
}

/// Why a walk from a handle is refused where the walk list is too short: the handle is looked at first.
pub fn unwalked(places: &Places, handle: u32) -> Refusal
    ensures { Unwalked places.now handle result }
{
    match places.live(handle) {
        None => Refusal::NotLive,
        Some(_) => Refusal::WalkTooShort,
    }
}

// The size of a handle, where the list is long enough. The list is zero afterwards.
fn sized(places: &Places, handle: u32, marks: &mut [u32]) -> Result<u32, Refusal>
    requires { places.now.capacity ≤ length marks.old }
    ensures answer { (walk : List ℕ) → places.now.capacity ≤ length walk → Sized places.now handle walk result }
    ensures cleared { marks.new ≡ replicate (length marks.old) 0 }
{
    let walk = Cleared { list: marks };
    let place = places.live(handle).ok_or(Refusal::NotLive)?;
    let order = reach(places, place, walk.list);
    Ok(nodes(places, &order))
}

/// How many nodes are reached from a handle.
pub fn size(places: &Places, handle: u32, walk: &mut [u32]) -> Result<u32, Refusal>
    ensures answer { Sized places.now handle walk.old result }
    ensures list { walk.new ≡ wiped places.now.capacity walk.old }
{
    let capacity = places.capacity() as usize;
    if walk.len() < capacity {
        return Err(unwalked(places, handle));
    }
    sized(places, handle, &mut walk[..capacity])
}
