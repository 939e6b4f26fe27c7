ghost use Rattle.std.specs.Prelude.{◌≤◌, List, length};
ghost use Rattle.diagrams.specs.Diagrams.{Diagram};
ghost use Rattle.places.specs.Tables.{Used};
ghost use Rattle.walks.specs.Orders.{collected};
ghost use Rattle.walks.specs.Walks.{Collected, Walked};

use crate::order::Order;
use places::place::Content;
use places::places::Places;

/// Comes to every place that is reached from a place and was not come to before, children before parents, low before high. The mark of such a place
/// is its number in the order and one.
// Marks and order are no struct: the marks are lent, so each clause on it would also say that it still holds the same list, and that they are enough is a
// fact about the places too.
pub fn collect(places: &Places, place: u16, marks: &mut [u32], order: &mut Order)
    requires used { Used places.now place }
    requires room { places.now.capacity ≤ length marks.old }
    requires begun { (seen : List Diagram) × Collected places.now marks.old (collected order.old) seen }
    ensures { Walked places.now place marks.old (collected order.old) marks.new (collected order.new) }
{
    if marks[place as usize] > 0 {
        return;
    }
    if let Content::Node { low, high, .. } = places.content(place) {
        collect(places, low, marks, order);
        collect(places, high, marks, order);
    }
    order.push(place);
    marks[place as usize] = order.len() as u32;
}
