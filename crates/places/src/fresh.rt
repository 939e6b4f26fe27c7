ghost use Rattle.std.specs.Prelude.{◌≡◌, ℕ, ◌≤◌, ◌≢◌};
ghost use Rattle.places.specs.Contents.{Starting};
ghost use Rattle.places.specs.Tables.{Fresh};

use crate::place::{Content, Place};
use crate::places::{Places, SLOTS};

// Places of which the first two hold leaves.
fn starting<const N: usize>(zero: u32, one: u32) -> [Place; N]
    requires { 2 ≤ N }
    ensures { Starting result zero one }
{
    let mut places = [Place {
        content: Content::Free,
        count: 0,
    }; N];
    places[0].fill(Content::Leaf(zero));
    places[1].fill(Content::Leaf(one));
    places
}

impl Places {
    // A table that holds two leaves and nothing else.
    pub fn fresh(capacity: u16, zero: u32, one: u32) -> Places
        requires least { 2 ≤ capacity }
        requires most { capacity ≤ SLOTS }
        requires apart { zero ≢ one }
        ensures { Fresh result capacity zero one }
    {
        let places = starting(zero, one);
        Places { capacity, places }
    }
}
