ghost use Rattle.std.specs.Prelude.{◌≡◌, ◌≤◌, length};
ghost use Rattle.places.specs.Tables.{Used};
ghost use Rattle.places.specs.Keeping.{Holding, LettingGo, Keeps, Freed, loose, swept, Swept};

use crate::place::Place;
use crate::places::{Places, SLOTS};

impl Place {
    // Frees it if it is in use and has no mark, and answers whether it did.
    fn sweep(&mut self, mark: u32) -> bool
        ensures told { result ≡ loose self.old mark }
        ensures swept { self.new ≡ swept self.old mark }
    {
        let loose = mark == 0 && self.is_used();
        if loose {
            self.free();
        }
        loose
    }
}

// Frees every slot whose mark is 0, and answers how many were in use; slots past the marks stay.
// A node may lose a child before it is freed itself, so this works on the slots and not on a table.
// By number: of what is written through `iter_mut().zip(marks)` a proof knows nothing afterwards.
#[tactic(auto, using(diagrams::proofs::Tallies::tally_none))]
fn sweep(slots: &mut [Place; SLOTS], marks: &[u32]) -> u16
    requires { length marks.now ≤ SLOTS }
    ensures { Swept slots.old slots.new marks.now result }
{
    let mut freed = 0;
    for (h, mark) in marks.iter().enumerate() {
        freed += u16::from(slots[h].sweep(*mark));
    }
    freed
}

impl Places {
    // One hold more of a place in use, unless its count is at the limit.
    pub fn hold(&mut self, h: u16) -> Option<u16>
        requires { Used self.old h }
        ensures { Holding self.old self.new h result }
    {
        self.places[usize::from(h)].hold()
    }

    // One hold less of a place in use, unless it is not held.
    pub fn let_go(&mut self, h: u16) -> Option<u16>
        requires { Used self.old h }
        ensures { LettingGo self.old self.new h result }
    {
        self.places[usize::from(h)].let_go()
    }

    // Frees every place that has no mark, and answers how many were in use.
    pub fn free_unmarked(&mut self, marks: &[u32]) -> u16
        requires room { self.old.capacity ≤ length marks.now }
        requires keeps { Keeps self.old marks.now }
        ensures { Freed self.old self.new marks.now result }
    {
        sweep(&mut self.places, &marks[..usize::from(self.capacity)])
    }
}
