ghost use Rattle.std.specs.Prelude.{◌<◌, ◌≤◌, length, MatchResult};
ghost use Rattle.diagrams.specs.Sizes.{Distinct};
ghost use Rattle.diagrams.proofs.Numbering.{Keeps, Strays};

use crate::record::Item;
use crate::records::Records;

/// The number of the first record that writing would give another.
#[derive(Clone, Copy)]
pub struct Stray {
    pub number: u16,
}

impl Records<'_> {
    // Visits record i as writing does, children first, when the first `next` records have their numbers: how many have them then. What is below `next` was
    // visited before, and a record that writing comes to has to be the next; so no marks are needed.
    pub fn visit(&self, i: u16, next: u16) -> Result<u16, Stray>
        requires { (i < length self.now) × (next ≤ length self.now) }
        ensures { Distinct self.now → MatchResult result (λ n. Keeps self.now i next n) (λ s. Strays self.now i next s.number) }
    {
        if i < next {
            return Ok(next);
        }
        let mut after = next;
        if let Item::Node { low, high, .. } = self.item(i as usize) {
            after = self.visit(low, after)?;
            after = self.visit(high, after)?;
        }
        if i == after {
            Ok(after + 1)
        } else {
            Err(Stray { number: after })
        }
    }
}
