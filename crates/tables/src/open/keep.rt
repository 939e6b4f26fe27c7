ghost use Rattle.std.specs.Prelude.{◌≡◌, []};
ghost use Rattle.histories.specs.Requests.{Call.hold as Hold, Call.let_go as LetGo, Call.sweep as Sweep};
ghost use Rattle.histories.specs.Steps.{wiped};
ghost use Rattle.tables.specs.Models.{OpenStep, OpenTakes, asked, answered};
ghost use Rattle.tables.specs.Sweeping.{Cleaned};

use super::Open;
use crate::checks::live;
use kinds::Value;
use refusals::Refusal;
use stores::Store;
use walks::sweep;

impl<K: Value, S: Store> Open<K, S> {
    /// Holds a handle once more, so that sweeps keep its rule, and answers how often it is held now. A handle that is not live is refused, and
    /// one that is held 65,535 times.
    pub fn hold(&mut self, handle: u32) -> Result<u32, Refusal>
        ensures { OpenStep K.Value.kind S.Store.entries self.old (Hold handle) result self.new }
    {
        self.hold_live(handle)
    }

    /// Lets a handle go once, and answers how often it is held now. A handle that is not live is refused, and one that is not held.
    pub fn let_go(&mut self, handle: u32) -> Result<u32, Refusal>
        ensures { OpenStep K.Value.kind S.Store.entries self.old (LetGo handle) result self.new }
    {
        self.let_go_live(handle)
    }

    /// Frees every place that is reached neither from zero or one nor from a held handle, makes the store forget, and answers how many places
    /// it freed. A walk list with fewer entries than the table has places is refused, and stays; of a longer list the first entries, one for
    /// each place, are zero afterwards.
    pub fn sweep(&mut self, walk: &mut [u32]) -> Result<u32, Refusal>
        ensures { OpenTakes K.Value.kind S.Store.entries self.old (asked Sweep walk.old []) (answered result walk.new []) self.new }
    {
        self.free_unreached(walk)
    }

    // A handle that is not live is refused first.
    fn hold_live(&mut self, handle: u32) -> Result<u32, Refusal>
        ensures { OpenStep K.Value.kind S.Store.entries self.old (Hold handle) result self.new }
    {
        let place = live(&self.places, handle)?;
        let count = self.places.hold(place).ok_or(Refusal::HoldLimit)?;
        Ok(u32::from(count))
    }

    // A handle that is not live is refused first.
    fn let_go_live(&mut self, handle: u32) -> Result<u32, Refusal>
        ensures { OpenStep K.Value.kind S.Store.entries self.old (LetGo handle) result self.new }
    {
        let place = live(&self.places, handle)?;
        let count = self.places.let_go(place).ok_or(Refusal::NotHeld)?;
        Ok(u32::from(count))
    }

    // A sweep of the places, and of the store with them.
    fn free_unreached(&mut self, walk: &mut [u32]) -> Result<u32, Refusal>
        ensures { OpenTakes K.Value.kind S.Store.entries self.old (asked Sweep walk.old []) (answered result walk.new []) self.new }
    {
        self.clean(walk)
    }

    // The store forgets, since an entry might name a place that was freed.
    fn clean(&mut self, walk: &mut [u32]) -> Result<u32, Refusal>
        ensures table { Cleaned S.Store.entries self.old self.new walk.old result }
        ensures list { walk.new ≡ wiped self.old.places.capacity walk.old }
    {
        let freed = sweep(&mut self.places, walk)?;
        self.store.forget();
        Ok(freed)
    }
}
