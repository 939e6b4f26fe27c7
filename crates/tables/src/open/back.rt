ghost use Rattle.std.specs.Prelude.{◌≡◌};
ghost use Rattle.histories.specs.Stores.{Forgotten};
ghost use Rattle.places.specs.Tables.{kept};

use super::Open;
use kinds::Value;
use places::saved::Saved;
use stores::Store;

impl<K: Value, S: Store> Open<K, S> {
    // The places come back as they were saved, and the store forgets, since an entry might name a place that was filled and emptied again.
    pub(super) fn come_back(&mut self, saved: &Saved)
        ensures layout { self.new.layout ≡ self.old.layout }
        ensures places { self.new.places ≡ kept saved.now }
        ensures store { Forgotten (S.Store.entries self.new.store) }
    {
        self.places.undo(saved);
        self.store.forget();
    }
}
