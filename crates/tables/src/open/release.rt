ghost use Rattle.std.specs.Prelude.{◌≡◌};
ghost use Rattle.histories.specs.Requests.{Call.release as Release, Reply.done as Done};
ghost use Rattle.histories.specs.Histories.{Kept};
ghost use Rattle.tables.specs.Models.{open_model, released_model, plain, replies};

use super::Open;
use crate::released::Released;
use kinds::Value;
use stores::Store;

impl<K: Value, S: Store> Open<K, S> {
    /// Releases the table for grading.
    pub fn release(self) -> Released<K, S>
        ensures { Kept K.Value.kind (open_model S.Store.entries self) (plain Release) (replies Done) (released_model S.Store.entries result) }
    {
        Released {
            layout: self.layout,
            places: self.places,
            store: self.store,
            kind: self.kind,
        }
    }
}
