ghost use Rattle.std.specs.Prelude.{◌≡◌};
ghost use Rattle.histories.specs.Requests.{Call.reopen as Reopen, Reply.done as Done};
ghost use Rattle.histories.specs.Histories.{Kept};
ghost use Rattle.tables.specs.Models.{open_model, released_model, plain, replies};

use super::Released;
use crate::open::Open;
use kinds::Value;
use stores::Store;

impl<K: Value, S: Store> Released<K, S> {
    /// Opens the table again for building.
    pub fn reopen(self) -> Open<K, S>
        ensures { Kept K.Value.kind (released_model S.Store.entries self) (plain Reopen) (replies Done) (open_model S.Store.entries result) }
    {
        Open {
            layout: self.layout,
            places: self.places,
            store: self.store,
            kind: self.kind,
        }
    }
}
