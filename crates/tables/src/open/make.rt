ghost use Rattle.std.specs.Prelude.{◌≡◌};
ghost use Rattle.diagrams.specs.Diagrams.{Lawful};
ghost use Rattle.histories.specs.Tables.{Made};
ghost use Rattle.histories.specs.Histories.{Sameness};
ghost use Rattle.layouts.specs.View.{view};
ghost use Rattle.tables.specs.Models.{open_model};

use super::Open;
use kinds::Value;
use layouts::{Capacity, Layout};
use places::places::Places;
use std::marker::PhantomData;
use stores::Store;

impl<K: Value, S: Store> Open<K, S> {
    /// Makes a table that holds zero and one, over a store that has forgotten. What is promised of every history of calls since a making is stated here.
    pub fn make(layout: Layout, capacity: Capacity, store: S) -> Open<K, S>
        ensures made { Made K.Value.kind (view layout) capacity.places (open_model S.Store.entries result) }
        ensures lawful { Lawful K.Value.kind (view layout) }
        ensures sameness { Sameness }
    {
        Self::start(layout, capacity, store)
    }

    // The first two places hold zero and one; what a lent list held before is forgotten.
    fn start(layout: Layout, capacity: Capacity, mut store: S) -> Open<K, S>
        ensures made { Made K.Value.kind (view layout) capacity.places (open_model S.Store.entries result) }
        ensures lawful { Lawful K.Value.kind (view layout) }
        ensures sameness { Sameness }
    {
        store.forget();
        let places = Places::fresh(capacity.get(), K::ZERO, K::ONE);
        Open {
            layout,
            places,
            store,
            kind: PhantomData,
        }
    }
}
