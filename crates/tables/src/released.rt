use kinds::Value;
use layouts::Layout;
use places::places::Places;
use std::marker::PhantomData;
use stores::Store;

mod grade;
mod look;
mod reopen;

// The fields of an open table in a type of its own, since a call that a table does not take in its phase cannot be written. One type with a phase as
// its parameter was tried: each call and its proof is then named by the type's parameters (`Open+K+S`), which is no plainer.
/// A table by which fruit is graded; no rule is built on it.
#[derive(Drop)]
pub struct Released<K: Value, S: Store> {
    pub(crate) layout: Layout,
    pub(crate) places: Places,
    pub(crate) store: S,
    pub(crate) kind: PhantomData<K>,
}
