use kinds::Value;
use layouts::Layout;
use places::places::Places;
use std::marker::PhantomData;
use stores::Store;

mod back;
mod build;
mod keep;
mod look;
mod make;
mod read;
mod release;

/// A table on which rules are built.
#[derive(Drop)]
pub struct Open<K: Value, S: Store> {
    pub(crate) layout: Layout,
    pub(crate) places: Places,
    pub(crate) store: S,
    pub(crate) kind: PhantomData<K>,
}
