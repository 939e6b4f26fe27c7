// A table that is to be made.
use journal::{KindName, StoreName};
use layouts::{Capacity, Layout};

#[derive(Clone, Copy)]
pub struct Order {
    pub layout: Layout,
    pub kind: KindName,
    pub capacity: Capacity,
    pub store: StoreName,
}
