// Stores of computed results: what may be asked of one, and three that serve, in `last`, `own` and `lent`.
#![tactic(auto)]

ghost use Rattle.std.specs.Prelude.{◌≡◌};
ghost use Rattle.histories.specs.Stores.{Entries, Offered, Forgotten};
ghost use Rattle.stores.specs.Keys.{key_of};
ghost use Rattle.stores.specs.Kept.{only, hash};

pub mod last;
pub mod lent;
pub mod own;
mod slots;

// An operation whose results are stored.
#[derive(Clone, Copy, PartialEq, Eq)]
pub enum Operation {
    Sum = 0,
    Difference = 1,
    Product = 2,
    Restrict = 3,
}

// What an entry is found by. A restriction's right is 2 × mark + constant.
#[derive(Clone, Copy, PartialEq, Eq)]
pub struct Key {
    pub operation: Operation,
    pub left: u16,
    pub right: u16,
}

impl Key {
    // Both factors are odd, so that of 256 slots left alone, or right alone, reaches each.
    // No derived Hash: what a store keeps is promised slot by slot, and std promises no derived hash's number.
    fn hash(self) -> usize
        ensures { result ≡ hash (key_of self) }
    {
        self.operation as usize + 31 * usize::from(self.left) + 7 * usize::from(self.right)
    }
}

// A computed result with its key.
#[derive(Clone, Copy)]
pub struct Entry {
    pub key: Key,
    pub answer: u16,
}

impl Entry {
    // Whole keys are compared, since keys of one slot may differ in any part.
    fn answer_to(self, key: Key) -> Option<u16>
        ensures { result ≡ only (key_of self.key) self.answer (key_of key) }
    {
        (key == self.key).then_some(self.answer)
    }
}

// A store of computed results, as a set of entries with at most one for each key.
pub trait Store {
    ghost entries: { Self → Entries };

    fn ask(&self, key: Key) -> Option<u16>
        ensures { result ≡ entries self.now (key_of key) };

    fn offer(&mut self, key: Key, answer: u16)
        ensures { Offered (entries self.old) (entries self.new) (key_of key) answer };

    fn forget(&mut self)
        ensures { Forgotten (entries self.new) };
}
