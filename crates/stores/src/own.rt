// A store with 256 entries of its own, each written over the slot of its key.
ghost use Rattle.histories.specs.Stores.{Offered, Forgotten};
ghost use Rattle.stores.specs.Keys.{key_of};
ghost use Rattle.stores.specs.Kept.{SameAnswers, in_slots, own_entries, written};

use crate::{Entry, Key, Store, slots};

#[derive(Drop)]
pub struct Own {
    list: [Option<Entry>; 256],
}

impl Own {
    // A store with no entries.
    pub fn new() -> Own
        ensures { Forgotten (own_entries result) }
    {
        Own {
            list: slots::empty(),
        }
    }
}

impl Store for Own {
    ghost entries = { own_entries };

    fn ask(&self, key: Key) -> Option<u16> {
        slots::find(&self.list, key)
    }

    fn offer(&mut self, key: Key, answer: u16)
        ensures offered { Offered (own_entries self.old) (own_entries self.new) (key_of key) answer }
        ensures kept { SameAnswers (own_entries self.new) (written 256 (key_of key) answer (own_entries self.old)) }
    {
        slots::write(&mut self.list, Entry { key, answer });
    }

    fn forget(&mut self) {
        self.list.fill(None);
    }
}
