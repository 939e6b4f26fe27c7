// A store that keeps the last offer only.
ghost use Rattle.histories.specs.Stores.{Offered, Forgotten};
ghost use Rattle.stores.specs.Keys.{key_of};
ghost use Rattle.stores.specs.Kept.{SameAnswers, last_entries, only};

use crate::{Entry, Key, Store};

#[derive(Drop)]
pub struct Last {
    newest: Option<Entry>,
}

impl Last {
    // A store with no entries.
    pub fn new() -> Last
        ensures { Forgotten (last_entries result) }
    {
        Last { newest: None }
    }
}

impl Store for Last {
    ghost entries = { last_entries };

    fn ask(&self, key: Key) -> Option<u16> {
        self.newest?.answer_to(key)
    }

    fn offer(&mut self, key: Key, answer: u16)
        ensures offered { Offered (last_entries self.old) (last_entries self.new) (key_of key) answer }
        ensures kept { SameAnswers (last_entries self.new) (only (key_of key) answer) }
    {
        self.newest = Some(Entry { key, answer });
    }

    fn forget(&mut self) {
        self.newest = None;
    }
}
