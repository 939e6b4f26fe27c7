// A store over a list of records that the caller brings. The newest offer stands in the store itself, so an empty list
// serves too; the offer before it is spilled to its slot of the list.
ghost use Rattle.std.specs.Prelude.{◌≡◌, None};
ghost use Rattle.histories.specs.Stores.{Offered, Forgotten};
ghost use Rattle.stores.specs.Keys.{key_of};
ghost use Rattle.stores.specs.Kept.{SameAnswers, Renewed, in_slots, lent_entries, size};

use crate::{Entry, Key, Store, slots};

#[derive(Drop)]
pub struct Lent<'a> {
    list: &'a mut [Option<Entry>],
    newest: Option<Entry>,
}

impl<'a> Lent<'a> {
    // A store over a list as it is: until it is made to forget, it answers what the list holds.
    pub fn over(list: &'a mut [Option<Entry>]) -> Lent<'a>
        ensures lent { result.list ≡ list.entry }
        ensures fresh { result.newest ≡ None }
        ensures made { SameAnswers (lent_entries result) (in_slots list.old) }
    {
        Lent { list, newest: None }
    }
}

impl<'a> Store for Lent<'a> {
    ghost entries = { lent_entries };

    fn ask(&self, key: Key) -> Option<u16> {
        self.newest
            .and_then(|newest| newest.answer_to(key))
            .or_else(|| slots::find(self.list, key))
    }

    fn offer(&mut self, key: Key, answer: u16)
        ensures offered { Offered (lent_entries self.old) (lent_entries self.new) (key_of key) answer }
        ensures renewed { Renewed self.old self.new key answer }
    {
        if let Some(former) = self.newest.replace(Entry { key, answer }) {
            slots::write(self.list, former);
        }
    }

    fn forget(&mut self)
        ensures forgotten { Forgotten (lent_entries self.new) }
        ensures slots { size self.new ≡ size self.old }
    {
        self.list.fill(None);
        self.newest = None;
    }
}
