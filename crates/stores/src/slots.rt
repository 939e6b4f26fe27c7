// A list of records as slots: every key has one slot of the list, and only the record there answers it.
ghost use Rattle.std.specs.Prelude.{◌≡◌, ◌<◌, length, Some};
ghost use Rattle.histories.specs.Stores.{Forgotten, Offered};
ghost use Rattle.stores.specs.Keys.{key_of};
ghost use Rattle.stores.specs.Kept.{SameAnswers, in_slots, spilled};

use crate::{Entry, Key};

// What the list answers.
pub(crate) fn find(list: &[Option<Entry>], key: Key) -> Option<u16>
    ensures { result ≡ in_slots list.now (key_of key) }
{
    let slot = key.hash().checked_rem(list.len())?;
    list[slot]?.answer_to(key)
}

// Writes an entry over its slot. A list with no slots keeps nothing.
pub(crate) fn write(list: &mut [Option<Entry>], entry: Entry)
    ensures listed { SameAnswers (in_slots list.new) (spilled (length list.old) (Some entry) (in_slots list.old)) }
    ensures offered { 0 < length list.old → Offered (in_slots list.old) (in_slots list.new) (key_of entry.key) entry.answer }
{
    if let Some(slot) = entry.key.hash().checked_rem(list.len()) {
        list[slot] = Some(entry);
    }
}

// Slots with nothing in them.
pub(crate) fn empty<const N: usize>() -> [Option<Entry>; N]
    ensures { Forgotten (in_slots result) }
{
    [None; N]
}
