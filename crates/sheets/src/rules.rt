ghost use Rattle.std.specs.Prelude.{◌≡◌, ℕ, ◌<◌, length};
ghost use Rattle.diagrams.specs.Kinds.{Kind};
ghost use Rattle.diagrams.specs.Layouts.{Layout, Decomposition, type_code};
ghost use Rattle.diagrams.specs.Diagrams.{leaf, node, same, spare};
ghost use Rattle.diagrams.specs.Sizes.{Distinct};
ghost use Rattle.diagrams.specs.Reading.{part, fine, nth, holds, leaf_found, node_found, end_found, node_rules};
ghost use Rattle.sheets.specs.Judged.{Types, is_broken, ruled, judged, stands_for};

use crate::head::Expected;
use crate::record::Item;
use crate::records::Records;
use kinds::Value;
use refusals::Refusal;

impl Records<'_> {
    // Whether a node's level or children are out of place, in a layout of that size.
    // A struct of the three would be no plainer: `Item::Node` holds them, and they are taken apart here alone and where the rules are checked.
    fn misplaces(&self, size: u8, level: u8, low: u16, high: u16) -> bool
        ensures { (K : Kind) (L : Layout) (limit : ℕ) → size ≡ L.size → result ≡ is_broken 19 (node_rules K L limit self.now level low high) }
    {
        let count = self.len();
        let (low, high) = (low as usize, high as usize);
        if level >= size || low >= count || high >= count {
            return true;
        }
        self.level_of(low, size) <= level || self.level_of(high, size) <= level
    }

    // Whether the drop rule removes a node, on a level whose type has that number.
    // That sheets know no layout, only slices of marks and of types as the head record has them, is a rule of the project: a type is its number here.
    fn drops<V: Value>(&self, form: u8, low: u16, high: u16) -> bool
        requires { (low < length self.now) × (high < length self.now) }
        ensures { (t : Decomposition) → Distinct self.now → form ≡ type_code t → result ≡ holds (same (nth self.now high) (spare V.Value.kind t (nth self.now low))) }
    {
        if form == 0 {
            return low == high;
        }
        self.item(high as usize) == Item::Leaf(V::ZERO)
    }

    // What the record of a leaf has to keep after its frame.
    fn check_leaf<V: Value>(&self, limit: usize, word: u32) -> Result<(), Refusal>
        ensures { (L : Layout) → ruled result (part (leaf word)) ≡ leaf_found V.Value.kind L limit self.now word }
    {
        if self.len() >= limit {
            return Err(Refusal::TooManyRecords);
        }
        if !V::is_value(word) {
            return Err(Refusal::LeafNotAValue);
        }
        if self.contains(Item::Leaf(word)) {
            return Err(Refusal::Repeated);
        }
        Ok(())
    }

    // What the record of a node has to keep after its frame.
    fn check_node<V: Value>(
        &self,
        expected: Expected<'_>,
        level: u8,
        low: u16,
        high: u16,
    ) -> Result<(), Refusal>
        requires { length expected.types.now < 256 }
        ensures { (L : Layout) → Types L expected.entry.types.now → ruled result (part (node level (nth self.now low) (nth self.now high))) ≡ node_found V.Value.kind L expected.entry.limit self.now level low high }
    {
        if self.len() >= expected.limit {
            return Err(Refusal::TooManyRecords);
        }
        if self.misplaces(expected.types.len() as u8, level, low, high) {
            return Err(Refusal::BadNode);
        }
        if self.drops::<V>(expected.types[level as usize], low, high) {
            return Err(Refusal::Dropped);
        }
        if self.contains(Item::Node { level, low, high }) {
            return Err(Refusal::Repeated);
        }
        Ok(())
    }

    // What an end has to keep after its frame.
    fn check_end(&self, count: u16) -> Result<(), Refusal>
        ensures { (K : Kind) (L : Layout) (limit : ℕ) → ruled result fine ≡ end_found K L limit self.now count }
    {
        if count as usize != self.len() {
            return Err(Refusal::WrongCount);
        }
        Ok(())
    }

    /// What a record has to keep after its frame.
    pub fn check_item<V: Value>(&self, expected: Expected<'_>, item: Item) -> Result<(), Refusal>
        requires { length expected.types.now < 256 }
        ensures { (L : Layout) → Types L expected.entry.types.now → ruled result (stands_for self.now item) ≡ judged V.Value.kind L expected.entry.limit self.now item }
    {
        match item {
            Item::Leaf(word) => self.check_leaf::<V>(expected.limit, word),
            Item::Node { level, low, high } => self.check_node::<V>(expected, level, low, high),
            Item::End(count) => self.check_end(count),
        }
    }
}
