ghost use Rattle.std.specs.Prelude.{◌≡◌, ◌<◌, List, length, Decides};
ghost use Rattle.diagrams.specs.Diagrams.{Diagram, top};
ghost use Rattle.diagrams.specs.Layouts.{Layout};
ghost use Rattle.diagrams.specs.Reading.{nth, holds};
ghost use Rattle.diagrams.specs.Sizes.{Distinct, among};
ghost use Rattle.sheets.specs.Held.{Held, Listed, Known, drawn, shown, diagram_of};

use crate::record::Item;
use std::marker::Model;

/// The leaves and nodes of a sheet that are read already. A contract sees the diagrams that they stand for.
#[derive(Drop)]
pub struct Records<'a> {
    // The sheet.
    bytes: &'a [u8],
    // The byte place of each record.
    list: &'a [u32],
}

impl<'a> Model for Records<'a> {
    ghost use Rattle.std.specs.Prelude.{List};
    ghost use Rattle.std.specs.Coded.{coded_list};
    ghost use Rattle.diagrams.specs.Diagrams.{Diagram};
    ghost use Rattle.sheets.specs.Held.{Listed, drawn};
    ghost use Rattle.sheets.specs.Moves.{diagram_code};

    ghost Value = { List Diagram };

    ghost coded = { coded_list diagram_code };

    ghost view = { λ r. drawn r.bytes.now r.list.now };

    ghost invariant = { λ r. Listed r.bytes.now r.list.now (drawn r.bytes.now r.list.now) };
}

/// Record i of a sheet, where the list holds the byte places of its records.
pub fn item(bytes: &[u8], list: &[u32], i: usize) -> Item
    requires { (seen : List Diagram) × Held bytes.now list.now seen × (i < length seen) }
    ensures { (seen : List Diagram) → Held bytes.now list.now seen → i < length seen → result ≡ shown seen (nth seen i) }
{
    let record = &bytes[list[i] as usize..];
    // By its kind alone: it was tested when it was read, and is asked for again for each later record.
    Item::of_kind(u16::from_le_bytes([record[2], record[3]]), record)
}

impl<'a> Records<'a> {
    /// The records of a sheet at the byte places of a list.
    pub fn new(bytes: &'a [u8], list: &'a [u32]) -> Records<'a>
        requires { (seen : List Diagram) × Listed bytes.now list.now seen }
        ensures { (seen : List Diagram) → Listed bytes.now list.now seen → result ≡ seen }
    {
        Records { bytes, list }
    }

    /// How many they are. No two are one diagram.
    pub fn len(&self) -> usize
        ensures count { result ≡ length self.now }
        ensures apart { Distinct self.now }
    {
        self.list.len()
    }

    /// What record i holds. Its children are earlier records.
    pub fn item(&self, i: usize) -> Item
        requires { i < length self.now }
        ensures shows { result ≡ shown self.now (nth self.now i) }
        ensures draws { nth self.now i ≡ diagram_of self.now result }
        ensures earlier { Known i result }
        ensures apart { Distinct self.now }
        ensures few { length self.now < 65536 }
    {
        item(self.bytes, self.list, i)
    }

    /// The level on which record i stands; leaves stand deepest, on the layout's size.
    pub fn level_of(&self, i: usize, size: u8) -> u8
        requires { i < length self.now }
        ensures { (L : Layout) → size ≡ L.size → result ≡ top L (nth self.now i) }
    {
        match self.item(i) {
            Item::Node { level, .. } => level,
            _ => size,
        }
    }

    // Whether record i holds that leaf or node.
    fn holds(&self, i: usize, wanted: Item) -> bool
        requires { i < length self.now }
        ensures { Known (length self.now) wanted → Decides result (nth self.now i ≡ diagram_of self.now wanted) }
    {
        self.item(i) == wanted
    }

    /// Whether a record holds that leaf or node.
    pub fn contains(&self, wanted: Item) -> bool
        ensures { Known (length self.now) wanted → result ≡ holds (among (diagram_of self.now wanted) self.now) }
    {
        // By number: a record is asked for by its number.
        (0..self.len()).any(|i| self.holds(i, wanted))
    }
}
