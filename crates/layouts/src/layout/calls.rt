ghost use Rattle.std.specs.Prelude.{◌≡◌, ℕ, ◌<◌, ◌^◌, false, is_ok, nat_lt, slice_index_or};
ghost use Rattle.diagrams.specs.Layouts as plan;
ghost use Rattle.layouts.specs.Forms.{decomposition};
ghost use Rattle.layouts.specs.Levels.{level_of, plain};
ghost use Rattle.layouts.specs.View.{view, told};

use super::Layout;
use crate::form::Form;
use crate::level::Level;
use refusals::Refusal;
use std::array;

impl Layout {
    /// A layout of so many marks, mark i on level i, every type Shannon.
    pub fn begin(size: u32) -> Result<Layout, Refusal>
        ensures { told view result ≡ plan.begin size }
    {
        if !(1..=32).contains(&size) {
            return Err(Refusal::LayoutSize);
        }
        Ok(Layout {
            size: size as u8,
            levels: plain_levels(),
            places: plain_places(),
        })
    }

    /// Exchanges the marks of two levels, each with its type.
    pub fn exchange(&mut self, a: u32, b: u32) -> Result<(), Refusal>
        ensures answer { told (λ _. view self.new) result ≡ plan.exchange a b (view self.old) }
        ensures refused { is_ok result ≡ false → self.new ≡ self.old }
    {
        let size = u32::from(self.size);
        if a >= size || b >= size {
            return Err(Refusal::NoSuchMark);
        }
        let (a, b) = (a as usize, b as usize);
        self.places
            .swap(self.levels[a].mark as usize, self.levels[b].mark as usize);
        self.levels.swap(a, b);
        Ok(())
    }

    /// Gives a mark the type of a number from 0 to 2.
    pub fn set_type(&mut self, mark: u32, number: u32) -> Result<(), Refusal>
        ensures answer { told (λ _. view self.new) result ≡ plan.set_type mark number (view self.old) }
        ensures refused { is_ok result ≡ false → self.new ≡ self.old }
    {
        if mark >= u32::from(self.size) {
            return Err(Refusal::NoSuchMark);
        }
        let form = Form::try_from(number)?;
        let level = self.places[mark as usize];
        self.levels[level as usize].form = form;
        Ok(())
    }

    /// The number of marks, which is that of levels.
    pub fn size(&self) -> u8
        ensures { result ≡ (view self.now).size }
    {
        self.size
    }

    /// The mark of a level.
    pub fn mark(&self, level: u8) -> u8
        ensures { result ≡ (view self.now).mark level }
    {
        self.on(level).mark
    }

    /// The level of a mark.
    pub fn level(&self, mark: u8) -> u8
        ensures { result ≡ (view self.now).level mark }
    {
        self.places.get(mark as usize).copied().unwrap_or(mark)
    }

    /// The type of a level.
    pub fn form(&self, level: u8) -> Form
        ensures { decomposition result ≡ (view self.now).type level }
    {
        self.on(level).form
    }

    /// Whether a word is a fruit of this layout: it has no mark at the size or past it.
    pub fn is_fruit(&self, word: u32) -> bool
        ensures { result ≡ nat_lt word (2 ^ (view self.now).size) }
    {
        u64::from(word) < 1u64 << self.size
    }

    // What stands on a level; past the array a level stands for itself.
    fn on(&self, level: u8) -> Level
        ensures { result ≡ slice_index_or self.now.levels level (plain level) }
    {
        self.levels
            .get(level as usize)
            .copied()
            .unwrap_or(Level::plain(level))
    }
}

// Levels that stand for themselves.
fn plain_levels() -> [Level; 32]
    ensures { (l : ℕ) → slice_index_or result l (plain l) ≡ plain l }
{
    array::from_fn(|level| Level::plain(level as u8))
}

// Marks on the levels of their own numbers.
fn plain_places() -> [u8; 32]
    ensures { (i : ℕ) → level_of result i ≡ i }
{
    array::from_fn(|mark| mark as u8)
}
