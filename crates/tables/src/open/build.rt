ghost use Rattle.std.specs.Prelude.{◌≡◌, Ok, Err, MatchResult};
ghost use Rattle.diagrams.specs.Tasks.{Operation.sum as Sum, Operation.difference as Difference, Operation.product as Product};
ghost use Rattle.histories.specs.Builds.{Build.constant as Constant, Build.mark as Mark, Build.combine as Combine, Build.restrict as Restrict};
ghost use Rattle.histories.specs.Requests.{Call.build as Building};
ghost use Rattle.places.specs.Tables.{kept};
ghost use Rattle.tables.specs.Models.{OpenStep, meant, asked_as};
ghost use Rattle.tables.specs.Settling.{Sure, Attempted, Settled};

use super::Open;
use crate::call::{Build, Checked};
use crate::checks::{known_constant, known_mark, live};
use building::combine::combine;
use building::operation::Operation;
use building::restrict::restrict;
use building::simple;
use kinds::Value;
use places::saved::Saved;
use refusals::Refusal;
use stores::Store;

impl<K: Value, S: Store> Open<K, S> {
    /// The handle of a value's leaf.
    pub fn constant(&mut self, word: u32) -> Result<u32, Refusal>
        ensures { OpenStep K.Value.kind S.Store.entries self.old (Building (Constant word)) result self.new }
    {
        self.build(Build::Constant(word))
    }

    /// The handle of a mark's node.
    pub fn mark(&mut self, index: u32) -> Result<u32, Refusal>
        ensures { OpenStep K.Value.kind S.Store.entries self.old (Building (Mark index)) result self.new }
    {
        self.build(Build::Mark(index))
    }

    /// The handle of the sum of two rules.
    pub fn sum(&mut self, a: u32, b: u32) -> Result<u32, Refusal>
        ensures { OpenStep K.Value.kind S.Store.entries self.old (Building (Combine Sum a b)) result self.new }
    {
        self.build(Build::Combine(Operation::Sum, a, b))
    }

    /// The handle of the first rule less the second.
    pub fn difference(&mut self, a: u32, b: u32) -> Result<u32, Refusal>
        ensures { OpenStep K.Value.kind S.Store.entries self.old (Building (Combine Difference a b)) result self.new }
    {
        self.build(Build::Combine(Operation::Difference, a, b))
    }

    /// The handle of the product of two rules.
    pub fn product(&mut self, a: u32, b: u32) -> Result<u32, Refusal>
        ensures { OpenStep K.Value.kind S.Store.entries self.old (Building (Combine Product a b)) result self.new }
    {
        self.build(Build::Combine(Operation::Product, a, b))
    }

    /// The handle of a rule with a mark put to a constant, 0 or 1.
    pub fn restrict(&mut self, handle: u32, mark: u32, constant: u32) -> Result<u32, Refusal>
        ensures { OpenStep K.Value.kind S.Store.entries self.old (Building (Restrict handle mark constant)) result self.new }
    {
        self.build(Build::Restrict(handle, mark, constant))
    }

    // Carries out a building call: once its arguments are looked at the places are saved, and what it brings is settled, whichever call it is. A refused call
    // saves nothing.
    fn build(&mut self, call: Build) -> Result<u32, Refusal>
        ensures { OpenStep K.Value.kind S.Store.entries self.old (Building (meant call)) result self.new }
    {
        let checked = self.checked(call)?;
        let saved = self.places.save();
        let answer = self.carry_out(checked);
        self.settle(&saved, answer)
    }

    // A building call with its arguments looked at, in the order of its faults: the mark before the handle, the left handle before the right, the constant last.
    fn checked(&self, call: Build) -> Result<Checked, Refusal>
        ensures { MatchResult result (λ c. (asked_as c ≡ meant call) × Sure K.Value.kind self.now c) (λ e. OpenStep K.Value.kind S.Store.entries self.now (Building (meant call)) (Err e) self.now) }
    {
        match call {
            Build::Constant(word) => {
                if !K::is_value(word) {
                    return Err(Refusal::NotAValue);
                }
                Ok(Checked::Constant(word))
            }
            Build::Mark(index) => {
                let mark = known_mark(&self.layout, index)?;
                Ok(Checked::Mark(mark))
            }
            Build::Combine(operation, a, b) => {
                let left = live(&self.places, a)?;
                let right = live(&self.places, b)?;
                Ok(Checked::Combine(operation, left, right))
            }
            Build::Restrict(handle, index, constant) => {
                let mark = known_mark(&self.layout, index)?;
                let place = live(&self.places, handle)?;
                let one = known_constant(constant)?;
                Ok(Checked::Restrict(place, mark, one))
            }
        }
    }

    // The handle that a building call brings, if there is room for it.
    fn carry_out(&mut self, call: Checked) -> Option<u16>
        requires { Sure K.Value.kind self.old call }
        ensures { Attempted K.Value.kind S.Store.entries self.old self.new (Building (asked_as call)) (Ok result) }
    {
        match call {
            Checked::Constant(word) => simple::constant(&mut self.places, word),
            Checked::Mark(mark) => simple::mark::<K>(&mut self.places, &self.layout, mark),
            Checked::Combine(operation, left, right) => combine::<K, S>(
                &mut self.places,
                &mut self.store,
                &self.layout,
                operation,
                left,
                right,
            ),
            Checked::Restrict(place, mark, one) => restrict::<K, S>(
                &mut self.places,
                &mut self.store,
                &self.layout,
                place,
                mark,
                one,
            ),
        }
    }

    // The handle that building brought, or that there was no room for it.
    fn settle(&mut self, saved: &Saved, answer: Option<u16>) -> Result<u32, Refusal>
        ensures { Settled S.Store.entries self.old self.new (kept saved.now) answer result }
    {
        match answer {
            Some(handle) => Ok(u32::from(handle)),
            None => {
                self.come_back(saved);
                Err(Refusal::TableFull)
            }
        }
    }
}
