ghost use Rattle.std.specs.Prelude.{◌≡◌};
ghost use Rattle.histories.specs.Requests.{Call.look as Look, Look.grade as Grade};
ghost use Rattle.tables.specs.Models.{ReleasedStep};

use super::Released;
use crate::checks::live;
use grading::grade;
use kinds::Value;
use refusals::Refusal;
use stores::Store;

impl<K: Value, S: Store> Released<K, S> {
    /// The value that the rule of a handle gives a fruit.
    pub fn grade(&self, handle: u32, fruit: u32) -> Result<u32, Refusal>
        ensures { ReleasedStep K.Value.kind S.Store.entries self.now (Look (Grade handle fruit)) result }
    {
        self.value_of(handle, fruit)
    }

    // The checks in their order, and then the walk.
    fn value_of(&self, handle: u32, fruit: u32) -> Result<u32, Refusal>
        ensures { ReleasedStep K.Value.kind S.Store.entries self.now (Look (Grade handle fruit)) result }
    {
        let place = live(&self.places, handle)?;
        if !self.layout.is_fruit(fruit) {
            return Err(Refusal::NotAFruit);
        }
        Ok(grade::<K>(&self.places, &self.layout, place, fruit))
    }
}
