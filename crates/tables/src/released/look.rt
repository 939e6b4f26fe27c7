ghost use Rattle.std.specs.Prelude.{◌≡◌, []};
ghost use Rattle.histories.specs.Requests.{Call.look as Look, Look.size as Size, Look.write as Write};
ghost use Rattle.tables.specs.Models.{ReleasedTakes, asked, answered};

use super::Released;
use kinds::Value;
use refusals::Refusal;
use stores::Store;
use walks::size;
use writing::write;

impl<K: Value, S: Store> Released<K, S> {
    /// How many nodes are reached from a handle. A handle that is not live is refused, and a walk list with fewer entries than the table has places,
    /// which stays; of a longer list the first entries, one for each place, are zero afterwards, on a refusal too.
    pub fn size(&self, handle: u32, walk: &mut [u32]) -> Result<u32, Refusal>
        ensures { ReleasedTakes K.Value.kind S.Store.entries self.now (asked (Look (Size handle)) walk.old []) (answered result walk.new []) }
    {
        self.size_of(handle, walk)
    }

    /// Writes the sheet of a handle's rule into the output, and answers the sheet's length; bytes past the sheet stay. Handle and walk list are as for a
    /// size; an output that is shorter than the sheet is refused, and stays.
    pub fn write(&self, handle: u32, walk: &mut [u32], output: &mut [u8]) -> Result<u32, Refusal>
        ensures { ReleasedTakes K.Value.kind S.Store.entries self.now (asked (Look (Write handle)) walk.old output.old) (answered result walk.new output.new) }
    {
        self.write_sheet(handle, walk, output)
    }

    // Walks from the handle over the places.
    fn size_of(&self, handle: u32, walk: &mut [u32]) -> Result<u32, Refusal>
        ensures { ReleasedTakes K.Value.kind S.Store.entries self.now (asked (Look (Size handle)) walk.old []) (answered result walk.new []) }
    {
        size(&self.places, handle, walk)
    }

    // Walks from the handle over the places, whose layout the sheet names.
    fn write_sheet(&self, handle: u32, walk: &mut [u32], output: &mut [u8]) -> Result<u32, Refusal>
        ensures { ReleasedTakes K.Value.kind S.Store.entries self.now (asked (Look (Write handle)) walk.old output.old) (answered result walk.new output.new) }
    {
        write::<K>(&self.places, &self.layout, handle, walk, output)
    }
}
