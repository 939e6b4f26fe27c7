ghost use Rattle.std.specs.Prelude.{◌≡◌};
ghost use Rattle.histories.specs.Steps.{wiped};
ghost use Rattle.layouts.specs.View.{view};
ghost use Rattle.places.specs.Tables.{kept};
ghost use Rattle.tables.specs.Reading.{Comes, TurnedBack, Took, OpenReads};

use super::Open;
use kinds::Value;
use places::saved::Saved;
use reading::read::read;
use refusals::TableFault;
use stores::Store;

impl<K: Value, S: Store> Open<K, S> {
    /// Reads the sheet in some bytes and answers the handle of its rule, or the first fault with its byte place, which leaves the table as it was; a table
    /// without room for every record also makes its store forget. The walk list is as for a size, and is looked at first.
    pub fn read(&mut self, bytes: &[u8], walk: &mut [u32]) -> Result<u32, TableFault>
        ensures step { OpenReads K.Value.kind S.Store.entries self.old bytes.now walk.old result walk.new self.new }
        ensures comes { Comes K.Value.kind (view self.old.layout) self.old.places.capacity bytes.now walk.old result }
    {
        self.read_sheet(bytes, walk)
    }

    // A sheet is taken whole, or leaves no trace.
    fn read_sheet(&mut self, bytes: &[u8], walk: &mut [u32]) -> Result<u32, TableFault>
        ensures step { OpenReads K.Value.kind S.Store.entries self.old bytes.now walk.old result walk.new self.new }
        ensures comes { Comes K.Value.kind (view self.old.layout) self.old.places.capacity bytes.now walk.old result }
    {
        self.take(bytes, walk)
    }

    // Reads a sheet into the places.
    fn take(&mut self, bytes: &[u8], walk: &mut [u32]) -> Result<u32, TableFault>
        ensures table { Took K.Value.kind S.Store.entries self.old self.new bytes.now walk.old result }
        ensures list { walk.new ≡ wiped self.old.places.capacity walk.old }
    {
        let saved = self.places.save();
        match read::<K>(&mut self.places, &self.layout, bytes, walk) {
            Ok(place) => Ok(u32::from(place)),
            Err(fault) => {
                self.turn_back(&saved, fault);
                Err(fault)
            }
        }
    }

    // Where the table was full it comes back as it was.
    fn turn_back(&mut self, saved: &Saved, fault: TableFault)
        ensures { TurnedBack S.Store.entries self.old self.new (kept saved.now) fault }
    {
        match fault {
            TableFault::Full { .. } => self.come_back(saved),
            TableFault::Sheet(_) | TableFault::ShortList => {}
        }
    }
}
