ghost use Rattle.std.specs.Prelude.{◌≡◌, ◌≤◌, length, replicate};
ghost use Rattle.histories.specs.Steps.{wiped};
ghost use Rattle.layouts.specs.View.{view};
ghost use Rattle.reading.specs.Reads.{Read_in, Reads};

use crate::admit::admit;
use crate::fill::fill;
use kinds::Value;
use layouts::Layout;
use places::places::Places;
use refusals::TableFault;
use walks::Cleared;

// Reads a sheet into the places, where the list has an entry for each of them. The list is zero afterwards.
fn take<K: Value>(
    places: &mut Places,
    layout: &Layout,
    bytes: &[u8],
    list: &mut [u32],
) -> Result<u16, TableFault>
    requires { places.old.capacity ≤ length list.old }
    ensures answer { Read_in K.Value.kind (view layout.now) places.old places.new bytes.now result }
    ensures cleared { list.new ≡ replicate (length list.old) 0 }
{
    let walk = Cleared { list };
    let count = admit::<K>(layout, places.capacity() as usize, bytes, walk.list)?;
    let records = &walk.list[..count];
    fill(places, bytes, records).map_err(|full| TableFault::Full {
        place: records[full.number] as usize,
    })
}

/// Reads the sheet in some bytes into the places of a table, and answers the place of its rule. The walk list has at least as many entries as the table
/// has places; those are zero afterwards. Where the table is full, some of the sheet's records have places: the table is to be undone.
// The places and the layout come apart, since a table lends them apart from its store.
pub fn read<K: Value>(
    places: &mut Places,
    layout: &Layout,
    bytes: &[u8],
    walk: &mut [u32],
) -> Result<u16, TableFault>
    ensures answer { Reads K.Value.kind (view layout.now) places.old places.new bytes.now walk.old result }
    ensures list { walk.new ≡ wiped places.old.capacity walk.old }
{
    let capacity = places.capacity() as usize;
    if walk.len() < capacity {
        return Err(TableFault::ShortList);
    }
    take::<K>(places, layout, bytes, &mut walk[..capacity])
}
