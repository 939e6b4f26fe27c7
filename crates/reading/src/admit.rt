ghost use Rattle.std.specs.Prelude.{◌≡◌, ◌≤◌, length, drop};
ghost use Rattle.layouts.specs.View.{view};
ghost use Rattle.sheets.specs.Scanned.{Checked};

use kinds::Value;
use layouts::Layout;
use places::places::SLOTS;
use refusals::SheetFault;
use sheets::put::put_head;
use sheets::{Expected, check_sheet};
use writing::head_of;

/// Whether bytes are a sheet of the kind and the layout that has no more records than the limit: how many it has, with their byte places put into the list; or
/// the first of the faults 13 to 24.
pub fn admit<K: Value>(
    layout: &Layout,
    limit: usize,
    bytes: &[u8],
    list: &mut [u32],
) -> Result<usize, SheetFault>
    requires few { limit ≤ SLOTS }
    requires room { limit ≤ length list.old }
    ensures answer { Checked K.Value.kind (view layout.now) limit bytes.now list.new result }
    ensures past { drop limit list.new ≡ drop limit list.old }
{
    let head = head_of::<K>(layout);
    // The record is put into lent bytes, as every record is, so its length stands beside it.
    let mut record = [0; 70];
    let end = put_head(&mut record, 0, head.as_slice());
    let expected = Expected {
        head: &record[..end],
        types: &head.as_slice()[2 + layout.size() as usize..],
        limit,
    };
    check_sheet::<K>(bytes, expected, list)
}
