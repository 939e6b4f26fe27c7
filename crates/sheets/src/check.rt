ghost use Rattle.std.specs.Prelude.{◌≡◌, ℕ, ◌≤◌, length, drop};
ghost use Rattle.diagrams.specs.Kinds.{Kind};
ghost use Rattle.diagrams.specs.Layouts.{Layout};
ghost use Rattle.sheets.specs.Scanned.{Asks, Complete, Checked};

use crate::head::Expected;
use crate::records::Records;
use crate::scan::{Progress, scan};
use kinds::Value;
use refusals::{Refusal, SheetFault};

// What is left past the end: no bytes follow, and every record has the number that writing would give it.
fn finish(bytes: &[u8], list: &[u32], end: Progress) -> Result<usize, SheetFault>
    requires { (K : Kind) × (L : Layout) × (limit : ℕ) × Complete K L limit bytes.now end.place end.count list.now }
    ensures { (K : Kind) (L : Layout) (limit : ℕ) → Complete K L limit bytes.now end.place end.count list.now → Checked K L limit bytes.now list.now result }
{
    let after = end.place + 6;
    if after < bytes.len() {
        return Err(Refusal::BytesAfterEnd.at(after));
    }
    let records = Records::new(bytes, &list[..end.count]);
    // Matched, and no `map_err`, which was tried: the index is then asked for in a closure, apart from what `visit` ensures, and nothing is shorter.
    match records.visit((end.count - 1) as u16, 0) {
        Ok(_) => Ok(end.count),
        Err(stray) => Err(Refusal::WrongNumber.at(list[stray.number as usize] as usize)),
    }
}

/// Whether bytes are a sheet that fits: how many leaves and nodes it has, with their byte places put into the list; or the first of the faults 13 to 24.
pub fn check<V: Value>(
    bytes: &[u8],
    expected: Expected<'_>,
    list: &mut [u32],
) -> Result<usize, SheetFault>
    requires suits { (L : Layout) × Asks V.Value.kind L expected }
    requires room { expected.limit ≤ length list.old }
    ensures answer { (L : Layout) → Asks V.Value.kind L expected.entry → Checked V.Value.kind L expected.entry.limit bytes.now list.new result }
    ensures past { drop expected.entry.limit list.new ≡ drop expected.entry.limit list.old }
{
    expected.check_head(bytes)?;
    let end = scan::<V>(bytes, expected, list)?;
    finish(bytes, list, end)
}
