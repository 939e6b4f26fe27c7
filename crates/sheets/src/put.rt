ghost use Rattle.std.specs.Prelude.{◌≡◌, ◌+◌, ◌<◌, ◌≤◌, ◌∷◌, ◌++◌, length};
ghost use Rattle.std.proofs.lemmas.List.Edits.{sets};
ghost use Rattle.diagrams.specs.Sheets.{two, four, record_of};
ghost use Rattle.sheets.specs.Codes.{code};

use crate::kind::RecordKind;

// The output and a place in it, and no cursor over both: contracts say at which place of the output which bytes stand, and would name a cursor's two
// fields each time.

// Bytes, one after another. Answers the place after them.
fn put_bytes(out: &mut [u8], place: usize, bytes: &[u8]) -> usize
    requires { place + length bytes.now ≤ length out.old }
    ensures bytes { out.new ≡ sets out.old place bytes.now }
    ensures after { result ≡ place + length bytes.now }
{
    let after = place + bytes.len();
    out[place..after].copy_from_slice(bytes);
    after
}

// A number in two bytes, the low one first. Answers the place after them.
fn put_two(out: &mut [u8], place: usize, number: u16) -> usize
    requires { place + 2 ≤ length out.old }
    ensures bytes { out.new ≡ sets out.old place (two number) }
    ensures after { result ≡ place + 2 }
{
    put_bytes(out, place, &number.to_le_bytes())
}

// A record: the length of its body, its kind, its body. Answers the place after it.
fn put_record(out: &mut [u8], place: usize, kind: RecordKind, body: &[u8]) -> usize
    requires small { length body.now < 65536 }
    requires room { place + length (record_of (code kind) body.now) ≤ length out.old }
    ensures bytes { out.new ≡ sets out.old place (record_of (code kind) body.now) }
    ensures after { result ≡ place + length (record_of (code kind) body.now) }
{
    let kind_place = put_two(out, place, body.len() as u16);
    let body_place = put_two(out, kind_place, kind.code());
    put_bytes(out, body_place, body)
}

/// The head record, of a body that is made already.
pub fn put_head(out: &mut [u8], place: usize, body: &[u8]) -> usize
    requires small { length body.now ≤ 66 }
    requires room { place + length (record_of 1 body.now) ≤ length out.old }
    ensures bytes { out.new ≡ sets out.old place (record_of 1 body.now) }
    ensures after { result ≡ place + length (record_of 1 body.now) }
{
    put_record(out, place, RecordKind::Head, body)
}

/// The record of a leaf: its word.
pub fn put_leaf(out: &mut [u8], place: usize, word: u32) -> usize
    requires { place + 8 ≤ length out.old }
    ensures bytes { out.new ≡ sets out.old place (record_of 2 (four word)) }
    ensures after { result ≡ place + 8 }
{
    put_record(out, place, RecordKind::Leaf, &word.to_le_bytes())
}

/// The record of a node: its level, and the numbers of its children.
pub fn put_node(out: &mut [u8], place: usize, level: u8, low: u16, high: u16) -> usize
    requires { place + 9 ≤ length out.old }
    ensures bytes { out.new ≡ sets out.old place (record_of 3 (level ∷ two low ++ two high)) }
    ensures after { result ≡ place + 9 }
{
    let [low_0, low_1] = low.to_le_bytes();
    let [high_0, high_1] = high.to_le_bytes();
    put_record(
        out,
        place,
        RecordKind::Node,
        &[level, low_0, low_1, high_0, high_1],
    )
}

/// The end record: how many leaves and nodes there are.
pub fn put_end(out: &mut [u8], place: usize, count: u16) -> usize
    requires { place + 6 ≤ length out.old }
    ensures bytes { out.new ≡ sets out.old place (record_of 4 (two count)) }
    ensures after { result ≡ place + 6 }
{
    put_record(out, place, RecordKind::End, &count.to_le_bytes())
}
