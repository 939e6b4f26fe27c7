ghost use Rattle.std.specs.Prelude.{◌≡◌, ℕ, ◌+◌, ◌<◌, ◌≤◌, [], ◌∷◌, ◌++◌, length};
ghost use Rattle.diagrams.specs.Sheets.{by_level};
ghost use Rattle.layouts.specs.View.{view};
ghost use Rattle.writing.specs.Heads.{head_bytes, head_body};

use super::Head;
use kinds::Value;
use layouts::Layout;

impl Head {
    // No byte yet.
    fn new() -> Head
        ensures { head_bytes result ≡ [] }
    {
        Head {
            body: [0; 66],
            count: 0,
        }
    }

    // One byte more.
    fn push(&mut self, byte: u8)
        requires { length (head_bytes self.old) < 66 }
        ensures items { head_bytes self.new ≡ head_bytes self.old ++ (byte ∷ []) }
    {
        self.body[self.count] = byte;
        self.count += 1;
    }

    /// The bytes.
    pub fn as_slice(&self) -> &[u8]
        ensures value { result.now ≡ head_bytes self.now }
        ensures fits { length result.now ≤ 66 }
    {
        &self.body[..self.count]
    }
}

/// The head of every sheet of a kind and a layout.
pub fn head_of<K: Value>(layout: &Layout) -> Head
    ensures { head_bytes result ≡ head_body K.Value.kind (view layout.now) }
{
    let mut head = Head::new();
    head.push(K::CODE);
    head.push(layout.size());
    push_levels(&mut head, layout.size(), |level| layout.mark(level));
    push_levels(&mut head, layout.size(), |level| {
        layout.form(level).number()
    });
    head
}

// A byte for each level.
fn push_levels<F: Fn(u8) -> u8>(head: &mut Head, levels: u8, byte: F)
    requires callable { F.IsAlwaysCallable byte }
    requires room { length (head_bytes head.old) + levels ≤ 66 }
    ensures bytes { (f : ℕ → ℕ) → ((level x : ℕ) → F.post byte level x → x ≡ f level) → head_bytes head.new ≡ head_bytes head.old ++ by_level levels 0 f }
    ensures len { length (head_bytes head.new) ≡ length (head_bytes head.old) + levels }
{
    for level in 0..levels {
        head.push(byte(level));
    }
}
