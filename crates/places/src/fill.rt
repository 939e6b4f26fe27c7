ghost use Rattle.std.specs.Prelude.{◌≡◌, ◌+◌, ◌<◌, true, length, Some, None};
ghost use Rattle.diagrams.specs.Places.{free, leaf_word, node_at};
ghost use Rattle.places.specs.Contents.{seen_content, in_use, at, deep};
ghost use Rattle.places.specs.Tables.{Found, Sought, Given, Filling, Under};

use crate::place::{Content, Place};
use crate::places::Places;

// Which of some slots holds a content.
fn position(slots: &[Place], content: Content) -> Option<usize>
    ensures { Found (at slots.now) (length slots.now) (seen_content content) result }
{
    slots.iter().position(|slot| slot.content == content)
}

impl Places {
    // The place that holds a content.
    fn seek(&self, content: Content) -> Option<u16>
        ensures { Sought self.now (seen_content content) result }
    {
        let h = position(&self.places[..usize::from(self.capacity)], content)?;
        Some(h as u16)
    }

    // What is asked of a content, or of the children of a node, is asked by each of these: the table changes, so that no type could keep it.

    // Fills a free place with a content that no place holds.
    fn put(&mut self, h: u16, content: Content)
        requires used { in_use (seen_content content) ≡ true }
        requires deep { deep (at self.old.places) (seen_content content) ≡ true }
        requires absent { Sought self.old (seen_content content) None }
        requires spare { Sought self.old free (Some h) }
        ensures { Given self.old self.new (seen_content content) h }
    {
        self.places[usize::from(h)].fill(content);
    }

    // The place that holds a content; a free place takes it where none does.
    fn find_or_fill(&mut self, content: Content) -> Option<u16>
        requires used { in_use (seen_content content) ≡ true }
        requires deep { deep (at self.old.places) (seen_content content) ≡ true }
        ensures { Filling self.old self.new (seen_content content) result }
    {
        if let Some(h) = self.seek(content) {
            return Some(h);
        }
        let h = self.seek(Content::Free)?;
        self.put(h, content);
        Some(h)
    }

    // The place of a leaf.
    pub fn leaf(&mut self, word: u32) -> Option<u16>
        ensures { Filling self.old self.new (leaf_word word) result }
    {
        self.find_or_fill(Content::Leaf(word))
    }

    // The place of a node, whose children stand deeper.
    // Three arguments and no struct: callers have the parts, and would build one only for `Content::Node` to take apart.
    pub fn node(&mut self, level: u8, low: u16, high: u16) -> Option<u16>
        requires within { level < 32 }
        requires left { Under self.old (level + 1) low }
        requires right { Under self.old (level + 1) high }
        ensures { Filling self.old self.new (node_at level low high) result }
    {
        self.find_or_fill(Content::Node { level, low, high })
    }
}
