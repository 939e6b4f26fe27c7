ghost use Rattle.std.specs.Prelude.{◌≡◌};
ghost use Rattle.places.specs.Contents.{seen_content, in_use, blank, HeldMore, HeldLess};

// What a place holds: nothing, a leaf's word, or a node.
// No Option round leaves and nodes: each of the three is looked for and matched by itself, and `Some(..)` would stand in each pattern.
#[derive(Clone, Copy, PartialEq, Eq)]
pub enum Content {
    Free,
    Leaf(u32),
    Node { level: u8, low: u16, high: u16 },
}

// A place: what it holds, and how often it is held.
#[derive(Clone, Copy)]
pub struct Place {
    pub content: Content,
    pub count: u16,
}

impl Place {
    // Takes a content, which nobody holds yet.
    pub fn fill(&mut self, content: Content)
        ensures { self.new ≡ record { content = content; count = 0 } }
    {
        *self = Place { content, count: 0 };
    }

    // Gives up what it holds.
    pub fn free(&mut self)
        ensures { self.new ≡ blank }
    {
        self.fill(Content::Free);
    }

    // Whether it holds a leaf or a node.
    pub fn is_used(&self) -> bool
        ensures { result ≡ in_use (seen_content self.now.content) }
    {
        self.content != Content::Free
    }

    // One hold more, and the new count, unless the count is at its limit.
    pub fn hold(&mut self) -> Option<u16>
        ensures { HeldMore self.old result self.new }
    {
        self.count = self.count.checked_add(1)?;
        Some(self.count)
    }

    // One hold less, and the new count, unless nobody holds it.
    pub fn let_go(&mut self) -> Option<u16>
        ensures { HeldLess self.old result self.new }
    {
        self.count = self.count.checked_sub(1)?;
        Some(self.count)
    }
}
