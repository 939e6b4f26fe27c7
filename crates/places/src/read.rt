ghost use Rattle.std.specs.Prelude.{◌≡◌};
ghost use Rattle.places.specs.Contents.{seen_content, in_use, depth};
ghost use Rattle.places.specs.Tables.{place, holds, Live, Trusted};

use crate::place::Content;
use crate::places::Places;

impl Places {
    // How many places may be in use.
    pub fn capacity(&self) -> u16
        ensures { result ≡ self.now.capacity }
    {
        self.capacity
    }

    // How often a place is held.
    pub fn count(&self, h: u16) -> u16
        ensures { result ≡ (place self.now h).count }
    {
        self.places
            .get(usize::from(h))
            .map_or(0, |place| place.count)
    }

    // What a place holds.
    pub fn content(&self, h: u16) -> Content
        ensures { seen_content result ≡ holds self.now h }
    {
        self.places
            .get(usize::from(h))
            .map_or(Content::Free, |place| place.content)
    }

    // Whether a place holds a leaf or a node.
    fn is_used(&self, h: u16) -> bool
        ensures { result ≡ in_use (holds self.now h) }
    {
        self.content(h) != Content::Free
    }

    // The level on which a place stands; leaves stand deepest, on 32.
    pub fn level_of(&self, h: u16) -> u8
        ensures { result ≡ depth (holds self.now h) }
    {
        match self.content(h) {
            Content::Node { level, .. } => level,
            _ => 32,
        }
    }

    // The place of a number, if it is in use.
    pub fn live(&self, h: u32) -> Option<u16>
        ensures { Live self.now h result }
    {
        u16::try_from(h).ok().filter(|&place| self.is_used(place))
    }

    // An answer, unless its place is not in use or stands above the level.
    pub fn trusted(&self, answer: Option<u16>, level: u8) -> Option<u16>
        ensures { Trusted self.now level answer result }
    {
        answer.filter(|&h| self.is_used(h) && level <= self.level_of(h))
    }
}
