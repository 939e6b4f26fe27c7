ghost use Rattle.std.specs.Prelude.{◌≡◌};
ghost use Rattle.places.specs.Tables.{kept};

use crate::places::Places;

// A table as it was when it was saved.
#[derive(Clone, Copy)]
pub struct Saved {
    places: Places,
}

impl Places {
    // The table as it is now, to come back to.
    pub fn save(&self) -> Saved
        ensures { kept result ≡ self.now }
    {
        Saved { places: *self }
    }

    // Comes back to the table as it was saved.
    pub fn undo(&mut self, saved: &Saved)
        ensures { self.new ≡ kept saved.now }
    {
        *self = saved.places;
    }
}
