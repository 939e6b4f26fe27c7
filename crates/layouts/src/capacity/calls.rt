ghost use Rattle.std.specs.Prelude.{◌≡◌};
ghost use Rattle.layouts.specs.Capacities.{checked, counted};

use super::Capacity;
use refusals::Refusal;

impl Capacity {
    /// A capacity of so many places, refused unless they lie in 2 to 4,096.
    pub fn new(places: u32) -> Result<Capacity, Refusal>
        ensures { counted result ≡ checked places }
    {
        // A constructor, and no `TryFrom`: a number of places is what a capacity is made from, not another form of it.
        if !(2..=4096).contains(&places) {
            return Err(Refusal::Capacity);
        }
        Ok(Capacity {
            places: places as u16,
        })
    }

    /// The number of places.
    pub fn get(&self) -> u16
        ensures { result ≡ self.now.places }
    {
        self.places
    }
}
