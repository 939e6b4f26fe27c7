ghost use Rattle.std.specs.Prelude.{◌≡◌, ◌<◌, ◌≤◌, [], ◌∷◌, ◌++◌, length};
ghost use Rattle.places.specs.declared.places.TheConstants.{SLOTS};
ghost use Rattle.walks.specs.Orders.{collected};

use super::Order;
use places::places::SLOTS;

impl Order {
    /// No place yet.
    pub fn new() -> Order
        ensures { collected result ≡ [] }
    {
        Order {
            handles: [0; SLOTS],
            count: 0,
        }
    }

    /// One place more.
    pub fn push(&mut self, place: u16)
        requires { length (collected self.old) < SLOTS }
        ensures items { collected self.new ≡ collected self.old ++ (place ∷ []) }
    {
        self.handles[self.count] = place;
        self.count += 1;
    }

    /// The places in their order.
    pub fn as_slice(&self) -> &[u16]
        ensures value { result.now ≡ collected self.now }
        ensures fits { length result.now ≤ SLOTS }
    {
        &self.handles[..self.count]
    }

    /// How many places there are.
    pub fn len(&self) -> usize
        ensures value { result ≡ length (collected self.now) }
        ensures fits { result ≤ SLOTS }
    {
        self.count
    }
}
