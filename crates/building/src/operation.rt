ghost use Rattle.std.specs.Prelude.{◌≡◌, ℕ};
ghost use Rattle.diagrams.specs.Tasks.{act};
ghost use Rattle.histories.specs.Steps.{operation_code};
ghost use Rattle.stores.specs.Keys.{number, key_of};
ghost use Rattle.building.specs.Operations.{meant, combine_key};

use kinds::Value;
use stores::Key;

// An operation on two handles.
#[derive(Clone, Copy)]
pub enum Operation {
    Sum,
    Difference,
    Product,
}

impl Operation {
    // Under which key a store has the result of two handles.
    pub fn key(self, left: u16, right: u16) -> Key
        ensures { key_of result ≡ combine_key (meant self) left right }
    {
        Key {
            operation: self.into(),
            left,
            right,
        }
    }

    // The operation on two words of a kind.
    pub fn apply<K: Value>(self, x: u32, y: u32) -> u32
        ensures { result ≡ act K.Value.kind (meant self) x y }
    {
        match self {
            Operation::Sum => K::sum(x, y),
            Operation::Difference => K::difference(x, y),
            Operation::Product => K::product(x, y),
        }
    }
}

// The operation as stores name it.
impl From<Operation> for stores::Operation {
    ghost from_gives = { λ x y. number y ≡ operation_code (meant x) };

    fn from(operation: Operation) -> stores::Operation {
        match operation {
            Operation::Sum => stores::Operation::Sum,
            Operation::Difference => stores::Operation::Difference,
            Operation::Product => stores::Operation::Product,
        }
    }
}
