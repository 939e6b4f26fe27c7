ghost use Rattle.std.specs.Prelude.{◌≡◌, refl};
ghost use Rattle.diagrams.specs.TwoKinds.{yes_no};
ghost use Rattle.diagrams.proofs.TwoKinds.{yes_no_laws};

use crate::value::Value;

/// Yes or no: 1 or 0.
#[derive(Clone, Copy)]
pub struct YesNo;

impl Value for YesNo {
    const CODE: u8 = 1;

    const ZERO: u32 = 0;

    const ONE: u32 = 1;

    ghost CODE = { yes_no.code };

    ghost ZERO = { yes_no.zero };

    ghost ONE = { yes_no.one };

    ghost kind = { yes_no };

    ghost laws = { yes_no_laws };

    fn is_value(word: u32) -> bool {
        word < 2
    }

    // Sum and product differ in one operator: a function over operators would be no shorter than both.
    fn sum(a: u32, b: u32) -> u32 {
        if Self::is_value(a) && Self::is_value(b) {
            a ^ b
        } else {
            Self::ZERO
        }
    }

    // What is added twice is gone: the difference is the sum.
    fn difference(a: u32, b: u32) -> u32 {
        Self::sum(a, b)
    }

    fn product(a: u32, b: u32) -> u32 {
        if Self::is_value(a) && Self::is_value(b) {
            a & b
        } else {
            Self::ZERO
        }
    }

    ghost code_of_kind = { refl };

    ghost zero_of_kind = { refl };

    ghost one_of_kind = { refl };
}
