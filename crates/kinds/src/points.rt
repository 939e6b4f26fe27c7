ghost use Rattle.std.specs.Prelude.{◌≡◌, refl};
ghost use Rattle.diagrams.specs.TwoKinds.{points};
ghost use Rattle.diagrams.proofs.TwoKinds.{points_laws};

use crate::value::Value;

/// Points: every word, with arithmetic modulo 2^32.
#[derive(Clone, Copy)]
pub struct Points;

impl Value for Points {
    const CODE: u8 = 2;

    const ZERO: u32 = 0;

    const ONE: u32 = 1;

    ghost CODE = { points.code };

    ghost ZERO = { points.zero };

    ghost ONE = { points.one };

    ghost kind = { points };

    ghost laws = { points_laws };

    fn is_value(_word: u32) -> bool {
        true
    }

    fn sum(a: u32, b: u32) -> u32 {
        a.wrapping_add(b)
    }

    fn difference(a: u32, b: u32) -> u32 {
        a.wrapping_sub(b)
    }

    fn product(a: u32, b: u32) -> u32 {
        a.wrapping_mul(b)
    }

    ghost code_of_kind = { refl };

    ghost zero_of_kind = { refl };

    ghost one_of_kind = { refl };
}
