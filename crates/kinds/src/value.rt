ghost use Rattle.std.specs.Prelude.{◌≡◌, ℕ};
ghost use Rattle.diagrams.specs.Kinds.{Kind, Laws};

/// A kind of value: which words are values, and how they are added, subtracted and multiplied. An impl says which kind of the
/// mathematics it is, and proves the laws of that kind.
pub trait Value {
    /// The byte that stands for the kind in the head of a sheet.
    const CODE: u8;
    /// The word that is neutral for the sum.
    const ZERO: u32;
    /// The word that is neutral for the product.
    const ONE: u32;

    ghost CODE: { ℕ };

    ghost ZERO: { ℕ };

    ghost ONE: { ℕ };

    ghost kind: { Kind };

    ghost laws: { Laws kind };

    /// Whether a word is a value of this kind.
    fn is_value(word: u32) -> bool
        ensures { result ≡ kind.value word };

    /// The sum of two values; zero where a word is no value.
    fn sum(a: u32, b: u32) -> u32
        ensures { result ≡ kind.sum a b };

    /// The first value less the second; zero where a word is no value.
    fn difference(a: u32, b: u32) -> u32
        ensures { result ≡ kind.difference a b };

    /// The product of two values; zero where a word is no value.
    fn product(a: u32, b: u32) -> u32
        ensures { result ≡ kind.product a b };

    ghost code_of_kind: { CODE ≡ kind.code };

    ghost zero_of_kind: { ZERO ≡ kind.zero };

    ghost one_of_kind: { ONE ≡ kind.one };
}
