ghost use Rattle.std.specs.Prelude.{◌≡◌};
ghost use Rattle.diagrams.specs.Layouts.{type_code};
ghost use Rattle.layouts.specs.Forms.{decomposition, formed};

use refusals::Refusal;

/// The type of a level: how the rule of a node there comes from those of low and high.
#[derive(Clone, Copy, Debug, PartialEq, Eq)]
pub enum Form {
    /// Low where the mark is 0, high where it is 1.
    Shannon,
    /// Low, plus high where the mark is 1.
    PositiveDavio,
    /// Low, plus high where the mark is 0.
    NegativeDavio,
}

impl TryFrom<u32> for Form {
    type Error = Refusal;

    ghost try_from_gives = { λ number r. r ≡ formed number };

    /// The type of a number from 0 to 2.
    fn try_from(number: u32) -> Result<Form, Refusal> {
        match number {
            0 => Ok(Form::Shannon),
            1 => Ok(Form::PositiveDavio),
            2 => Ok(Form::NegativeDavio),
            _ => Err(Refusal::NoSuchType),
        }
    }
}

impl Form {
    /// The number of the type, 0 to 2.
    pub fn number(self) -> u8
        ensures { result ≡ type_code (decomposition self) }
    {
        // Named, and no `From` for `u8`: sheets hold the number of a form, and `number` says so at the call.
        self as u8
    }
}
