ghost use Rattle.std.specs.Prelude.{◌≡◌};
ghost use Rattle.layouts.specs.Levels.{plain};

use crate::form::Form;

/// What stands on a level: a mark, with its type.
#[derive(Clone, Copy, Debug, PartialEq, Eq)]
pub(crate) struct Level {
    pub(crate) mark: u8,
    pub(crate) form: Form,
}

impl Level {
    /// A level that stands for itself.
    pub(crate) fn plain(number: u8) -> Level
        ensures { result ≡ plain number }
    {
        Level {
            mark: number,
            form: Form::Shannon,
        }
    }
}
