ghost use Rattle.std.specs.Prelude.{Some};
ghost use Rattle.refusals.specs.Refusals.{layer_text};

use std::fmt;

/// Where a fault of reading lies: in the bytes, in the sheet that they spell, or in the table that is to take it.
#[derive(Clone, Copy, Debug, PartialEq, Eq)]
pub enum Layer {
    Bytes,
    Sheet,
    Table,
}

impl fmt::Display for Layer {
    ghost output = { λ layer. Some (layer_text layer) };

    fn fmt<W: fmt::Write>(&self, f: &mut fmt::Formatter<W>) -> fmt::Result {
        f.write_str(match self {
            Layer::Bytes => "bytes",
            Layer::Sheet => "sheet",
            Layer::Table => "table",
        })
    }
}
