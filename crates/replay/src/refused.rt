// What is printed for a refused command.
use refusals::{Refusal, TableFault};
use std::fmt;

#[derive(Clone, Copy)]
pub enum Refused {
    // A call is refused.
    Call(Refusal),
    // A sheet is not read.
    Sheet(TableFault),
}

// The number of the refusal and its words; of a sheet also the layer and the byte place.
impl fmt::Display for Refused {
    fn fmt<W: fmt::Write>(&self, f: &mut fmt::Formatter<W>) -> fmt::Result {
        match self {
            Refused::Call(refusal) => {
                let number = refusal.number();
                write!(f, "refused {number}: {refusal}")
            }
            Refused::Sheet(fault) => {
                let refusal = fault.refusal();
                let number = refusal.number();
                let layer = refusal.layer();
                let place = fault.place();
                write!(f, "refused {number} {layer} {place}: {refusal}")
            }
        }
    }
}
