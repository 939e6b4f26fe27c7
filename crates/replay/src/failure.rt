// Why a command is not carried out.
use crate::refused::Refused;
use journal::{Mistake, Unread};
use refusals::{Refusal, TableFault};
use std::alloc::AllocError;
use std::{fmt, io};

// Why a journal cannot go on.
#[derive(Drop)]
pub enum Failure {
    // The line is not a command.
    Line(Mistake),
    // A name that no command bound.
    UnboundName,
    NoLayout,
    NoTable,
    // A call that a released table does not take.
    NotOpen,
    // A call that an open table does not take.
    NotReleased,
    // A list of more entries than this program lends.
    LongList,
    // A fill of the output that is no byte.
    NotAByte,
    NoMemory,
    Unreadable(io::Error),
    // Standard output or standard error cannot be written.
    Unwritable,
}

// What to tell the journal's author.
impl fmt::Display for Failure {
    fn fmt<W: fmt::Write>(&self, f: &mut fmt::Formatter<W>) -> fmt::Result {
        match self {
            Failure::Line(mistake) => write!(f, "{mistake}"),
            Failure::UnboundName => f.write_str(
                "unbound name: bind it first, by NAME = and a command that answers a handle",
            ),
            Failure::NoLayout => f.write_str("no layout: begin one first, by layout N"),
            Failure::NoTable => f.write_str(
                "no table: make one first, by table KIND CAPACITY STORE",
            ),
            Failure::NotOpen => f.write_str("the table is released: this call needs an open table"),
            Failure::NotReleased => f.write_str("the table is open: release it first"),
            Failure::LongList => f.write_str(
                "number out of range: a list has at most 16777216 entries",
            ),
            Failure::NotAByte => f.write_str("number out of range: a byte is 0 to 255"),
            Failure::NoMemory => f.write_str("no memory is left"),
            Failure::Unreadable(error) => write!(f, "unreadable: {error}"),
            Failure::Unwritable => f.write_str("the answer cannot be written"),
        }
    }
}

impl From<io::Error> for Failure {
    fn from(_error: io::Error) -> Failure {
        Failure::Unwritable
    }
}

impl From<AllocError> for Failure {
    fn from(_error: AllocError) -> Failure {
        Failure::NoMemory
    }
}

impl From<Mistake> for Failure {
    fn from(mistake: Mistake) -> Failure {
        Failure::Line(mistake)
    }
}

impl From<Unread> for Failure {
    fn from(unread: Unread) -> Failure {
        match unread {
            Unread::Mistake(mistake) => Failure::Line(mistake),
            Unread::NoMemory => Failure::NoMemory,
        }
    }
}

// Says on standard error at which line a journal ends, and why.
pub fn report(rt: &HostRuntime, line: u64, failure: Failure) -> Result<(), Failure> {
    eprintln!(rt; "journal:{line}: {failure}")?;
    Err(failure)
}

// Why a command does not come to its answer.
#[derive(Drop)]
pub enum Stop {
    // It is refused, and the journal goes on.
    Refused(Refused),
    // The journal cannot go on.
    Failed(Failure),
}

impl From<Refusal> for Stop {
    fn from(refusal: Refusal) -> Stop {
        Stop::Refused(Refused::Call(refusal))
    }
}

impl From<TableFault> for Stop {
    fn from(fault: TableFault) -> Stop {
        Stop::Refused(Refused::Sheet(fault))
    }
}

impl From<Failure> for Stop {
    fn from(failure: Failure) -> Stop {
        Stop::Failed(failure)
    }
}
