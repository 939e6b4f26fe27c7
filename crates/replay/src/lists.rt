// The lists that calls are lent, and how they are printed.
use crate::failure::Failure;
use std::alloc::Global;
use std::fmt;

// How long a list this program lends at most.
const LONGEST: u32 = 16777216;

// The sheet of a table with 4,096 places and 32 marks is no longer than this.
const LONGEST_SHEET: u32 = 36940;

// How many entries a list of a length has.
pub fn checked_length(length: u32) -> Result<usize, Failure> {
    if length > LONGEST {
        return Err(Failure::LongList);
    }
    Ok(length as usize)
}

// The walk list and the output, as the calls leave them.
#[derive(Drop)]
pub struct Lists {
    heap: Global,
    pub walk: Vec<u32>,
    pub output: Vec<u8>,
}

impl Lists {
    pub fn new(heap: Global) -> Lists {
        Lists {
            heap,
            walk: Vec::new(heap),
            output: Vec::new(heap),
        }
    }

    // A walk list of so many numbers.
    pub fn set_walk(&mut self, length: u32, fill: u32) -> Result<(), Failure> {
        let length = checked_length(length)?;
        self.walk = vec![in self.heap; fill; length]?;
        Ok(())
    }

    // An output of so many bytes.
    pub fn set_output(&mut self, length: u32, fill: u32) -> Result<(), Failure> {
        let length = checked_length(length)?;
        let fill = u8::try_from(fill).map_err(|_| Failure::NotAByte)?;
        self.output = vec![in self.heap; fill; length]?;
        Ok(())
    }

    // The lists that a new table begins with.
    pub fn begin(&mut self, capacity: u16) -> Result<(), Failure> {
        self.set_walk(u32::from(capacity), 0)?;
        self.set_output(LONGEST_SHEET, 0)
    }
}

// A list in runs of equal numbers, each after a space: ` 7*0 3*5`.
#[derive(Drop)]
pub struct Runs<'a> {
    pub list: &'a [u32],
}

impl fmt::Display for Runs<'_> {
    fn fmt<W: fmt::Write>(&self, f: &mut fmt::Formatter<W>) -> fmt::Result {
        for run in self.list.chunk_by(|a, b| a == b) {
            if let [value, ..] = run {
                let count = run.len();
                write!(f, " {count}*{value}")?;
            }
        }
        Ok(())
    }
}
