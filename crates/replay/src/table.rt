// The table of a session, and the calls on it.
use crate::failure::{Failure, Stop};
use crate::lane::Lane;
use journal::{Command, Line, unhex};
use kinds::Value;
use refusals::Refusal;
use stores::Store;
use tables::{Open, Released};

// What the calls of a session are made on.
pub trait Calls: Sized {
    // Releases the table for grading.
    fn release(self) -> Result<Self, Failure>;

    // Opens the table again.
    fn reopen(self) -> Result<Self, Failure>;

    // Makes any other call, and prints what it answers.
    fn call(&mut self, lane: &mut Lane<'_>, line: Line<'_>) -> Result<(), Stop>;
}

// There is no table yet.
#[derive(Drop)]
pub struct NoTable;

impl Calls for NoTable {
    fn release(self) -> Result<NoTable, Failure> {
        Err(Failure::NoTable)
    }

    fn reopen(self) -> Result<NoTable, Failure> {
        Err(Failure::NoTable)
    }

    fn call(&mut self, _lane: &mut Lane<'_>, _line: Line<'_>) -> Result<(), Stop> {
        Err(Stop::Failed(Failure::NoTable))
    }
}

// A table in its present state.
#[derive(Drop)]
pub enum Table<K: Value, S: Store> {
    Open(Open<K, S>),
    Released(Released<K, S>),
}

impl<K: Value + Drop, S: Store + Drop> Table<K, S> {
    // How many nodes are reached from a handle.
    fn size(&self, handle: u32, walk: &mut [u32]) -> Result<u32, Refusal> {
        match self {
            Table::Open(open) => open.size(handle, walk),
            Table::Released(released) => released.size(handle, walk),
        }
    }

    // Writes the sheet of a handle's rule, and answers its length.
    fn write(&self, handle: u32, walk: &mut [u32], output: &mut [u8]) -> Result<u32, Refusal> {
        match self {
            Table::Open(open) => open.write(handle, walk, output),
            Table::Released(released) => released.write(handle, walk, output),
        }
    }
}

impl<K: Value + Drop, S: Store + Drop> Calls for Table<K, S> {
    fn release(self) -> Result<Table<K, S>, Failure> {
        match self {
            Table::Open(open) => Ok(Table::Released(open.release())),
            Table::Released(_) => Err(Failure::NotOpen),
        }
    }

    fn reopen(self) -> Result<Table<K, S>, Failure> {
        match self {
            Table::Open(_) => Err(Failure::NotReleased),
            Table::Released(released) => Ok(Table::Open(released.reopen())),
        }
    }

    fn call(&mut self, lane: &mut Lane<'_>, line: Line<'_>) -> Result<(), Stop> {
        match line.command {
            Command::Size { handle } => {
                let handle = lane.handle(handle)?;
                let size = self.size(handle, &mut lane.lists.walk)?;
                lane.say(format_args!("size {size}"))?;
                Ok(())
            }
            Command::Write { handle } => {
                let handle = lane.handle(handle)?;
                let length = self.write(handle, &mut lane.lists.walk, &mut lane.lists.output)?;
                lane.say_sheet(length)?;
                Ok(())
            }
            _ => match self {
                Table::Open(open) => on_open(open, lane, line),
                Table::Released(released) => on_released(released, lane, line),
            },
        }
    }
}

// A call that only an open table takes.
fn on_open<K: Value + Drop, S: Store + Drop>(
    open: &mut Open<K, S>,
    lane: &mut Lane<'_>,
    line: Line<'_>,
) -> Result<(), Stop> {
    match line.command {
        Command::Hold { handle } => {
            let count = open.hold(lane.handle(handle)?)?;
            lane.say(format_args!("count {count}"))?;
        }
        Command::LetGo { handle } => {
            let count = open.let_go(lane.handle(handle)?)?;
            lane.say(format_args!("count {count}"))?;
        }
        Command::Sweep => {
            let freed = open.sweep(&mut lane.lists.walk)?;
            lane.say(format_args!("freed {freed}"))?;
        }
        command => {
            let handle = build(open, lane, command)?;
            lane.say_handle(line.binds, handle)?;
        }
    }
    Ok(())
}

// The handle that a call brings.
fn build<K: Value + Drop, S: Store + Drop>(
    open: &mut Open<K, S>,
    lane: &mut Lane<'_>,
    command: Command<'_>,
) -> Result<u32, Stop> {
    let handle = match command {
        Command::Constant { value } => open.constant(value)?,
        Command::Mark { mark } => open.mark(mark)?,
        Command::Sum { a, b } => open.sum(lane.handle(a)?, lane.handle(b)?)?,
        Command::Difference { a, b } => open.difference(lane.handle(a)?, lane.handle(b)?)?,
        Command::Product { a, b } => open.product(lane.handle(a)?, lane.handle(b)?)?,
        Command::Restrict {
            handle,
            mark,
            constant,
        } => open.restrict(lane.handle(handle)?, mark, constant)?,
        Command::Read { hex } => {
            let bytes = unhex(lane.heap(), hex).map_err(Failure::from)?;
            open.read(&bytes, &mut lane.lists.walk)?
        }
        _ => return Err(Stop::Failed(Failure::NotReleased)),
    };
    Ok(handle)
}

// A call that only a released table takes.
fn on_released<K: Value + Drop, S: Store + Drop>(
    released: &Released<K, S>,
    lane: &mut Lane<'_>,
    line: Line<'_>,
) -> Result<(), Stop> {
    let Command::Grade { handle, fruit } = line.command else {
        return Err(Stop::Failed(Failure::NotOpen));
    };
    let value = released.grade(lane.handle(handle)?, fruit)?;
    lane.say(format_args!("value {value}"))?;
    Ok(())
}
