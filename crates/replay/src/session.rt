// A journal from its first line to its last: one session after the other, each with its own table or with none.
ghost use Rattle.std.specs.Prelude.{length};
ghost use Rattle.replay.specs.Lines.{Read};

use crate::failure::{Failure, Stop, report};
use crate::lane::Lane;
use crate::lists::checked_length;
use crate::order::Order;
use crate::reader::Reader;
use crate::table::{Calls, NoTable, Table};
use journal::{Command, KindName, Line, StoreName};
use kinds::{Points, Value, YesNo};
use stores::last::Last;
use stores::lent::Lent;
use stores::own::Own;
use stores::{Entry, Store};
use tables::Open;

// What the next session begins with. Whether there is a next session is an Option of this, so this is no Option.
#[derive(Clone, Copy)]
enum Next {
    NoTable,
    Table(Order),
}

// A journal that is being carried out.
#[derive(Drop)]
struct Replay<'r, 'j> {
    lane: Lane<'r>,
    reader: Reader<'j>,
}

impl<'r, 'j> Replay<'r, 'j> {
    // The commands up to the one that begins another session, if there is one.
    fn serve<T: Calls + Drop>(&mut self, table: T) -> Result<Option<Next>, Failure>
        ensures { Read result (length self.old.reader.rest.now) (length self.new.reader.rest.now) }
    {
        let mut table = table;
        while let Some(line) = self.reader.next_command()? {
            match line.command {
                Command::Layout { marks } => {
                    let begun = self.lane.begin(marks);
                    if self.lane.accepted(line, begun)?.is_some() {
                        return Ok(Some(Next::NoTable));
                    }
                }
                Command::Table {
                    kind,
                    capacity,
                    store,
                } => {
                    let order = self.lane.order(kind, capacity, store);
                    if let Some(order) = self.lane.accepted(line, order)? {
                        return Ok(Some(Next::Table(order)));
                    }
                }
                Command::Release => {
                    table = table.release()?;
                    self.lane.say_ok()?;
                }
                Command::Reopen => {
                    table = table.reopen()?;
                    self.lane.say_ok()?;
                }
                _ => {
                    let done = carry_out(&mut self.lane, &mut table, line);
                    self.lane.accepted(line, done)?;
                }
            }
        }
        Ok(None)
    }

    // A session with a table over a store.
    fn with_store<K: Value + Drop, S: Store + Drop>(
        &mut self,
        order: Order,
        store: S,
    ) -> Result<Option<Next>, Failure>
        ensures { Read result (length self.old.reader.rest.now) (length self.new.reader.rest.now) }
    {
        let open = Open::<K, S>::make(order.layout, order.capacity, store);
        self.lane.say_ok()?;
        self.serve(Table::Open(open))
    }

    // A session with a table of a kind.
    fn with_kind<K: Value + Drop>(&mut self, order: Order) -> Result<Option<Next>, Failure>
        ensures { Read result (length self.old.reader.rest.now) (length self.new.reader.rest.now) }
    {
        match order.store {
            StoreName::Last => self.with_store::<K, Last>(order, Last::new()),
            StoreName::Own => self.with_store::<K, Own>(order, Own::new()),
            StoreName::Lent(length) => {
                let length = checked_length(length)?;
                let mut entries = vec![in self.lane.heap(); None::<Entry>; length]?;
                self.with_store::<K, Lent<'_>>(order, Lent::over(&mut entries))
            }
        }
    }

    // A session from its beginning.
    fn session(&mut self, next: Next) -> Result<Option<Next>, Failure>
        ensures { Read result (length self.old.reader.rest.now) (length self.new.reader.rest.now) }
    {
        let order = match next {
            Next::NoTable => return self.serve(NoTable),
            Next::Table(order) => order,
        };
        self.lane.lists.begin(order.capacity.get())?;
        match order.kind {
            KindName::YesNo => self.with_kind::<YesNo>(order),
            KindName::Points => self.with_kind::<Points>(order),
        }
    }

    // One session after the other.
    fn sessions(&mut self) -> Result<(), Failure> {
        let mut next = Next::NoTable;
        while let Some(after) = self.session(next)? {
            next = after;
        }
        Ok(())
    }
}

// Carries out a command that neither begins a session nor releases or opens the table, and prints what it is answered.
fn carry_out<T: Calls>(lane: &mut Lane<'_>, table: &mut T, line: Line<'_>) -> Result<(), Stop> {
    match line.command {
        Command::Exchange { a, b } => lane.exchange(a, b),
        Command::SetType { mark, to } => lane.set_type(mark, to),
        Command::Walk { length, fill } => Ok(lane.set_walk(length, fill)?),
        Command::Output { length, fill } => Ok(lane.set_output(length, fill)?),
        Command::ShowWalk => Ok(lane.show_walk()?),
        Command::ShowOutput => Ok(lane.show_output()?),
        _ => table.call(lane, line),
    }
}

/// Carries out a journal. What is not a command ends it, after a line on standard error that says where and why.
pub fn run(rt: &HostRuntime, journal: &[u8]) -> Result<(), Failure> {
    let reader = Reader {
        rest: journal,
        line: 0,
    };
    let lane = Lane::new(rt);
    let mut replay = Replay { lane, reader };
    let ended = replay.sessions();
    ended.or_else(|failure| report(rt, replay.reader.line, failure))
}
