// What a journal has said so far: its layout, the lists that calls are lent, and the names of handles. The commands that need no table are
// carried out on it, and it prints what every command is answered.
use crate::failure::{Failure, Stop};
use crate::lists::{Lists, Runs};
use crate::order::Order;
use journal::{InHex, KindName, Line, Names, Operand, StoreName};
use layouts::{Capacity, Layout};
use std::alloc::Global;
use std::fmt;

#[derive(Drop)]
pub struct Lane<'r> {
    rt: &'r HostRuntime,
    layout: Option<Layout>,
    pub lists: Lists,
    names: Names,
}

impl<'r> Lane<'r> {
    pub fn new(rt: &'r HostRuntime) -> Lane<'r> {
        Lane {
            rt,
            layout: None,
            lists: Lists::new(rt.alloc()),
            names: Names::new(rt.alloc()),
        }
    }

    pub fn heap(&self) -> Global {
        self.rt.alloc()
    }

    // Prints an answer.
    pub fn say<D: fmt::Display + Drop>(&self, answer: D) -> Result<(), Failure> {
        self.rt.println(answer)?;
        Ok(())
    }

    // Prints that a command was carried out. The commonest answer of all, so it goes out as it is and is not formatted.
    pub fn say_ok(&self) -> Result<(), Failure> {
        self.rt.write_all(b"ok\n")?;
        Ok(())
    }

    // Prints an answer that may be long: it is put together first, and goes out in one piece.
    fn say_long<D: fmt::Display + Drop>(&self, answer: D) -> Result<(), Failure> {
        let line = format!(in self.heap(); "{answer}\n")?;
        self.rt.write_all(line.as_bytes())?;
        Ok(())
    }

    // Prints the sheet of so many bytes that a call wrote into the output.
    pub fn say_sheet(&self, length: u32) -> Result<(), Failure> {
        let output = &self.lists.output;
        let end = output.len().min(length as usize);
        let sheet = InHex {
            bytes: &output[..end],
        };
        self.say_long(format_args!("sheet {sheet}"))
    }

    // Binds a name to the handle that a call answered, and prints the handle.
    pub fn say_handle(&mut self, name: Option<&str>, handle: u32) -> Result<(), Failure> {
        if let Some(name) = name {
            self.names.bind(self.rt.alloc(), name, handle)?;
        }
        self.say(format_args!("handle {handle}"))
    }

    // What a command came to; nothing where it is refused, which is printed and leaves its name unbound.
    pub fn accepted<T>(
        &mut self,
        line: Line<'_>,
        answer: Result<T, Stop>,
    ) -> Result<Option<T>, Failure> {
        match answer {
            Ok(value) => Ok(Some(value)),
            Err(Stop::Refused(refused)) => {
                if let Some(name) = line.binds {
                    self.names.unbind(name);
                }
                self.say(refused)?;
                Ok(None)
            }
            Err(Stop::Failed(failure)) => Err(failure),
        }
    }

    // The handle that an operand names.
    pub fn handle(&self, operand: Operand<'_>) -> Result<u32, Failure> {
        self.names.handle(operand).ok_or(Failure::UnboundName)
    }

    pub fn begin(&mut self, marks: u32) -> Result<(), Stop> {
        self.layout = Some(Layout::begin(marks)?);
        Ok(self.say_ok()?)
    }

    // The table that is to be made of the layout.
    pub fn order(&self, kind: KindName, capacity: u32, store: StoreName) -> Result<Order, Stop> {
        Ok(Order {
            layout: self.layout.ok_or(Failure::NoLayout)?,
            kind,
            capacity: Capacity::new(capacity)?,
            store,
        })
    }

    pub fn exchange(&mut self, a: u32, b: u32) -> Result<(), Stop> {
        let layout = self.layout.as_mut().ok_or(Failure::NoLayout)?;
        layout.exchange(a, b)?;
        Ok(self.say_ok()?)
    }

    pub fn set_type(&mut self, mark: u32, to: u32) -> Result<(), Stop> {
        let layout = self.layout.as_mut().ok_or(Failure::NoLayout)?;
        layout.set_type(mark, to)?;
        Ok(self.say_ok()?)
    }

    pub fn set_walk(&mut self, length: u32, fill: u32) -> Result<(), Failure> {
        self.lists.set_walk(length, fill)?;
        self.say_ok()
    }

    pub fn set_output(&mut self, length: u32, fill: u32) -> Result<(), Failure> {
        self.lists.set_output(length, fill)?;
        self.say_ok()
    }

    pub fn show_walk(&self) -> Result<(), Failure> {
        let runs = Runs {
            list: &self.lists.walk,
        };
        self.say(format_args!("walk{runs}"))
    }

    pub fn show_output(&self) -> Result<(), Failure> {
        let hex = InHex {
            bytes: &self.lists.output,
        };
        self.say_long(format_args!("output {hex}"))
    }
}
