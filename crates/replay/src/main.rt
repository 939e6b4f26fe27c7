// Replays a lane's journal on a rule table, and prints one line for each call.
#![tactic(auto)]

mod failure;
mod lane;
mod lists;
mod order;
mod reader;
mod refused;
mod session;
mod table;

use failure::{Failure, report};
use std::io::Read;
use std::process::ExitCode;
use std::{env, fs, io};

const HELP: &str = "replay FILE    carries out the journal in FILE
replay         carries out the journal on standard input

A journal has one command a line; # starts a comment.
  layout N, exchange A B, type M T        lay out the marks
  table KIND CAPACITY STORE               make a table: yesno or points; last, own or lent K
  NAME = constant W, NAME = mark M        build a rule, and name its handle
  NAME = sum A B, difference A B, product A B, restrict A M C
                                          build a rule from others
  hold A, let-go A                        keep a rule, give it up: the new count
  sweep                                   free what is not kept: how many places
  size A                                  how many nodes rule A has
  write A                                 the sheet of rule A, in hex
  NAME = read HEX                         read a sheet
  release, reopen                         release the table for grading, open it again
  grade A F                               the value that rule A gives fruit F
  walk K FILL, output K FILL              the lists that calls are lent
  show walk, show output                  these lists as they stand
Each command prints one line: its answer, or refused N and why.";

// All of standard input, bytes as they are.
fn standard_input(rt: &HostRuntime) -> io::Result<Vec<u8>> {
    let mut bytes = Vec::new(rt.alloc());
    rt.stdin().read_to_end(&mut bytes)?;
    Ok(bytes)
}

// Carries out what was read; where it cannot go on it says why on standard error.
fn replay(rt: &HostRuntime, read: io::Result<Vec<u8>>) -> Result<(), Failure> {
    match read {
        Ok(journal) => session::run(rt, &journal),
        Err(error) => report(rt, 0, Failure::Unreadable(error)),
    }
}

// What the words after the program's name ask for.
fn start(rt: &HostRuntime) -> Result<(), Failure> {
    let mut args = env::args(rt)?;
    let _program = args.next();
    match args.next() {
        None => replay(rt, standard_input(rt)),
        Some(word) if word.as_str() == "--help" => Ok(rt.println(HELP)?),
        Some(word) => replay(rt, fs::read(rt, word.as_str())),
    }
}

// Status 1 where the journal could not be carried out to its end: why stands on standard error by then.
fn main(rt: HostRuntime) -> ExitCode {
    match start(&rt) {
        Ok(()) => ExitCode::SUCCESS,
        Err(_failure) => ExitCode::FAILURE,
    }
}
