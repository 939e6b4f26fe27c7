// Reading sheets: what is taken, and every fault with its byte place.
use crate::keeping::PRODUCT;
use crate::making::{given, laid_out, places, refused};
use kinds::{Value, YesNo};
use refusals::TableFault;
use std::process::Abort;
use std::test::Fail;
use stores::last::Last;
use stores::own::Own;
use tables::Open;

// A refusal's number and byte place, as the trials name a fault; 0 and the handle where the sheet is taken.
fn told(answer: Result<u32, TableFault>) -> (u8, usize) {
    match answer {
        Ok(handle) => (0, handle as usize),
        Err(fault) => (fault.refusal().number(), fault.place()),
    }
}

// What a yes/no table of two Shannon marks and so many places tells of some bytes.
fn read_in(rt: &impl Abort, number: u32, bytes: &[u8]) -> Result<(u8, usize), Fail> {
    let mut table = Open::<YesNo, Own>::make(laid_out(2)?, places(number)?, Own::new());
    let mut walk = [3; 8];
    let answer = told(table.read(bytes, &mut walk));
    assert!(rt; walk == [0; 8] || number < 8);
    Ok(answer)
}

// The sheet of the product with one byte put to another value.
fn with(at: usize, byte: u8) -> [u8; 50] {
    let mut bytes = PRODUCT;
    if at < 50 {
        bytes[at] = byte;
    }
    bytes
}

// The number and the byte place at which a fault is told.
fn fault(number: u8, place: usize) -> (u8, usize) {
    (number, place)
}

#[test]
fn records_are_whole_and_in_turn(rt: HostRuntime) -> Result<(), Fail> {
    assert!(rt; read_in(&rt, 8, &[])? == fault(13, 0));
    assert!(rt; read_in(&rt, 8, &PRODUCT[..49])? == fault(13, 44));
    assert!(rt; read_in(&rt, 8, &PRODUCT[..20])? == fault(13, 18));
    assert!(rt; read_in(&rt, 8, &with(2, 2))? == fault(14, 0));
    assert!(rt; read_in(&rt, 8, &with(12, 1))? == fault(14, 10));
    assert!(rt; read_in(&rt, 8, &with(12, 4))? == fault(14, 10));
    assert!(rt; read_in(&rt, 8, &with(0, 7))? == fault(15, 0));
    assert!(rt; read_in(&rt, 8, &with(10, 5))? == fault(15, 10));
    Ok(())
}

#[test]
fn the_head_is_the_tables(rt: HostRuntime) -> Result<(), Fail> {
    assert!(rt; read_in(&rt, 8, &with(4, 2))? == fault(16, 0));
    assert!(rt; read_in(&rt, 8, &with(6, 1))? == fault(16, 0));
    assert!(rt; read_in(&rt, 8, &with(9, 1))? == fault(16, 0));
    Ok(())
}

#[test]
fn leaves_and_nodes_keep_their_rules(rt: HostRuntime) -> Result<(), Fail> {
    assert!(rt; read_in(&rt, 3, &PRODUCT)? == fault(17, 35));
    assert!(rt; read_in(&rt, 8, &with(22, 2))? == fault(18, 18));
    // A level too deep, a child that is no earlier record, a child that stands no deeper.
    assert!(rt; read_in(&rt, 8, &with(30, 2))? == fault(19, 26));
    assert!(rt; read_in(&rt, 8, &with(33, 2))? == fault(19, 26));
    assert!(rt; read_in(&rt, 8, &with(39, 1))? == fault(19, 35));
    assert!(rt; read_in(&rt, 8, &with(33, 0))? == fault(20, 26));
    assert!(rt; read_in(&rt, 8, &with(22, 0))? == fault(21, 18));
    Ok(())
}

// The leaves exchanged, and the references to them mended.
const EXCHANGED: [u8; 50] = [
    6, 0, 1, 0, 1, 2, 0, 1, 0, 0, 4, 0, 2, 0, 1, 0, 0, 0, 4, 0, 2, 0, 0, 0, 0, 0, 5, 0, 3, 0, 1, 1,
    0, 0, 0, 5, 0, 3, 0, 0, 1, 0, 2, 0, 2, 0, 4, 0, 4, 0,
];

#[test]
fn the_end_is_right_and_the_order_that_of_writing(rt: HostRuntime) -> Result<(), Fail> {
    assert!(rt; read_in(&rt, 8, &with(48, 5))? == fault(22, 44));
    let mut longer = [0; 51];
    longer[..50].copy_from_slice(&PRODUCT);
    assert!(rt; read_in(&rt, 8, &longer)? == fault(23, 50));
    assert!(rt; read_in(&rt, 8, &EXCHANGED)? == fault(24, 10));
    Ok(())
}

#[test]
fn a_full_table_tells_the_first_record_without_room(rt: HostRuntime) -> Result<(), Fail> {
    let mut table = Open::<YesNo, Own>::make(laid_out(2)?, places(4)?, Own::new());
    let first = given(table.mark(0))?;
    let mut walk = [0; 4];
    assert!(rt; told(table.read(&PRODUCT, &mut walk)) == fault(25, 35));
    // Everything is as before: the second mark takes the place that is free.
    assert_eq!(rt; given(table.size(first, &mut walk))?, 1);
    assert_eq!(rt; refused(table.mark(1)), 0);
    // A list one entry short is told first.
    let mut short = [0; 3];
    assert!(rt; told(table.read(&[], &mut short)) == fault(11, 0));
    Ok(())
}

// What one table writes, another reads and writes again: the same bytes, whatever its store and capacity.
#[test]
fn a_sheet_is_read_as_it_was_written(rt: HostRuntime) -> Result<(), Fail> {
    let mut table = Open::<YesNo, Last>::make(laid_out(2)?, places(16)?, Last::new());
    let mut walk = [0; 16];
    let read = told(table.read(&PRODUCT, &mut walk));
    assert_eq!(rt; read.0, 0);
    let first = given(table.mark(0))?;
    let second = given(table.mark(1))?;
    let product = given(table.product(first, second))?;
    assert_eq!(rt; product as usize, read.1);
    let mut output = [0; 50];
    assert_eq!(rt; given(table.write(product, &mut walk, &mut output))?, 50);
    assert!(rt; output == PRODUCT);
    let table = table.release();
    assert_eq!(rt; given(table.grade(product, 3))?, 1);
    assert_eq!(rt; given(table.grade(product, 2))?, 0);
    // Opened again it takes calls as before, and knows the rule still.
    let mut table = table.reopen();
    assert_eq!(rt; given(table.product(second, first))?, product);
    Ok(())
}
