// Layouts, capacities, constants and marks at the edges of what is taken.
use kinds::{Points, YesNo};
use layouts::{Capacity, Layout};
use refusals::Refusal;
use std::test::Fail;
use stores::last::Last;
use stores::own::Own;
use tables::Open;

// The number of a refusal, 0 where the call is accepted: the refusals' numbers, which trials name, begin at 1.
pub(crate) fn refused<T: Drop>(answer: Result<T, Refusal>) -> u8 {
    answer.err().map_or(0, Refusal::number)
}

// A layout of so many marks.
pub(crate) fn laid_out(marks: u32) -> Result<Layout, Fail> {
    Layout::begin(marks).map_err(|_| Fail::new("a layout has 1 to 32 marks"))
}

// A capacity of so many places.
pub(crate) fn places(number: u32) -> Result<Capacity, Fail> {
    Capacity::new(number).map_err(|_| Fail::new("a capacity is 2 to 4096"))
}

// The handle that a call answers.
pub(crate) fn given(answer: Result<u32, Refusal>) -> Result<u32, Fail> {
    answer.map_err(|_| Fail::new("the call should be accepted"))
}

#[test]
fn layouts_have_one_to_thirty_two_marks(rt: HostRuntime) {
    assert_eq!(rt; refused(Layout::begin(0)), 1);
    assert_eq!(rt; refused(Layout::begin(1)), 0);
    assert_eq!(rt; refused(Layout::begin(32)), 0);
    assert_eq!(rt; refused(Layout::begin(33)), 1);
}

#[test]
fn levels_and_types_are_checked_in_order(rt: HostRuntime) -> Result<(), Fail> {
    let mut layout = laid_out(2)?;
    assert_eq!(rt; refused(layout.exchange(0, 1)), 0);
    assert_eq!(rt; layout.mark(0), 1);
    assert_eq!(rt; layout.level(0), 1);
    assert_eq!(rt; refused(layout.exchange(2, 0)), 2);
    assert_eq!(rt; refused(layout.set_type(2, 9)), 2);
    assert_eq!(rt; refused(layout.set_type(1, 3)), 3);
    assert_eq!(rt; refused(layout.set_type(1, 2)), 0);
    assert_eq!(rt; layout.form(0).number(), 2);
    assert_eq!(rt; layout.form(1).number(), 0);
    Ok(())
}

#[test]
fn capacities_go_from_two_to_4096(rt: HostRuntime) {
    assert_eq!(rt; refused(Capacity::new(1)), 4);
    assert_eq!(rt; refused(Capacity::new(2)), 0);
    assert_eq!(rt; refused(Capacity::new(4096)), 0);
    assert_eq!(rt; refused(Capacity::new(4097)), 4);
}

#[test]
fn a_yes_no_mark_needs_three_places(rt: HostRuntime) -> Result<(), Fail> {
    let layout = laid_out(1)?;
    let mut small = Open::<YesNo, Last>::make(layout, places(2)?, Last::new());
    assert_eq!(rt; refused(small.mark(0)), 25);
    assert_eq!(rt; refused(small.constant(1)), 0);
    let mut large = Open::<YesNo, Last>::make(layout, places(3)?, Last::new());
    assert_eq!(rt; refused(large.mark(0)), 0);
    assert_eq!(rt; refused(large.mark(1)), 2);
    assert_eq!(rt; refused(large.constant(2)), 5);
    Ok(())
}

#[test]
fn equal_rules_have_equal_handles(rt: HostRuntime) -> Result<(), Fail> {
    let mut table = Open::<Points, Own>::make(laid_out(3)?, places(64)?, Own::new());
    let mark = given(table.mark(2))?;
    let seven = given(table.constant(7))?;
    assert_eq!(rt; given(table.mark(2))?, mark);
    assert_eq!(rt; given(table.constant(7))?, seven);
    assert_ne!(rt; mark, seven);
    Ok(())
}
