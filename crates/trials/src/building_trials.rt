// What the building calls answer.
use crate::making::{given, laid_out, places, refused};
use kinds::{Points, Value, YesNo};
use layouts::Layout;
use std::test::Fail;
use stores::Entry;
use stores::last::Last;
use stores::lent::Lent;
use stores::own::Own;
use tables::Open;

// Points, one positive Davio mark, a = mark + one: a·a grades 1 and 4 in a table of 7 places.
#[test]
fn a_square_fits_seven_places(rt: HostRuntime) -> Result<(), Fail> {
    let mut layout = laid_out(1)?;
    assert_eq!(rt; refused(layout.set_type(0, 1)), 0);
    let mut table = Open::<Points, Own>::make(layout, places(7)?, Own::new());
    let mark = given(table.mark(0))?;
    let one = given(table.constant(1))?;
    let a = given(table.sum(mark, one))?;
    let square = given(table.product(a, a))?;
    let table = table.release();
    assert_eq!(rt; table.grade(square, 0).unwrap_or(9), 1);
    assert_eq!(rt; table.grade(square, 1).unwrap_or(9), 4);
    Ok(())
}

// In a table of 6 places it is refused, and the 4 places from before stay in use: two more leaves fit, a third does not.
#[test]
fn a_square_does_not_fit_six_places(rt: HostRuntime) -> Result<(), Fail> {
    let mut layout = laid_out(1)?;
    assert_eq!(rt; refused(layout.set_type(0, 1)), 0);
    let mut table = Open::<Points, Last>::make(layout, places(6)?, Last::new());
    let mark = given(table.mark(0))?;
    let a = given(table.sum(mark, 1))?;
    assert_eq!(rt; refused(table.product(a, a)), 25);
    assert_eq!(rt; refused(table.constant(50)), 0);
    assert_eq!(rt; refused(table.constant(60)), 0);
    assert_eq!(rt; refused(table.constant(70)), 25);
    Ok(())
}

#[test]
fn restricting_mark_plus_one(rt: HostRuntime) -> Result<(), Fail> {
    let mut layout = laid_out(1)?;
    assert_eq!(rt; refused(layout.set_type(0, 1)), 0);
    let mut entries: [Option<Entry>; 2] = [None; 2];
    let mut table = Open::<Points, Lent<'_>>::make(layout, places(16)?, Lent::over(&mut entries));
    let mark = given(table.mark(0))?;
    let a = given(table.sum(mark, 1))?;
    let two = given(table.constant(2))?;
    assert_eq!(rt; given(table.restrict(a, 0, 1))?, two);
    assert_eq!(rt; given(table.restrict(a, 0, 0))?, 1);
    assert_eq!(rt; refused(table.restrict(99, 1, 2)), 2);
    assert_eq!(rt; refused(table.restrict(99, 0, 2)), 6);
    assert_eq!(rt; refused(table.restrict(a, 0, 2)), 7);
    assert_eq!(rt; refused(table.sum(a, 99)), 6);
    Ok(())
}

#[test]
fn points_wrap(rt: HostRuntime) -> Result<(), Fail> {
    let mut table = Open::<Points, Last>::make(laid_out(1)?, places(8)?, Last::new());
    let most = given(table.constant(4294967295))?;
    assert_eq!(rt; given(table.sum(most, 1))?, 0);
    Ok(())
}

// Yes/no: the sum of two Shannon marks has size 3: two nodes besides the second mark's. So six places hold it, and five do not.
#[test]
fn a_shannon_sum_of_two_marks_has_size_3(rt: HostRuntime) -> Result<(), Fail> {
    let layout = laid_out(2)?;
    let mut six = Open::<YesNo, Own>::make(layout, places(6)?, Own::new());
    let first = given(six.mark(0))?;
    let second = given(six.mark(1))?;
    let sum = given(six.sum(first, second))?;
    assert_eq!(rt; given(six.sum(second, first))?, sum);
    assert_eq!(rt; given(six.difference(sum, second))?, first);
    let mut five = Open::<YesNo, Own>::make(layout, places(5)?, Own::new());
    let first = given(five.mark(0))?;
    let second = given(five.mark(1))?;
    assert_eq!(rt; refused(five.sum(first, second)), 25);
    Ok(())
}

// In positive Davio it has size 2: one node besides the second mark's.
#[test]
fn a_davio_sum_of_two_marks_has_size_2(rt: HostRuntime) -> Result<(), Fail> {
    let mut layout = laid_out(2)?;
    assert_eq!(rt; refused(layout.set_type(0, 1)), 0);
    assert_eq!(rt; refused(layout.set_type(1, 1)), 0);
    let mut five = Open::<YesNo, Last>::make(layout, places(5)?, Last::new());
    let first = given(five.mark(0))?;
    let second = given(five.mark(1))?;
    assert_eq!(rt; refused(five.sum(first, second)), 0);
    let mut four = Open::<YesNo, Last>::make(layout, places(4)?, Last::new());
    let first = given(four.mark(0))?;
    let second = given(four.mark(1))?;
    assert_eq!(rt; refused(four.sum(first, second)), 25);
    Ok(())
}

// Builds a + b and a·b of two yes/no marks in a table of so many places, then a + b + a·b: the number of its refusal, 0 where it is given.
fn either_in(layout: Layout, number: u32) -> Result<u8, Fail> {
    let mut table = Open::<YesNo, Own>::make(layout, places(number)?, Own::new());
    let first = given(table.mark(0))?;
    let second = given(table.mark(1))?;
    let sum = given(table.sum(first, second))?;
    let both = given(table.product(first, second))?;
    Ok(refused(table.sum(sum, both)))
}

// "Or" of two marks has size 2 in Shannon: seven places are in use before, and one node comes to the second mark's.
#[test]
fn either_of_two_shannon_marks_has_size_2(rt: HostRuntime) -> Result<(), Fail> {
    let layout = laid_out(2)?;
    assert_eq!(rt; either_in(layout, 7)?, 25);
    assert_eq!(rt; either_in(layout, 8)?, 0);
    Ok(())
}

// In positive Davio it has size 3: six places are in use before, and two nodes come to the second mark's.
#[test]
fn either_of_two_davio_marks_has_size_3(rt: HostRuntime) -> Result<(), Fail> {
    let mut layout = laid_out(2)?;
    assert_eq!(rt; refused(layout.set_type(0, 1)), 0);
    assert_eq!(rt; refused(layout.set_type(1, 1)), 0);
    assert_eq!(rt; either_in(layout, 6)?, 25);
    assert_eq!(rt; either_in(layout, 7)?, 25);
    assert_eq!(rt; either_in(layout, 8)?, 0);
    Ok(())
}

#[test]
fn either_of_two_marks_grades_as_or(rt: HostRuntime) -> Result<(), Fail> {
    let mut table = Open::<YesNo, Last>::make(laid_out(2)?, places(8)?, Last::new());
    let first = given(table.mark(0))?;
    let second = given(table.mark(1))?;
    let sum = given(table.sum(first, second))?;
    let both = given(table.product(first, second))?;
    let either = given(table.sum(sum, both))?;
    let table = table.release();
    assert_eq!(rt; table.grade(either, 0).unwrap_or(9), 0);
    assert_eq!(rt; table.grade(either, 1).unwrap_or(9), 1);
    assert_eq!(rt; table.grade(either, 2).unwrap_or(9), 1);
    assert_eq!(rt; table.grade(either, 3).unwrap_or(9), 1);
    Ok(())
}
