// Holding and letting go, sweeps, sizes and sheets, and the lists that are lent to them.
use crate::making::{given, laid_out, places, refused};
use kinds::{Points, Value, YesNo};
use std::process::Abort;
use std::test::Fail;
use stores::last::Last;
use stores::own::Own;
use tables::Open;

// The sheet of the product of two Shannon yes/no marks.
pub(crate) const PRODUCT: [u8; 50] = [
    6, 0, 1, 0, 1, 2, 0, 1, 0, 0, 4, 0, 2, 0, 0, 0, 0, 0, 4, 0, 2, 0, 1, 0, 0, 0, 5, 0, 3, 0, 1, 0,
    0, 1, 0, 5, 0, 3, 0, 0, 0, 0, 2, 0, 2, 0, 4, 0, 4, 0,
];

#[test]
fn the_sheet_of_a_product_has_50_bytes(rt: HostRuntime) -> Result<(), Fail> {
    let mut table = Open::<YesNo, Own>::make(laid_out(2)?, places(8)?, Own::new());
    let first = given(table.mark(0))?;
    let second = given(table.mark(1))?;
    let both = given(table.product(first, second))?;
    let mut walk = [7; 9];
    let mut output = [9; 52];
    assert_eq!(rt; given(table.write(both, &mut walk, &mut output))?, 50);
    let mut wanted = [9; 52];
    wanted[..50].copy_from_slice(&PRODUCT);
    assert!(rt; output == wanted);
    assert!(rt; walk == [0, 0, 0, 0, 0, 0, 0, 0, 7]);
    // One byte short: nothing is written.
    let mut short = [9; 49];
    assert_eq!(rt; refused(table.write(both, &mut walk, &mut short)), 12);
    assert!(rt; short == [9; 49]);
    // The released table writes the same bytes, and no more than it has room for.
    let table = table.release();
    let mut exact = [0; 50];
    assert_eq!(rt; given(table.write(both, &mut walk, &mut exact))?, 50);
    assert!(rt; exact == PRODUCT);
    Ok(())
}

#[test]
fn a_refused_walk_clears_its_list(rt: HostRuntime) -> Result<(), Fail> {
    let mut table = Open::<YesNo, Last>::make(laid_out(1)?, places(3)?, Last::new());
    let mark = given(table.mark(0))?;
    let mut walk = [5; 4];
    assert_eq!(rt; refused(table.size(3, &mut walk)), 6);
    assert!(rt; walk == [0, 0, 0, 5]);
    let mut output = [1; 4];
    let mut walk = [5; 3];
    assert_eq!(rt; refused(table.write(mark, &mut walk, &mut output)), 12);
    assert!(rt; walk == [0; 3]);
    assert!(rt; output == [1; 4]);
    // A list one entry short stays as it was; a handle that names nothing is told first.
    let mut short = [5; 2];
    assert_eq!(rt; refused(table.size(mark, &mut short)), 11);
    assert_eq!(rt; refused(table.size(9, &mut short)), 6);
    assert_eq!(rt; refused(table.write(mark, &mut short, &mut output)), 11);
    assert_eq!(rt; refused(table.write(9, &mut short, &mut output)), 6);
    assert_eq!(rt; refused(table.sweep(&mut short)), 11);
    assert!(rt; short == [5; 2]);
    // Nothing is lent: size 1, once the list is long enough.
    assert_eq!(rt; given(table.size(mark, &mut walk))?, 1);
    assert_eq!(rt; given(table.size(0, &mut walk))?, 0);
    Ok(())
}

// The sizes of a + b and of "or", a + b + a·b, of two yes/no marks whose levels have a type.
fn sizes(rt: &impl Abort, form: u32) -> Result<(u32, u32), Fail> {
    let mut layout = laid_out(2)?;
    assert_eq!(rt; refused(layout.set_type(0, form)), 0);
    assert_eq!(rt; refused(layout.set_type(1, form)), 0);
    let mut table = Open::<YesNo, Own>::make(layout, places(16)?, Own::new());
    let first = given(table.mark(0))?;
    let second = given(table.mark(1))?;
    let sum = given(table.sum(first, second))?;
    let both = given(table.product(first, second))?;
    let either = given(table.sum(sum, both))?;
    let mut walk = [0; 16];
    let size = given(table.size(sum, &mut walk))?;
    let table = table.release();
    Ok((size, given(table.size(either, &mut walk))?))
}

#[test]
fn sizes_depend_on_the_types(rt: HostRuntime) -> Result<(), Fail> {
    let (sum, either) = sizes(&rt, 0)?;
    assert_eq!(rt; sum, 3);
    assert_eq!(rt; either, 2);
    let (sum, either) = sizes(&rt, 1)?;
    assert_eq!(rt; sum, 2);
    assert_eq!(rt; either, 3);
    Ok(())
}

// Points, one positive Davio mark, a = mark + one: with a and a·a held a sweep frees 2 places of 7 and leaves 5.
#[test]
fn a_sweep_frees_what_is_not_held(rt: HostRuntime) -> Result<(), Fail> {
    let mut layout = laid_out(1)?;
    assert_eq!(rt; refused(layout.set_type(0, 1)), 0);
    let mut table = Open::<Points, Own>::make(layout, places(7)?, Own::new());
    let mark = given(table.mark(0))?;
    let a = given(table.sum(mark, 1))?;
    let square = given(table.product(a, a))?;
    assert_eq!(rt; given(table.hold(a))?, 1);
    assert_eq!(rt; given(table.hold(square))?, 1);
    let mut walk = [3; 8];
    assert_eq!(rt; given(table.sweep(&mut walk))?, 2);
    assert!(rt; walk == [0, 0, 0, 0, 0, 0, 0, 3]);
    assert_eq!(rt; given(table.sweep(&mut walk))?, 0);
    // Two places are free: two leaves fit, a third does not.
    assert_eq!(rt; refused(table.constant(50)), 0);
    assert_eq!(rt; refused(table.constant(60)), 0);
    assert_eq!(rt; refused(table.constant(70)), 25);
    // What was held grades as before.
    let table = table.release();
    assert_eq!(rt; given(table.grade(square, 0))?, 1);
    assert_eq!(rt; given(table.grade(square, 1))?, 4);
    Ok(())
}

// A result that was remembered before a sweep is not answered after it: its place holds something else by then.
#[test]
fn no_result_outlives_a_sweep(rt: HostRuntime) -> Result<(), Fail> {
    let mut table = Open::<Points, Own>::make(laid_out(2)?, places(16)?, Own::new());
    let first = given(table.mark(0))?;
    let second = given(table.mark(1))?;
    let sum = given(table.sum(first, second))?;
    assert_eq!(rt; given(table.hold(first))?, 1);
    assert_eq!(rt; given(table.hold(second))?, 1);
    let mut walk = [0; 16];
    assert_eq!(rt; given(table.sweep(&mut walk))?, 3);
    assert_eq!(rt; refused(table.size(sum, &mut walk)), 6);
    // Other rules take the places.
    for word in 40..43 {
        assert_eq!(rt; refused(table.constant(word)), 0);
    }
    let again = given(table.sum(first, second))?;
    let table = table.release();
    assert_eq!(rt; given(table.grade(again, 3))?, 2);
    assert_eq!(rt; given(table.grade(again, 1))?, 1);
    Ok(())
}

#[test]
fn holds_are_counted_from_0_to_65535(rt: HostRuntime) -> Result<(), Fail> {
    let mut table = Open::<YesNo, Last>::make(laid_out(1)?, places(4)?, Last::new());
    let mark = given(table.mark(0))?;
    assert_eq!(rt; refused(table.hold(3)), 6);
    assert_eq!(rt; refused(table.let_go(3)), 6);
    assert_eq!(rt; refused(table.let_go(mark)), 10);
    for _ in 0..65535 {
        assert_eq!(rt; refused(table.hold(mark)), 0);
    }
    assert_eq!(rt; refused(table.hold(mark)), 9);
    assert_eq!(rt; given(table.let_go(mark))?, 65534);
    assert_eq!(rt; given(table.hold(mark))?, 65535);
    Ok(())
}
