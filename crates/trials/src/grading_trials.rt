// What released tables grade.
use crate::making::{given, laid_out, places, refused};
use kinds::{Points, YesNo};
use std::test::Fail;
use stores::Entry;
use stores::last::Last;
use stores::lent::Lent;
use tables::Open;

#[test]
fn fruit_has_no_mark_past_the_layout(rt: HostRuntime) -> Result<(), Fail> {
    let mut table = Open::<YesNo, Last>::make(laid_out(2)?, places(8)?, Last::new());
    let mark = given(table.mark(1))?;
    let table = table.release();
    assert_eq!(rt; refused(table.grade(mark, 3)), 0);
    assert_eq!(rt; refused(table.grade(mark, 4)), 8);
    assert_eq!(rt; refused(table.grade(7, 4)), 6);
    assert_eq!(rt; refused(table.grade(4294967295, 0)), 6);
    assert_eq!(rt; table.grade(mark, 2).unwrap_or(9), 1);
    assert_eq!(rt; table.grade(mark, 1).unwrap_or(9), 0);
    Ok(())
}

#[test]
fn a_negative_davio_mark_of_points_adds_where_it_is_0(rt: HostRuntime) -> Result<(), Fail> {
    let mut layout = laid_out(1)?;
    assert_eq!(rt; refused(layout.set_type(0, 2)), 0);
    let mut entries: [Option<Entry>; 4] = [None; 4];
    let mut table = Open::<Points, Lent<'_>>::make(layout, places(4)?, Lent::over(&mut entries));
    // Its leaves are 1 and 4,294,967,295: both are in use with it.
    let mark = given(table.mark(0))?;
    assert_eq!(rt; refused(table.constant(4294967295)), 0);
    assert_eq!(rt; refused(table.constant(2)), 25);
    let table = table.release();
    assert_eq!(rt; table.grade(mark, 0).unwrap_or(9), 0);
    assert_eq!(rt; table.grade(mark, 1).unwrap_or(9), 1);
    Ok(())
}
