// A building call as a value: the calls of the specification, so that one function carries them all out. A rule of the project: a call that is kept for
// later is then a value, as no closure could be.
use building::operation::Operation;

#[derive(Clone, Copy)]
pub enum Build {
    Constant(u32),
    Mark(u32),
    // An operation on two handles.
    Combine(Operation, u32, u32),
    // A handle, a mark, and the constant that the mark is put to.
    Restrict(u32, u32, u32),
}

// A building call whose arguments were looked at: a value, a mark of the layout, the places of handles in use, whether a constant is 1.
#[derive(Clone, Copy)]
pub enum Checked {
    Constant(u32),
    Mark(u8),
    Combine(Operation, u16, u16),
    Restrict(u16, u8, bool),
}
