// What a line of a journal asks for.

// A handle: its number, or the name that it was bound to.
#[derive(Clone, Copy)]
pub enum Operand<'a> {
    Number(u32),
    Name(&'a str),
}

#[derive(Clone, Copy)]
pub enum KindName {
    YesNo,
    Points,
}

// The store of a table; a lent one is a list of that many entries.
#[derive(Clone, Copy)]
pub enum StoreName {
    Last,
    Own,
    Lent(u32),
}

#[derive(Clone, Copy)]
pub enum Command<'a> {
    Layout {
        marks: u32,
    },
    Exchange {
        a: u32,
        b: u32,
    },
    SetType {
        mark: u32,
        to: u32,
    },
    Table {
        kind: KindName,
        capacity: u32,
        store: StoreName,
    },
    Walk {
        length: u32,
        fill: u32,
    },
    Output {
        length: u32,
        fill: u32,
    },
    Constant {
        value: u32,
    },
    Mark {
        mark: u32,
    },
    Sum {
        a: Operand<'a>,
        b: Operand<'a>,
    },
    Difference {
        a: Operand<'a>,
        b: Operand<'a>,
    },
    Product {
        a: Operand<'a>,
        b: Operand<'a>,
    },
    Restrict {
        handle: Operand<'a>,
        mark: u32,
        constant: u32,
    },
    // Hex of whole bytes, as `unhex` takes it.
    Read {
        hex: &'a [u8],
    },
    Hold {
        handle: Operand<'a>,
    },
    LetGo {
        handle: Operand<'a>,
    },
    Sweep,
    Size {
        handle: Operand<'a>,
    },
    Write {
        handle: Operand<'a>,
    },
    Grade {
        handle: Operand<'a>,
        fruit: u32,
    },
    Release,
    Reopen,
    ShowWalk,
    ShowOutput,
}

// A command, and the name that its handle is to be bound to.
#[derive(Clone, Copy)]
pub struct Line<'a> {
    pub binds: Option<&'a str>,
    pub command: Command<'a>,
}
