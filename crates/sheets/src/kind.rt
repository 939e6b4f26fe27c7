ghost use Rattle.std.specs.Prelude.{◌≡◌};

/// What a record is: a sheet has a head first, then leaves and nodes, then an end.
#[derive(Clone, Copy, PartialEq, Eq)]
pub enum RecordKind {
    Head = 1,
    Leaf = 2,
    Node = 3,
    End = 4,
}

impl RecordKind {
    ghost use Rattle.diagrams.specs.Reading.{in_turn};
    ghost use Rattle.sheets.specs.Codes.{code, Coded};

    /// The kind's number in a frame.
    // Named, and no `From` for `u16`: what is written is the number, and `code` says so at the call.
    pub fn code(self) -> u16
        ensures { result ≡ code self }
    {
        self as u16
    }

    /// The kind that a number in a frame stands for, if it stands for one.
    // An Option and no `TryFrom`: a number that is no kind tells no error of its own, since a kind out of turn is refused alike.
    pub fn of_code(number: u16) -> Option<RecordKind>
        ensures { Coded number result }
    {
        match number {
            1 => Some(RecordKind::Head),
            2 => Some(RecordKind::Leaf),
            3 => Some(RecordKind::Node),
            4 => Some(RecordKind::End),
            _ => None,
        }
    }

    /// Whether a record of the kind may follow the head and `count` leaves and nodes.
    pub fn follows(self, count: usize) -> bool
        ensures { result ≡ in_turn count (code self) }
    {
        match self {
            RecordKind::Head => false,
            RecordKind::Leaf | RecordKind::Node => true,
            RecordKind::End => count > 0,
        }
    }
}
