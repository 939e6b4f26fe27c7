// Why a sheet is not read: a fault of the bytes turns into one of the sheet, and that into one of the table, each carried whole.
ghost use Rattle.std.specs.Prelude.{◌≡◌};
ghost use Rattle.refusals.specs.declared.fault.SheetFault.TheVariants.{Bytes, Broken};
ghost use Rattle.refusals.specs.declared.fault.TableFault.TheVariants.{Sheet};
ghost use Rattle.refusals.specs.Faults.{sheet_refusal, sheet_place, table_refusal, table_place};

use crate::refusal::Refusal;

/// A record is missing or cut short.
#[derive(Clone, Copy, Debug, PartialEq, Eq)]
pub struct ByteFault {
    /// The byte place of the record.
    pub place: usize,
}

/// Why bytes are no sheet.
#[derive(Clone, Copy, Debug, PartialEq, Eq)]
pub enum SheetFault {
    /// They end within a record.
    Bytes(ByteFault),
    /// A rule of sheets is broken at a byte place.
    Broken { refusal: Refusal, place: usize },
}

/// Why a table does not take a sheet.
#[derive(Clone, Copy, Debug, PartialEq, Eq)]
pub enum TableFault {
    /// The bytes are no sheet of the table.
    Sheet(SheetFault),
    /// The walk list is shorter than the capacity.
    ShortList,
    /// The record at a byte place finds the table full.
    Full { place: usize },
}

impl Refusal {
    /// The fault of a sheet that breaks this rule at a byte place.
    pub fn at(self, place: usize) -> SheetFault
        ensures { result ≡ Broken self place }
    {
        SheetFault::Broken {
            refusal: self,
            place,
        }
    }
}

impl SheetFault {
    /// The refusal that tells of the fault.
    pub fn refusal(self) -> Refusal
        ensures { result ≡ sheet_refusal self }
    {
        match self {
            SheetFault::Bytes(_) => Refusal::RecordCut,
            SheetFault::Broken { refusal, .. } => refusal,
        }
    }

    /// The byte place of the fault.
    pub fn place(self) -> usize
        ensures { result ≡ sheet_place self }
    {
        match self {
            SheetFault::Bytes(fault) => fault.place,
            SheetFault::Broken { place, .. } => place,
        }
    }
}

impl TableFault {
    /// The refusal that tells of the fault.
    pub fn refusal(self) -> Refusal
        ensures { result ≡ table_refusal self }
    {
        match self {
            TableFault::Sheet(fault) => fault.refusal(),
            TableFault::ShortList => Refusal::WalkTooShort,
            TableFault::Full { .. } => Refusal::TableFull,
        }
    }

    /// The byte place of the fault; 0 where no byte is at fault.
    pub fn place(self) -> usize
        ensures { result ≡ table_place self }
    {
        match self {
            TableFault::Sheet(fault) => fault.place(),
            TableFault::ShortList => 0,
            TableFault::Full { place } => place,
        }
    }
}

impl From<ByteFault> for SheetFault {
    ghost from_gives = { λ e r. r ≡ Bytes e };

    fn from(fault: ByteFault) -> SheetFault {
        SheetFault::Bytes(fault)
    }
}

impl From<SheetFault> for TableFault {
    ghost from_gives = { λ e r. r ≡ Sheet e };

    fn from(fault: SheetFault) -> TableFault {
        TableFault::Sheet(fault)
    }
}
