ghost use Rattle.std.specs.Prelude.{◌≡◌};
ghost use Rattle.sheets.specs.Faults.{number, sheet_notice, fault_on, Numbering};

// The two kinds of sheet.
#[derive(Clone, Copy, PartialEq, Eq, Debug)]
pub enum Sheet {
    Book,
    Task,
}

// Why a sheet is refused.
#[derive(Clone, Copy, PartialEq, Eq, Debug)]
pub enum Refusal {
    // the sheet ends before or inside a field
    Short = 1,
    // a count or a time is above its limit
    OverLimit = 2,
    // an offset is not where its part begins
    Misplaced = 3,
    // a fact is not below the number of facts, or a step not below the number of steps
    OutOfRange = 4,
    // a number is not above the one before it in its list
    NotAbove = 5,
    // a step deletes a fact that it adds
    AddedToo = 6,
    // a level has no steps
    EmptyLevel = 7,
    // the levels have more or fewer steps than the header says
    WrongTotal = 8,
    // bytes follow the last field
    Trailing = 9,
}

impl Refusal {
    // The refusal's number on the list of all refusals.
    pub fn number(&self) -> u8
        ensures { result ≡ number self.now }
    {
        *self as u8
    }
}

// A refusal, and the byte of the sheet that it names.
#[derive(Clone, Copy, PartialEq, Eq, Debug)]
pub struct Refused {
    pub refusal: Refusal,
    pub place: usize,
}

impl Refused {
    // The fault that this is on a sheet of that kind.
    pub fn on(self, sheet: Sheet) -> SheetFault
        ensures { result ≡ fault_on sheet self }
    {
        SheetFault {
            sheet,
            refusal: self.refusal,
            place: self.place,
        }
    }
}

// What is wrong with which sheet, and at which byte.
#[derive(Clone, Copy, PartialEq, Eq, Debug)]
pub struct SheetFault {
    pub sheet: Sheet,
    pub refusal: Refusal,
    pub place: usize,
}

impl SheetFault {
    // The refusal's number on the list of all refusals.
    pub fn number(&self) -> u8
        ensures { result ≡ (sheet_notice self.now).number }
    {
        self.refusal.number()
    }
}

// Every fault stands on the list of refusals, and each refusal has a number of its own.
pub fn every_fault_is_listed()
    ensures { Numbering }
{}
