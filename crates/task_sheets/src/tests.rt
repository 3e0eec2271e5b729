use crate::{Item, Part, TaskSheet};
use sheets::{Refusal, Sheet, SheetFault};
use std::process::Abort;
use std::test::Fail;

// Seven facts, seven steps, start 2 and 3, goal 5, levels {0, 6} and {1, 4}; then one byte more.
const LONGER: [u8; 43] = [
    0, 7, 0, 7, 0, 2, 0, 4, 0, 0, 0, 20, 0, 0, 0, 26, 0, 0, 0, 30, 0, 2, 0, 2, 0, 3, 0, 1, 0, 5, 0,
    2, 0, 0, 0, 6, 0, 2, 0, 1, 0, 4, 0,
];

// The number written at a byte, how many bytes are kept, and the refusal with its place.
const REFUSED: [(usize, u16, usize, Refusal, usize); 16] = [
    (0, 7, 0, Refusal::Short, 0),
    (0, 7, 19, Refusal::Short, 19),
    (0, 7, 41, Refusal::Short, 41),
    (0, 1025, 42, Refusal::OverLimit, 0),
    (6, 257, 42, Refusal::OverLimit, 6),
    (10, 21, 20, Refusal::Misplaced, 8),
    (14, 27, 26, Refusal::Misplaced, 12),
    (18, 31, 30, Refusal::Misplaced, 16),
    (22, 7, 42, Refusal::OutOfRange, 22),
    (34, 7, 42, Refusal::OutOfRange, 34),
    (24, 2, 42, Refusal::NotAbove, 24),
    (40, 1, 42, Refusal::NotAbove, 40),
    (36, 0, 42, Refusal::EmptyLevel, 36),
    (36, 3, 42, Refusal::WrongTotal, 36),
    (6, 5, 42, Refusal::WrongTotal, 6),
    (0, 7, 43, Refusal::Trailing, 42),
];

// The first bytes of a sheet.
fn front(bytes: &[u8], kept: usize) -> &[u8] {
    bytes.get(..kept).unwrap_or(bytes)
}

// The sheet with a number written at a byte.
fn changed(at: usize, value: u16) -> [u8; 43] {
    let mut bytes = LONGER;
    let [high, low] = value.to_be_bytes();
    if at < 42 {
        bytes[at] = high;
        bytes[at + 1] = low;
    }
    bytes
}

// A sheet that is refused leaves the one that was opened before.
fn refused(rt: &impl Abort, bytes: &[u8], fault: SheetFault) -> Result<(), Fail> {
    let mut sheet = TaskSheet::new();
    sheet.open(front(&LONGER, 42))?;
    assert_eq!(rt; sheet.open(bytes), Err(fault));
    assert_eq!(rt;
        (sheet.is_opened(), sheet.levels(), sheet.total()),
        (true, 2, 4)
    );
    Ok(())
}

#[test]
fn refuses(rt: HostRuntime) -> Result<(), Fail> {
    for (at, value, kept, refusal, place) in REFUSED {
        let bytes = changed(at, value);
        let fault = SheetFault {
            sheet: Sheet::Task,
            refusal,
            place,
        };
        refused(&rt, front(&bytes, kept), fault)?;
    }
    Ok(())
}

#[test]
fn reads(rt: HostRuntime) -> Result<(), Fail> {
    let mut sheet = TaskSheet::new();
    assert!(rt; sheet.item(Part::Start).is_none());
    assert!(rt; sheet.item(Part::Goal).is_none());
    sheet.open(front(&LONGER, 42))?;
    assert_eq!(rt;
        (sheet.facts(), sheet.steps(), sheet.levels(), sheet.total()),
        (7, 7, 2, 4)
    );
    assert!(rt; sheet.item(Part::Level(0)).is_none());
    assert!(rt; sheet.item(Part::Level(3)).is_none());
    let Some(Item::Level(part)) = sheet.item(Part::Level(2)) else {
        return Err(Fail::new("no second level"));
    };
    assert!(rt; part == [0, 2, 0, 1, 0, 4].as_slice());
    Ok(())
}

#[test]
fn goes_through_the_levels(rt: HostRuntime) -> Result<(), Fail> {
    let mut sheet = TaskSheet::new();
    sheet.open(front(&LONGER, 42))?;
    let mut levels = sheet.levels_in_turn();
    assert_eq!(rt; levels.len(), 2);
    for (first, second) in [(0, 6), (1, 4)] {
        let steps = levels.next().ok_or("too few levels")?;
        assert_eq!(rt;
            (steps.len(), steps.get(0), steps.get(1)),
            (2, Some(first), Some(second))
        );
    }
    assert!(rt; levels.next().is_none());
    Ok(())
}
