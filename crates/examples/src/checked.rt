// Plans accepted and refused, from the bytes of both sheets.
use crate::given::{
    AT_GOAL, CHAIN, CHAIN_TASK, GOAL_MISSED, OTHER_COUNTS, RACK, READ_UNSETTLED, RING, RING_TASK,
    TWO_LEVELS,
};
use book_sheets::BookSheet;
use checks::{Arrangement, PlanFault, arrange, check_bytes};
use facts::FactSet;
use sheets::{Refusal, Sheet, SheetFault};
use std::process::Abort;
use std::test::Fail;
use task_sheets::TaskSheet;

// The set of the facts that are true in this row, from fact 0 on.
fn set(row: &[bool]) -> FactSet {
    let mut facts = FactSet::empty();
    for (p, held) in row.iter().enumerate() {
        if *held {
            facts.insert(p);
        }
    }
    facts
}

// What the check answers, and whether it left the set alone.
fn refused(rt: &impl Abort, book: &[u8], task: &[u8], fault: PlanFault) {
    let before = set(&[false, true]);
    let mut facts = before;
    assert_eq!(rt; check_bytes(book, task, &mut facts), Err(fault));
    assert!(rt; facts == before);
}

#[test]
fn two_levels_are_accepted(rt: HostRuntime) {
    let mut facts = FactSet::empty();
    assert_eq!(rt; check_bytes(RACK, TWO_LEVELS, &mut facts), Ok(()));
    assert!(rt; facts == set(&[true, true, false, false, false, true]));
}

#[test]
fn two_levels_have_one_order(rt: HostRuntime) -> Result<(), Fail> {
    let mut book = BookSheet::new();
    assert!(rt; book.open(RACK).is_ok());
    let mut task = TaskSheet::new();
    assert!(rt; task.open(TWO_LEVELS).is_ok());
    let mut plan = Arrangement::new();
    assert!(rt; arrange(&book, &task, &mut plan).is_ok());
    assert_eq!(rt; plan.count(), 4);
    for (u, step, level) in [(0, 0, 1), (1, 6, 1), (2, 4, 2), (3, 1, 2)] {
        let place = plan.place(u).ok_or("no such place")?;
        assert!(rt; place.step == step && place.level == level);
    }
    assert!(rt; plan.precedes(0, 1) && plan.precedes(1, 2) && plan.precedes(2, 3));
    assert!(rt; !plan.precedes(1, 0) && !plan.precedes(3, 3) && !plan.precedes(0, 4));
    Ok(())
}

#[test]
fn a_levels_own_adds_do_not_meet_its_needs(rt: HostRuntime) {
    let level = 1;
    refused(
        &rt,
        RACK,
        READ_UNSETTLED,
        PlanFault::NeedMissing {
            level,
            step: 4,
            fact: 4,
        },
    );
}

#[test]
fn goals_are_looked_for_at_the_end(rt: HostRuntime) {
    let mut facts = FactSet::empty();
    assert_eq!(rt; check_bytes(RACK, AT_GOAL, &mut facts), Ok(()));
    assert!(rt; facts == set(&[false, false, true]));
    refused(&rt, RACK, GOAL_MISSED, PlanFault::GoalMissing { fact: 0 });
}

#[test]
fn three_in_a_ring_have_no_order(rt: HostRuntime) {
    refused(&rt, RING, RING_TASK, PlanFault::NoOrder { level: 1 });
}

#[test]
fn some_order_is_enough(rt: HostRuntime) {
    let mut facts = FactSet::empty();
    assert_eq!(rt; check_bytes(CHAIN, CHAIN_TASK, &mut facts), Ok(()));
    assert!(rt; facts == set(&[false, true, true, true]));
}

// The first eleven bytes.
fn cut(bytes: &[u8]) -> &[u8] {
    bytes.get(..11).unwrap_or(bytes)
}

#[test]
fn counts_and_sheets_come_first(rt: HostRuntime) {
    refused(&rt, RACK, OTHER_COUNTS, PlanFault::Mismatch);
    let refusal = Refusal::Short;
    let place = 11;
    let sheet = Sheet::Book;
    let book = PlanFault::Sheet(SheetFault {
        sheet,
        refusal,
        place,
    });
    refused(&rt, cut(RACK), TWO_LEVELS, book);
    let sheet = Sheet::Task;
    let task = PlanFault::Sheet(SheetFault {
        sheet,
        refusal,
        place,
    });
    refused(&rt, RACK, cut(TWO_LEVELS), task);
}
