// Timetables of cards on the rack of 2 loggers and 1 bath.
use crate::given::{SIDE_BY_SIDE, TWO_LEVELS};
use boards::BitBoard;
use cards::{Card, issue};
use racks::Rack;
use sheets::TooShort;
use std::process::Abort;
use std::test::Fail;
use task_sheets::TaskSheet;
use timetables::{Measure, Seconds, StepCount, seconds, step_count, strata, timetable};

// The card of a task of the rack, newly issued.
fn issued(rt: &impl Abort, bytes: &[u8]) -> Result<Card, Fail> {
    let rack = Rack::new(2, 1)?;
    let mut task = TaskSheet::new();
    assert!(rt; task.open(bytes).is_ok());
    let mut board = BitBoard::new();
    let mut card = Card::new();
    assert_eq!(rt; issue(&rack, &mut board, &mut card, &task), Ok(()));
    Ok(card)
}

#[test]
fn two_levels_take_1980_seconds(rt: HostRuntime) -> Result<(), Fail> {
    let card = issued(&rt, TWO_LEVELS)?;
    let mut stratum = [StepCount { count: 9 }; 5];
    assert_eq!(rt; strata(&card, &mut stratum)?.count, 4);
    let weights = [60, 1800, 60, 60].map(|count| Seconds { count });
    let mut begins = [Seconds { count: 9 }; 5];
    assert_eq!(rt; timetable(&card, &weights, &mut begins)?.count, 1980);
    assert_eq!(rt; stratum.map(|place| place.count), [0, 1, 2, 3, 9]);
    assert_eq!(rt; begins.map(|place| place.count), [0, 60, 1860, 1920, 9]);
    Ok(())
}

#[test]
fn places_without_precedence_begin_together(rt: HostRuntime) -> Result<(), Fail> {
    let card = issued(&rt, SIDE_BY_SIDE)?;
    let mut stratum = [StepCount { count: 9 }; 2];
    assert_eq!(rt; strata(&card, &mut stratum)?.count, 1);
    assert_eq!(rt; stratum.map(|place| place.count), [0, 0]);
    let mut short = [StepCount { count: 9 }; 1];
    assert_eq!(rt; strata(&card, &mut short), Err(TooShort { needed: 2 }));
    assert_eq!(rt; short[0].count, 9);
    Ok(())
}

#[test]
fn sums_stop_at_the_top(rt: HostRuntime) {
    let steps = StepCount { count: 65_534 };
    assert_eq!(rt; steps.plus(StepCount { count: 1 }).count, 65_535);
    assert_eq!(rt; steps.plus(steps).count, 65_535);
    let seconds = Seconds { count: u32::MAX };
    assert_eq!(rt; seconds.plus(Seconds { count: 1 }).count, u32::MAX);
    assert!(rt; steps.at_most(&steps) && !seconds.at_most(&Seconds { count: 0 }));
}

#[test]
fn a_count_says_which_it_is(rt: HostRuntime) -> Result<(), Fail> {
    let steps = step_count::StepCount { count: 7 };
    let seconds = seconds::Seconds { count: 7 };
    let told = format!(in rt.alloc(); "{steps:?} {seconds:?}")?;
    assert_eq!(rt;
        told.as_str(),
        "StepCount { count: 7 } Seconds { count: 7 }"
    );
    Ok(())
}

#[test]
fn an_empty_card_ends_at_zero(rt: HostRuntime) -> Result<(), Fail> {
    let card = Card::new();
    let mut begins = [Seconds { count: 7 }];
    assert_eq!(rt; timetable(&card, &[], &mut begins)?.count, 0);
    assert_eq!(rt; begins[0].count, 7);
    assert_eq!(rt; strata(&card, &mut [])?.count, 0);
    Ok(())
}
