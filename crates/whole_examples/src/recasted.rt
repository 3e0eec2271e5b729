// Plans of the rack of 2 loggers and 1 bath, recast.
use cards::RunFault;
use checks::PlanFault;
use examples::given::{AT_GOAL, READ_UNSETTLED, SIDE_BY_SIDE, TWO_LEVELS};
use racks::Rack;
use recasts::recast;
use sheets::TooShort;
use std::process::Abort;
use std::test::Fail;
use task_sheets::TaskSheet;

// The two levels recast: levels 0, 6, 4 and 1.
const FOUR_LEVELS: &[u8; 46] = b"\
    \x00\x07\x00\x07\x00\x04\x00\x04\x00\x00\x00\x14\x00\x00\x00\x1a\x00\x00\x00\x1e\
    \x00\x02\x00\x02\x00\x03\x00\x01\x00\x05\x00\x01\x00\x00\x00\x01\x00\x06\x00\x01\
    \x00\x04\x00\x01\x00\x01";
// The steps side by side recast: one level 0, 1.
const TOGETHER: &[u8; 34] = b"\
    \x00\x07\x00\x07\x00\x01\x00\x02\x00\x00\x00\x14\x00\x00\x00\x1a\x00\x00\x00\x1c\
    \x00\x02\x00\x02\x00\x03\x00\x00\x00\x02\x00\x00\x00\x01";

// Recasts a task of the rack into the buffer.
fn recast_of(
    rt: &impl Abort,
    bytes: &[u8],
    out: &mut [u8],
) -> Result<Result<usize, RunFault>, Fail> {
    let rack = Rack::new(2, 1)?;
    let mut task = TaskSheet::new();
    assert!(rt; task.open(bytes).is_ok());
    Ok(recast(&rack, &task, out))
}

#[test]
fn two_levels_become_four(rt: HostRuntime) -> Result<(), Fail> {
    let mut out = [9; 48];
    assert_eq!(rt; recast_of(&rt, TWO_LEVELS, &mut out)?, Ok(46));
    let four_levels = *FOUR_LEVELS;
    assert_eq!(rt; &out[0..46], &four_levels[0..46]);
    assert_eq!(rt; &out[46..48], [9, 9].as_slice());
    Ok(())
}

#[test]
fn a_short_buffer_stays_as_it_was(rt: HostRuntime) -> Result<(), Fail> {
    let mut short = [9; 45];
    assert_eq!(rt;
        recast_of(&rt, TWO_LEVELS, &mut short)?,
        Err(RunFault::TooShort(TooShort { needed: 46 }))
    );
    assert_eq!(rt; short, [9; 45]);
    Ok(())
}

#[test]
fn two_levels_become_one(rt: HostRuntime) -> Result<(), Fail> {
    let mut out = [9; 34];
    assert_eq!(rt; recast_of(&rt, SIDE_BY_SIDE, &mut out)?, Ok(34));
    assert_eq!(rt; out, *TOGETHER);
    Ok(())
}

#[test]
fn strata_and_no_levels_stay_as_they_are(rt: HostRuntime) -> Result<(), Fail> {
    let mut again = [9; 46];
    assert_eq!(rt; recast_of(&rt, FOUR_LEVELS, &mut again)?, Ok(46));
    assert_eq!(rt; again, *FOUR_LEVELS);
    let mut out = [9; 28];
    assert_eq!(rt; recast_of(&rt, AT_GOAL, &mut out)?, Ok(28));
    assert_eq!(rt; out, *AT_GOAL);
    Ok(())
}

#[test]
fn a_refused_plan_writes_nothing(rt: HostRuntime) -> Result<(), Fail> {
    let mut out = [9; 40];
    let lacks = PlanFault::NeedMissing {
        level: 1,
        step: 4,
        fact: 4,
    };
    assert_eq!(rt;
        recast_of(&rt, READ_UNSETTLED, &mut out)?,
        Err(RunFault::Plan(lacks))
    );
    assert_eq!(rt; out, [9; 40]);
    Ok(())
}
