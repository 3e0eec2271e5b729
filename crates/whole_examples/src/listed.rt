// Listings of the worked sheets, and of sheets that are refused.
use examples::given::{
    AT_GOAL, GOAL_MISSED, OTHER_COUNTS, RACK, READ_UNSETTLED, RING, RING_TASK, TWO_LEVELS,
};
use listings::list;
use sheets::TooShort;
use std::process::Abort;
use std::test::Fail;

// The text of two levels, 175 bytes.
const TWO_LEVELS_LISTED: &[u8; 175] = b"\
    places 4 levels 2 strata 4 seconds 1980\n\
    0 step 0 level 1 stratum 0 at 0\n\
    1 step 6 level 1 stratum 1 at 60\n\
    2 step 4 level 2 stratum 2 at 1860\n\
    3 step 1 level 2 stratum 3 at 1920\n";

// Whether the text lists the sheets, the bytes behind it untouched.
fn lists(rt: &impl Abort, book: &[u8], task: &[u8], text: &[u8]) {
    let mut out = [7; 177];
    assert_eq!(rt; list(book, task, &mut out), Ok(text.len()));
    assert!(rt; out.starts_with(text));
    assert_eq!(rt; out[176], 7);
}

#[test]
fn two_levels_are_listed(rt: HostRuntime) {
    lists(&rt, RACK, TWO_LEVELS, TWO_LEVELS_LISTED);
    let mut short = [7; 174];
    assert_eq!(rt;
        list(RACK, TWO_LEVELS, &mut short),
        Err(TooShort { needed: 175 })
    );
    assert_eq!(rt; short, [7; 174]);
}

#[test]
fn a_plan_without_levels_is_one_line(rt: HostRuntime) {
    lists(
        &rt,
        RACK,
        AT_GOAL,
        b"places 0 levels 0 strata 0 seconds 0\n",
    );
}

#[test]
fn refusals_are_one_line(rt: HostRuntime) {
    lists(&rt, b"", b"", b"refused 1\n");
    lists(&rt, RACK, b"", b"refused 1\n");
    lists(&rt, RACK, OTHER_COUNTS, b"refused 10\n");
    lists(&rt, RACK, READ_UNSETTLED, b"refused 11\n");
    lists(&rt, RING, RING_TASK, b"refused 12\n");
    lists(&rt, RACK, GOAL_MISSED, b"refused 13\n");
    let mut short = [7; 9];
    assert_eq!(rt; list(b"", b"", &mut short), Err(TooShort { needed: 10 }));
    assert_eq!(rt; short, [7; 9]);
}

#[test]
fn long_sheets_are_not_opened(rt: HostRuntime) -> Result<(), Fail> {
    let longest = vec![in rt.alloc(); 0u8; 65536]?;
    let longer = vec![in rt.alloc(); 0u8; 65537]?;
    lists(&rt, b"", longer.as_slice(), b"refused 19\n");
    lists(&rt, longer.as_slice(), TWO_LEVELS, b"refused 19\n");
    lists(&rt, longest.as_slice(), longer.as_slice(), b"refused 19\n");
    lists(&rt, RACK, longest.as_slice(), b"refused 3\n");
    Ok(())
}
