// The sheet of the rack of 2 loggers and 1 bath, written and read back.
use crate::given::RACK;
use book_sheets::BookSheet;
use book_writer::write_book;
use books::Book;
use racks::Rack;
use sheets::TooShort;
use std::test::Fail;

#[test]
fn the_rack_has_its_sheet(rt: HostRuntime) -> Result<(), Fail> {
    let rack = Rack::new(2, 1)?;
    let mut out = [7; 133];
    assert_eq!(rt; write_book(&rack, &mut out), Ok(131));
    let rack_sheet = *RACK;
    assert_eq!(rt; &out[0..131], &rack_sheet[0..131]);
    assert_eq!(rt; &out[131..133], [7, 7].as_slice());
    let mut short = [7; 130];
    assert_eq!(rt;
        write_book(&rack, &mut short),
        Err(TooShort { needed: 131 })
    );
    assert_eq!(rt; short, [7; 130]);
    Ok(())
}

#[test]
fn the_sheet_reads_as_the_rack(rt: HostRuntime) -> Result<(), Fail> {
    let rack = Rack::new(2, 1)?;
    let mut sheet = BookSheet::new();
    assert!(rt; sheet.open(RACK).is_ok());
    for a in 0..8 {
        assert_eq!(rt; sheet.seconds(a), rack.seconds(a));
        for p in 0..8 {
            assert_eq!(rt; sheet.needs(a, p), rack.needs(a, p));
            assert_eq!(rt; sheet.adds(a, p), rack.adds(a, p));
            assert_eq!(rt; sheet.deletes(a, p), rack.deletes(a, p));
        }
    }
    Ok(())
}

// The sheet of 250 facts and one step that needs them all: 12 bytes of header, 11 of its row, two for each fact.
fn longest_list() -> [u8; 523] {
    let mut sheet = [0; 523];
    let front =
        *b"\x00\xfa\x00\x01\x00\x00\x00\x0c\x00\x00\x00\x17\x00\x00\x00\x17\x00\x00\x00\x01\xfa\x00\x00";
    sheet[..23].copy_from_slice(&front);
    for p in 0..250 {
        sheet[24 + 2 * p as usize] = p;
    }
    sheet
}

// The number and the place of the refusal of these bytes, if they are refused.
fn refusal(bytes: &[u8]) -> Option<(u8, usize)> {
    let mut sheet = BookSheet::new();
    let fault = sheet.open(bytes).err()?;
    Some((fault.refusal.number(), fault.place))
}

#[test]
fn lists_have_at_most_250_facts(rt: HostRuntime) {
    let mut sheet = longest_list();
    assert_eq!(rt; refusal(&sheet), None);
    sheet[20] = 251;
    assert_eq!(rt; refusal(&sheet), Some((2, 20)));
}
