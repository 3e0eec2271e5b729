use crate::*;
use books::Book;
use std::process::Abort;
use std::test::Fail;

fn refused(rt: &impl Abort, loggers: usize, baths: usize) -> Result<(), Fail> {
    match Rack::new(loggers, baths) {
        Ok(_) => Err(Fail::new("a rack")),
        Err(fault) => {
            assert_eq!(rt; fault.number(), 20);
            Ok(())
        },
    }
}

#[test]
fn largest_and_none(rt: HostRuntime) -> Result<(), Fail> {
    let rack = Rack::new(128, 1)?;
    assert_eq!(rt; rack.facts(), 385);
    assert_eq!(rt; rack.steps(), 385);
    for (loggers, baths) in [
        (129, 1),
        (1, 129),
        (0, 1),
        (1, 0),
        (usize::MAX, usize::MAX),
        (1, usize::MAX),
        (1 << 32, 1 << 32),
    ] {
        refused(&rt, loggers, baths)?;
    }
    Ok(())
}

// Step `a` of the rack needs, adds and deletes just the facts of these digits, and takes so long.
fn is_step(
    rt: &impl Abort,
    rack: &Rack,
    a: usize,
    needs: &[u8],
    adds: &[u8],
    deletes: &[u8],
    seconds: u32,
) {
    for digit in b'0'..=b'8' {
        let p = (digit - b'0') as usize;
        assert_eq!(rt; rack.needs(a, p), needs.contains(&digit));
        assert_eq!(rt; rack.adds(a, p), adds.contains(&digit));
        assert_eq!(rt; rack.deletes(a, p), deletes.contains(&digit));
    }
    assert_eq!(rt; rack.seconds(a), seconds);
}

#[test]
fn two_loggers_one_bath(rt: HostRuntime) -> Result<(), Fail> {
    let rack = Rack::new(2, 1)?;
    assert_eq!(rt; rack.facts(), 7);
    assert_eq!(rt; rack.steps(), 7);
    is_step(&rt, &rack, 0, b"2", b"0", b"24", 60);
    is_step(&rt, &rack, 1, b"3", b"1", b"34", 60);
    is_step(&rt, &rack, 2, b"0", b"2", b"0", 60);
    is_step(&rt, &rack, 3, b"1", b"3", b"1", 60);
    is_step(&rt, &rack, 4, b"04", b"5", b"", 60);
    is_step(&rt, &rack, 5, b"14", b"6", b"", 60);
    is_step(&rt, &rack, 6, b"", b"4", b"", 1800);
    is_step(&rt, &rack, 7, b"", b"", b"", 0);
    Ok(())
}

#[test]
fn words(rt: HostRuntime) -> Result<(), Fail> {
    let rack = Rack::new(2, 3)?;
    assert_eq!(rt;
        rack.number(RackStep::TakeOut { logger: 1, bath: 2 }),
        Some(11)
    );
    assert_eq!(rt; rack.number(RackFact::Settled { bath: 3 }), None);
    let step = rack.name::<RackStep>(11).ok_or("no step 11")?;
    assert_eq!(rt;
        step.to_string(rt.alloc())?.as_str(),
        "take logger 1 out of bath 2"
    );
    let fact = rack.name::<RackFact>(7).ok_or("no fact 7")?;
    assert_eq!(rt;
        fact.to_string(rt.alloc())?.as_str(),
        "logger 1 on the shelf"
    );
    Ok(())
}
