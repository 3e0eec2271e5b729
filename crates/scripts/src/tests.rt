use crate::line::request;
use crate::text::{ScriptFault, script};
use cards::{Attempt, Event, Request};
use std::test::Fail;

fn call(event: Event, place: usize) -> Option<Request> {
    Some(Request::Call(Attempt { event, place }))
}

#[test]
fn four_forms(rt: HostRuntime) {
    assert_eq!(rt; request("begin 0"), call(Event::Begin, 0));
    assert_eq!(rt; request("finish 255"), call(Event::Finish, 255));
    assert_eq!(rt; request("put back 007"), call(Event::PutBack, 7));
    assert_eq!(rt;
        request("look 18446744073709551615"),
        Some(Request::Look(18446744073709551615))
    );
}

#[test]
fn other_lines(rt: HostRuntime) {
    assert_eq!(rt; request(""), None);
    assert_eq!(rt; request("begin"), None);
    assert_eq!(rt; request("begin "), None);
    assert_eq!(rt; request("begin  1"), None);
    assert_eq!(rt; request("begin +1"), None);
    assert_eq!(rt; request("begin 1 "), None);
    assert_eq!(rt; request("Begin 1"), None);
    assert_eq!(rt; request("putback 1"), None);
    assert_eq!(rt; request("look 18446744073709551616"), None);
}

#[test]
fn whole_scripts(rt: HostRuntime) -> Result<(), Fail> {
    let heap = rt.alloc();
    assert_eq!(rt; script(heap, "")?.len(), 0);
    assert_eq!(rt; script(heap, "begin 0\nlook 1")?.len(), 2);
    assert_eq!(rt; script(heap, "begin 0\nlook 1\n")?.len(), 2);
    assert_eq!(rt;
        script(heap, "begin 0\n\nlook 1\n").err(),
        Some(ScriptFault::NoRequest { line: 2 })
    );
    assert_eq!(rt;
        script(heap, "begin 0\nlook 1\r\n").err(),
        Some(ScriptFault::NoRequest { line: 2 })
    );
    Ok(())
}
