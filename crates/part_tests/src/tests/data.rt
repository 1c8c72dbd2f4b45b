use engine_api::types::{Body, NoMemory, copy_body, parse_body};
use std::alloc::Global;
use std::test::Fail;
use struct_machine::links::{Link, ListLink, Steady};

// Whether data and a copy of them have these bytes.
fn are_copied(alloc: Global, body: &Body, bytes: &[u8]) -> Result<bool, NoMemory> {
    let copy = copy_body(alloc, body)?;
    Ok(body.bytes() == bytes && copy.bytes() == bytes)
}

#[test]
fn data_is_read_and_copied(rt: HostRuntime) -> Result<(), Fail> {
    let body = parse_body(rt.alloc(), b"abc-1").ok().ok_or("no data")?;
    assert!(rt; are_copied(rt.alloc(), &body, b"abc-1")?);
    Ok(())
}

// Whether three calls over a link that is never down are answered.
fn is_steady() -> bool {
    let mut link = Steady;
    link.ask().is_ok() && link.ask().is_ok() && link.ask().is_ok()
}

#[test]
fn listed_calls_are_down(rt: HostRuntime) -> Result<(), Fail> {
    let mut link = ListLink {
        calls: 0,
        fails: vec![in rt.alloc(); 2, 4]?,
        faults: 0,
    };
    for is_up in [true, false, true, false] {
        assert!(rt; link.ask().is_ok() == is_up);
    }
    assert!(rt; link.calls == 4 && link.faults == 2);
    assert!(rt; is_steady());
    Ok(())
}
