use plex_load::scripts::Act;
use plex_load::{make, summary};
use std::test::Fail;

#[test]
fn a_script_is_made(rt: HostRuntime) -> Result<(), Fail> {
    let script = make(rt.alloc(), 7)?;
    let lines = script.lines.items();
    assert!(rt; lines.len() == 4004);
    assert!(rt; lines[0].at == 8 && lines[4003].at == 4011);
    assert!(rt; matches!(lines[4].act, Act::Test(18)));
    Ok(())
}

#[test]
fn nothing_is_told_of_no_run(rt: HostRuntime) -> Result<(), Fail> {
    let text = summary(rt.alloc(), 7, &[], &[])?;
    let told =
        b"LOAD 7\nCALLS A 0\nCALLS B 0\nCALLS C 0\nCALLS D 0\nTESTS 0\nENTRIES 0\nREFUSED 0\nEND\n";
    assert!(rt; text.as_slice() == told.as_slice());
    Ok(())
}
