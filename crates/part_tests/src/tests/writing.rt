use std::alloc::Global;
use std::test::Fail;
use struct_machine::sources::{MemSink, NoMemory, StdSink, WriteFault, write_all};

// Whether a writing went through, or stopped behind so many bytes.
fn is_end(got: &Result<(), WriteFault>, stopped: Option<usize>) -> bool {
    match (got, stopped) {
        (Ok(()), None) => true,
        (Err(fault), Some(written)) => fault.written == written,
        _ => false,
    }
}

// Whether a writing ends so, with these bytes and no fault that isn't told.
fn ends_so(sink: &mut MemSink, stopped: Option<usize>, held: &[u8]) -> bool {
    let got = write_all(sink, b"ten bytes.");
    is_end(&got, stopped)
        && sink.bytes.as_slice() == held
        && (sink.faults == 0) == stopped.is_none()
}

// The same of a sink with such room, whose call of this number fails.
fn writes(
    alloc: Global,
    room: usize,
    fail: u64,
    stopped: Option<usize>,
    held: &[u8],
) -> Result<bool, NoMemory> {
    let fails = [fail].to_vec(alloc)?;
    let mut sink = MemSink::new(alloc, room, 3, fails)?;
    Ok(ends_so(&mut sink, stopped, held))
}

#[test]
fn writes_a_text_in_pieces(rt: HostRuntime) -> Result<(), Fail> {
    for (room, fail, stopped, held) in [
        (10, 0, None, b"ten bytes.".as_slice()),
        (10, 3, Some(6), b"ten by".as_slice()),
        (7, 0, Some(7), b"ten byt".as_slice()),
    ] {
        assert!(rt; writes(rt.alloc(), room, fail, stopped, held)?);
    }
    Ok(())
}

#[test]
fn errors_of_a_writer_are_counted(rt: HostRuntime) -> Result<(), Fail> {
    let mut place = [0u8; 4];
    let mut sink = StdSink {
        inner: place.as_mut_slice(),
        faults: 0,
    };
    let got = write_all(&mut sink, b"bytes");
    assert!(rt; is_end(&got, Some(4)) && sink.faults == 1);
    Ok(())
}
