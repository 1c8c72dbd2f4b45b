use std::alloc::{AllocError, Global};
use std::test::Fail;
use struct_machine::sources::{MemSource, ReadEnd, StdSource, read_all};

// A source of these bytes, of which none was read.
fn source_of(alloc: Global, bytes: &[u8], fails: &[u64]) -> Result<MemSource, AllocError> {
    Ok(MemSource {
        bytes: bytes.to_vec(alloc)?,
        taken: 0,
        calls: 0,
        fails: fails.to_vec(alloc)?,
        faults: 0,
    })
}

// A source of so many equal bytes.
fn source_of_many(alloc: Global, count: usize, fails: &[u64]) -> Result<MemSource, AllocError> {
    let mut bytes = Vec::new(alloc);
    bytes.resize(count, b'x')?;
    source_of(alloc, &bytes, fails)
}

// Whether a reading ends with this text, or where none is given for the limit.
fn is_end(got: &Result<Vec<u8>, ReadEnd>, want: Option<&[u8]>, at: usize) -> bool {
    match (got, want) {
        (Ok(text), Some(want)) => text.as_slice() == want,
        (Err(ReadEnd::TooLong { limit }), None) => *limit == at,
        _ => false,
    }
}

// Whether five bytes are read so up to a limit.
fn reads(alloc: Global, limit: usize, want: Option<&[u8]>) -> Result<bool, AllocError> {
    let mut source = source_of(alloc, b"bytes", &[])?;
    let got = read_all(alloc, &mut source, limit);
    Ok(is_end(&got, want, limit))
}

#[test]
fn reads_all_there_is(rt: HostRuntime) -> Result<(), Fail> {
    for (limit, want) in [
        (5, Some(b"bytes".as_slice())),
        (9, Some(b"bytes".as_slice())),
        (4, None),
        (0, None),
    ] {
        assert!(rt; reads(rt.alloc(), limit, want)?, "at limit {limit}");
    }
    Ok(())
}

// Whether the second read fails.
fn fails_once(alloc: Global, source: &mut MemSource) -> bool {
    let end = read_all(alloc, source, 9000);
    matches!(end, Err(ReadEnd::ReadFault)) && source.faults == 1 && source.calls == 2
}

// Whether a further try takes what is left, which is a part.
fn takes_the_rest(alloc: Global, source: &mut MemSource) -> bool {
    let whole = source.bytes.len();
    let rest = whole.saturating_sub(source.taken);
    match read_all(alloc, source, 9000) {
        Ok(text) => 0 < rest && rest < whole && text.len() == rest && source.faults == 1,
        Err(_) => false,
    }
}

#[test]
fn a_read_fails_in_mid_stream(rt: HostRuntime) -> Result<(), Fail> {
    let mut source = source_of_many(rt.alloc(), 9000, &[2])?;
    let failed = fails_once(rt.alloc(), &mut source);
    assert!(rt; failed && takes_the_rest(rt.alloc(), &mut source));
    Ok(())
}

#[test]
fn a_large_source_is_refused(rt: HostRuntime) -> Result<(), Fail> {
    let mut source = source_of_many(rt.alloc(), 1048577, &[])?;
    let end = read_all(rt.alloc(), &mut source, 1048576);
    assert!(rt; is_end(&end, None, 1048576));
    Ok(())
}

// Gives one byte, and then an error.
#[derive(Drop)]
struct Cut(u8);

impl std::io::Read for Cut {
    fn read(&mut self, buf: &mut [u8]) -> std::io::Result<usize> {
        if self.0 == 0 || buf.is_empty() {
            return Err(std::io::Error::from(std::io::ErrorKind::Other));
        }
        buf[0] = self.0;
        self.0 = 0;
        Ok(1)
    }
}

// Whether all of a text is read, and no error counted.
fn reads_whole(alloc: Global) -> bool {
    let mut whole = StdSource {
        inner: b"bytes".as_slice(),
        faults: 0,
    };
    let end = read_all(alloc, &mut whole, 5);
    is_end(&end, Some(b"bytes".as_slice()), 5) && whole.faults == 0
}

// Whether the error behind a byte ends the reading, and is counted.
fn stops_at_an_error(alloc: Global) -> bool {
    let mut cut = StdSource {
        inner: Cut(b'a'),
        faults: 0,
    };
    let end = read_all(alloc, &mut cut, 5);
    matches!(end, Err(ReadEnd::ReadFault)) && cut.faults == 1
}

#[test]
fn errors_of_a_reader_are_counted(rt: HostRuntime) -> Result<(), Fail> {
    assert!(rt; reads_whole(rt.alloc()));
    assert!(rt; stops_at_an_error(rt.alloc()));
    Ok(())
}
