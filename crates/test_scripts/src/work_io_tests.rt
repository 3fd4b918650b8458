//! What no clause says: worked runs, std's readers and writers, and calls that have to succeed.
use std::alloc::{AllocError, Global};
use std::io;
use std::io::{ErrorKind, Read, Write};
use std::process::Abort;
use std::test::Fail;
use work_io::adapters::{ReadSource, WriteSink};
use work_io::ends::{Failed, Sink, Source};
use work_io::memory::{MemSink, MemSource};
use work_io::whole::{ReadError, put_all, read_all};

/// A reader of one byte a call, of which the second is interrupted and the fourth fails.
#[derive(Drop)]
struct FaultyReader {
    calls: u8,
}

impl Read for FaultyReader {
    fn read(&mut self, buf: &mut [u8]) -> io::Result<usize> {
        let call = self.calls;
        self.calls = call.saturating_add(1);
        match call {
            1 => Err(io::Error::new(ErrorKind::Interrupted, "a signal")),
            3 => Err(io::Error::new(ErrorKind::Other, "a fault")),
            0 | 2 | 4 => {
                if buf.is_empty() {
                    return Ok(0);
                }
                buf[0] = b'a' + call;
                Ok(1)
            }
            _ => Ok(0),
        }
    }
}

/// A writer of one byte a call, of which the second is interrupted, the third takes nothing and the
/// fifth fails.
#[derive(Drop)]
struct FaultyWriter {
    calls: u8,
}

impl Write for FaultyWriter {
    fn write(&mut self, buf: &[u8]) -> io::Result<usize> {
        let call = self.calls;
        self.calls = call.saturating_add(1);
        match call {
            1 => Err(io::Error::new(ErrorKind::Interrupted, "a signal")),
            2 => Ok(0),
            4 => Err(io::Error::new(ErrorKind::Other, "a fault")),
            _ => Ok(buf.len().min(1)),
        }
    }

    fn flush(&mut self) -> io::Result<()> {
        Ok(())
    }
}

/// A writer each call of which fails.
#[derive(Drop)]
struct BrokenWriter {
    kind: ErrorKind,
}

impl Write for BrokenWriter {
    fn write(&mut self, _buf: &[u8]) -> io::Result<usize> {
        Err(io::Error::new(self.kind, "a fault"))
    }

    fn flush(&mut self) -> io::Result<()> {
        Ok(())
    }
}

/// Takes of four bytes at most from six, where the calls 1 and 3 fail.
fn check_takes(rt: &impl Abort, source: &mut MemSource) {
    let takes: [(Result<usize, Failed>, &[u8]); 5] = [
        (Ok(4), b"ef"),
        (Err(Failed), b"ef"),
        (Ok(2), b""),
        (Err(Failed), b""),
        (Ok(0), b""),
    ];
    let mut buf = [0u8; 4];
    for (wanted, left) in takes {
        assert_eq!(rt; (left, source.take(&mut buf)), (left, wanted));
        assert_eq!(rt; source.left(), left);
    }
    assert_eq!(rt; buf, *b"efcd");
    assert_eq!(rt; source.faults(), 2);
}

/// Puts into room for five bytes, where the calls 0 and 2 fail.
fn check_puts(rt: &impl Abort, sink: &mut MemSink) {
    let puts: [(&[u8], Result<usize, Failed>, &[u8]); 6] = [
        (b"abc", Err(Failed), b""),
        (b"abc", Ok(3), b"abc"),
        (b"x", Err(Failed), b"abc"),
        (b"xyz", Ok(2), b"abcxy"),
        (b"z", Err(Failed), b"abcxy"),
        (b"", Ok(0), b"abcxy"),
    ];
    for (piece, wanted, held) in puts {
        assert_eq!(rt; (piece, sink.put(piece)), (piece, wanted));
        assert_eq!(rt; sink.held(), held);
    }
    assert_eq!(rt; sink.faults(), 3);
}

#[test]
fn memory_ends_fail_where_listed(rt: HostRuntime) -> Result<(), Fail> {
    let failing = [1u64, 3].to_vec(rt.alloc())?;
    let mut source = MemSource::new(b"abcdef".to_vec(rt.alloc())?, failing);
    check_takes(&rt, &mut source);
    let failing = [0u64, 2].to_vec(rt.alloc())?;
    let mut sink = MemSink::new(rt.alloc(), 5, failing)?;
    check_puts(&rt, &mut sink);
    Ok(())
}

/// How many bytes of six are read at most, and what that is.
const PREFIXES: &[(usize, &[u8])] = &[(0, b""), (4, b"abcd"), (6, b"abcdef"), (9, b"abcdef")];

/// A source of these bytes, of which the calls `failing` fail.
fn source_of(alloc: Global, bytes: &[u8], failing: &[u64]) -> Result<MemSource, AllocError> {
    let bytes = bytes.to_vec(alloc)?;
    Ok(MemSource::new(bytes, failing.to_vec(alloc)?))
}

#[test]
fn whole_texts_are_read_from_memory(rt: HostRuntime) -> Result<(), Fail> {
    for (limit, wanted) in PREFIXES {
        let mut source = source_of(rt.alloc(), b"abcdef", &[])?;
        let text = read_all(rt.alloc(), &mut source, *limit)?;
        assert_eq!(rt; (limit, text.as_slice()), (limit, *wanted));
    }
    let mut source = source_of(rt.alloc(), b"abc", &[0])?;
    assert!(rt; fails(rt.alloc(), &mut source, 3));
    Ok(())
}

/// Whether the source fails before its end or so many bytes.
fn fails(alloc: Global, source: &mut impl Source, limit: usize) -> bool {
    matches!(read_all(alloc, source, limit), Err(ReadError::Failed))
}

/// Puts two texts of three bytes into room for five.
fn check_room(rt: &impl Abort, sink: &mut MemSink) {
    assert_eq!(rt; put_all(sink, b"abc"), Ok(()));
    assert_eq!(rt; put_all(sink, b"xyz"), Err(Failed));
    assert_eq!(rt; sink.held(), &b"abcxy"[..]);
}

#[test]
fn whole_texts_are_put_into_memory(rt: HostRuntime) -> Result<(), Fail> {
    check_room(&rt, &mut MemSink::new(rt.alloc(), 5, Vec::new(rt.alloc()))?);
    Ok(())
}

#[test]
fn read_source_reads(rt: HostRuntime) -> Result<(), Fail> {
    let mut source = ReadSource::new(&b"abcdef"[..]);
    let text = read_all(rt.alloc(), &mut source, 4)?;
    assert_eq!(rt; text.as_slice(), &b"abcd"[..]);
    assert_eq!(rt; source.faults(), 0);
    assert_eq!(rt; source.into_inner(), &b"ef"[..]);
    Ok(())
}

/// Reads up to the fault, and what is after it.
fn read_on(
    rt: &impl Abort,
    alloc: Global,
    source: &mut ReadSource<FaultyReader>,
) -> Result<Vec<u8>, Fail> {
    assert!(rt; fails(alloc, source, 9));
    assert_eq!(rt; source.faults(), 1);
    Ok(read_all(alloc, source, 9)?)
}

#[test]
fn read_source_goes_on_after_a_fault(rt: HostRuntime) -> Result<(), Fail> {
    let mut source = ReadSource::new(FaultyReader { calls: 0 });
    let text = read_on(&rt, rt.alloc(), &mut source)?;
    assert_eq!(rt; text.as_slice(), &b"e"[..]);
    assert_eq!(rt; source.faults(), 1);
    assert_eq!(rt; source.into_inner().calls, 6);
    Ok(())
}

#[test]
fn write_sink_writes(rt: HostRuntime) {
    let mut sink = WriteSink::new(Vec::new(rt.alloc()));
    assert_eq!(rt; put_all(&mut sink, b"abc"), Ok(()));
    assert_eq!(rt; put_all(&mut sink, b"def"), Ok(()));
    assert_eq!(rt; sink.faults(), 0);
    assert_eq!(rt; sink.into_inner().as_slice(), &b"abcdef"[..]);
}

/// Puts a text of two bytes three times.
fn check_faulty(rt: &impl Abort, sink: &mut WriteSink<FaultyWriter>) {
    for (wanted, faults) in [(Err(Failed), 1), (Err(Failed), 2), (Ok(()), 2)] {
        assert_eq!(rt; put_all(sink, b"ab"), wanted);
        assert_eq!(rt; sink.faults(), faults);
    }
}

#[test]
fn write_sink_goes_on_after_a_fault(rt: HostRuntime) {
    let mut sink = WriteSink::new(FaultyWriter { calls: 0 });
    check_faulty(&rt, &mut sink);
    assert_eq!(rt; sink.into_inner().calls, 7);
}

#[test]
fn write_sink_tells_a_closed_pipe(rt: HostRuntime) {
    for (kind, closed) in [(ErrorKind::BrokenPipe, true), (ErrorKind::Other, false)] {
        let mut sink = WriteSink::new(BrokenWriter { kind });
        assert!(rt; !sink.is_closed());
        assert_eq!(rt; put_all(&mut sink, b"ab"), Err(Failed));
        assert_eq!(rt; sink.is_closed(), closed);
    }
}
