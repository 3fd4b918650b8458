//! Sources and sinks over std's readers and writers.
ghost use Rattle.std.specs.Prelude.{◌≡◌, ◌<◌, ◌≤◌, ◌↔◌, ℕ, [], true, None, take, length, IfSome, IfOk, OnOk, OnErr};
ghost use Rattle.std.specs.Io.KnownBytes.{Keeps, Consumes, Appends, IsAtEnd};
ghost use Rattle.work_io.specs.Ends.{next_count};

use crate::ends::{Failed, Sink, Source};
use std::io::{ErrorKind, Read, Write};

/// A source over a reader of std, as standard input. It doesn't tell what is left.
///
/// Each failed call raises a counter of 64 bits, which stands still at 2^64 - 1.
#[derive(Debug, Drop)]
pub struct ReadSource<R> {
    reader: R,
    faults: u64,
}

impl<R> ReadSource<R> {
    ghost use Rattle.work_io.specs.Adapters.{read_source_inner, read_source_faults};

    /// A source that takes from `reader` and has had no fault.
    pub fn new(reader: R) -> Self
        ensures reader { read_source_inner result ≡ reader }
        ensures faults { read_source_faults result ≡ 0 }
    {
        ReadSource { reader, faults: 0 }
    }

    /// How many calls have failed.
    pub fn faults(&self) -> u64
        ensures { result ≡ read_source_faults self.now }
    {
        self.faults
    }

    /// The reader.
    pub fn into_inner(self) -> R
        ensures { result ≡ read_source_inner self }
    {
        let ReadSource { reader, faults: _ } = self;
        reader
    }
}

/// One read, made again where a signal interrupted it, as std's own loops do.
fn read_once<R: Read>(reader: &mut R, buf: &mut [u8]) -> Result<usize, Failed>
    ensures count { IfOk result (λ k. k ≤ length buf.old) }
    ensures consumed { IfOk result (λ k.
        Consumes (R.remaining reader.old) (R.remaining reader.new) (take k buf.new)) }
    ensures end { IfOk result (λ k. k ≡ 0 → 0 < length buf.old → IsAtEnd (R.remaining reader.new)) }
    ensures failed { OnErr result (Keeps (R.remaining reader.old) (R.remaining reader.new)) }
{
    for _ in 0..u64::MAX {
        match reader.read(buf) {
            Ok(count) => return Ok(count),
            Err(error) => {
                if error.kind() != ErrorKind::Interrupted {
                    return Err(Failed);
                }
            }
        }
    }
    Err(Failed)
}

impl<R: Read> Source for ReadSource<R> {
    ghost use Rattle.work_io.specs.Adapters.{read_source_inner, read_source_faults};

    ghost left = { λ _. None };

    ghost faults = { read_source_faults };

    /// Reads once. A read that a signal interrupted is made again, and is no fault. Where the
    /// reader's own contract knows its bytes, those taken are its next.
    ///
    /// # Errors
    /// [`Failed`] where the reader failed for any other reason. It raises the count by one.
    fn take(&mut self, buf: &mut [u8]) -> Result<usize, Failed>
        ensures count { IfOk result (λ k. k ≤ length buf.old) }
        ensures calm { OnOk result (read_source_faults self.new ≡ read_source_faults self.old) }
        ensures counted { OnErr result
            (read_source_faults self.new ≡ next_count (read_source_faults self.old)) }
        ensures never_falls { read_source_faults self.old ≤ read_source_faults self.new }

        // Of the reader, where its bytes are known.
        ensures consumed { IfOk result (λ k.
            Consumes (R.remaining (read_source_inner self.old)) (R.remaining (read_source_inner self.new)) (take k buf.new)) }
        ensures end { IfOk result (λ k.
            k ≡ 0 → 0 < length buf.old → IsAtEnd (R.remaining (read_source_inner self.new))) }
        ensures failed { OnErr result (
            Keeps (R.remaining (read_source_inner self.old)) (R.remaining (read_source_inner self.new))) }
    {
        let result = read_once(&mut self.reader, buf);
        if result.is_err() {
            self.faults = self.faults.saturating_add(1);
        }
        result
    }
}

/// A sink over a writer of std, as standard output. It doesn't tell what it holds.
///
/// Each failed call raises a counter of 64 bits, which stands still at 2^64 - 1. It never flushes:
/// over a writer that keeps bytes back, the caller flushes that.
#[derive(Debug, Drop)]
pub struct WriteSink<W> {
    writer: W,
    faults: u64,
    is_closed: bool,
}

impl<W> WriteSink<W> {
    ghost use Rattle.work_io.specs.Adapters.{write_sink_inner, write_sink_faults};

    /// A sink that puts to `writer` and has had no fault.
    pub fn new(writer: W) -> Self
        ensures writer { write_sink_inner result ≡ writer }
        ensures faults { write_sink_faults result ≡ 0 }
    {
        WriteSink {
            writer,
            faults: 0,
            is_closed: false,
        }
    }

    /// How many calls have failed.
    pub fn faults(&self) -> u64
        ensures { result ≡ write_sink_faults self.now }
    {
        self.faults
    }

    /// Whether the last call that failed found that nobody reads any more, as of a pipe; never before one failed.
    pub fn is_closed(&self) -> bool
        ensures { result ≡ true → 0 < write_sink_faults self.now }
    {
        self.is_closed && 0 < self.faults
    }

    /// The writer.
    pub fn into_inner(self) -> W
        ensures { result ≡ write_sink_inner self }
    {
        let WriteSink { writer, .. } = self;
        writer
    }
}

/// One write, made again where a signal interrupted it, as std's own loops do. A write that takes
/// nothing of a piece that isn't empty failed. Answers of what kind the fault is.
fn write_once<W: Write>(writer: &mut W, piece: &[u8]) -> Result<usize, ErrorKind>
    ensures count { IfOk result (λ k. k ≤ length piece.now) }
    ensures some { IfOk result (λ k. 0 < length piece.now → 0 < k) }
    ensures appended { IfOk result (λ k.
        Appends (W.contents writer.old) (W.contents writer.new) (take k piece.now)) }
    ensures failed { OnErr result (Keeps (W.contents writer.old) (W.contents writer.new)) }
{
    for _ in 0..u64::MAX {
        match writer.write(piece) {
            Ok(count) => {
                if count == 0 && !piece.is_empty() {
                    return Err(ErrorKind::WriteZero);
                }
                return Ok(count);
            }
            Err(error) => {
                let kind = error.kind();
                if kind != ErrorKind::Interrupted {
                    return Err(kind);
                }
            }
        }
    }
    Err(ErrorKind::Interrupted)
}

impl<W: Write> Sink for WriteSink<W> {
    ghost use Rattle.work_io.specs.Adapters.{write_sink_inner, write_sink_faults};

    ghost held = { λ _. None };

    ghost faults = { write_sink_faults };

    /// Writes once. A write that a signal interrupted is made again, and is no fault. Where the
    /// writer's own contract knows its bytes, they grow by those put.
    ///
    /// # Errors
    /// [`Failed`] where the writer failed for any other reason, or took nothing of a piece that
    /// isn't empty. It raises the count by one.
    fn put(&mut self, piece: &[u8]) -> Result<usize, Failed>
        ensures count { IfOk result (λ k. k ≤ length piece.now) }
        ensures some { IfOk result (λ k. 0 < length piece.now → 0 < k) }
        ensures calm { OnOk result (write_sink_faults self.new ≡ write_sink_faults self.old) }
        ensures counted { OnErr result
            (write_sink_faults self.new ≡ next_count (write_sink_faults self.old)) }
        ensures never_falls { write_sink_faults self.old ≤ write_sink_faults self.new }

        // Of the writer, where its bytes are known.
        ensures appended { IfOk result (λ k.
            Appends (W.contents (write_sink_inner self.old)) (W.contents (write_sink_inner self.new)) (take k piece.now)) }
        ensures failed { OnErr result (
            Keeps (W.contents (write_sink_inner self.old)) (W.contents (write_sink_inner self.new))) }
    {
        match write_once(&mut self.writer, piece) {
            Ok(count) => Ok(count),
            Err(kind) => {
                self.faults = self.faults.saturating_add(1);
                self.is_closed = kind == ErrorKind::BrokenPipe;
                Err(Failed)
            }
        }
    }
}
