//! A whole text from a source, and a whole text to a sink.
ghost use Rattle.std.specs.Prelude.{◌≡◌, ◌≤◌, length, IfOk, OnOk, OnErr, IsErrOf};
ghost use Rattle.work_io.specs.Ends.{Rose, Took, TookSome, IsText, Gained, GainedSome};

use crate::ends::{Failed, Sink, Source};
use std::alloc::{AllocError, Global};

/// How many bytes are asked of a source at once, at most.
const CHUNK: usize = 65_536;

/// Why a text couldn't be read.
#[derive(Clone, Copy, Debug, PartialEq, Eq)]
pub enum ReadError {
    /// The memory for the text isn't there.
    Memory,
    /// The source failed.
    Failed,
}

impl From<AllocError> for ReadError {
    ghost use Rattle.std.specs.Prelude.{◌≡◌};
    ghost use Rattle.work_io.specs.declared.whole.ReadError.TheVariants.{Memory};

    ghost from_gives = { λ _ error. error ≡ Memory };

    fn from(_: AllocError) -> ReadError {
        ReadError::Memory
    }
}

/// Takes all that `source` has left, up to its end or to `limit` bytes, whichever comes first.
///
/// # Errors
/// [`ReadError::Failed`] at the first call of the source that fails, [`ReadError::Memory`] where
/// the text doesn't fit in memory. The bytes taken until then, at most `limit`, are lost.
pub fn read_all<S: Source>(
    alloc: Global,
    source: &mut S,
    limit: usize,
) -> Result<Vec<u8>, ReadError>
    ensures text { IfOk result (λ text. IsText limit (S.left source.old) text.items) }
    ensures within { IfOk result (λ text. length text.items ≤ limit) }
    ensures taken { IfOk result (λ text. Took (S.left source.old) (S.left source.new) text.items) }
    ensures calm { OnOk result (S.faults source.new ≡ S.faults source.old) }

    ensures memory { IsErrOf result ReadError.Memory → S.faults source.new ≡ S.faults source.old }
    ensures failed { IsErrOf result ReadError.Failed
        → Rose (S.faults source.old) (S.faults source.new) }
    ensures lost { OnErr result (TookSome limit (S.left source.old) (S.left source.new)) }
    ensures never_falls { S.faults source.old ≤ S.faults source.new }
{
    let mut text = Vec::new(alloc);
    let mut chunk = [0u8; CHUNK];
    while text.len() < limit {
        let size = (limit - text.len()).min(CHUNK);
        match source.take(&mut chunk[..size]) {
            Err(Failed) => return Err(ReadError::Failed),
            Ok(0) => return Ok(text),
            Ok(count) => text.extend_from_slice(&chunk[..count])?,
        }
    }
    Ok(text)
}

/// Puts all of `text`, in as many calls as the sink needs.
///
/// # Errors
/// [`Failed`] at the first call of the sink that fails: a prefix of `text` is then in the sink,
/// and not all of it.
pub fn put_all<K: Sink>(sink: &mut K, text: &[u8]) -> Result<(), Failed>
    ensures all { OnOk result (Gained (K.held sink.old) (K.held sink.new) text.now) }
    ensures calm { OnOk result (K.faults sink.new ≡ K.faults sink.old) }

    ensures some { OnErr result (GainedSome (K.held sink.old) (K.held sink.new) text.now) }
    ensures cause { OnErr result (Rose (K.faults sink.old) (K.faults sink.new)) }
    ensures never_falls { K.faults sink.old ≤ K.faults sink.new }
{
    let mut done = 0;
    while done < text.len() {
        done += sink.put(&text[done..])?;
    }
    Ok(())
}
