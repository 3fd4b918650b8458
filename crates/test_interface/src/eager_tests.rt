//! What no clause says: that a read of OrecEager tells a word that was stored and taken back while it was under way.
ghost use Rattle.std.specs.Prelude.{◌≡◌, ◌<◌, false};
ghost use Rattle.stm_rule.specs.Callers.{IsOf, AllOpened};
ghost use Rattle.stm_answers.specs.CallerState.{IsIdle};
ghost use Rattle.stm_tx.specs.Descs.{known};

use crate::calls_tests::switch;
use alg_orec::eager_reading::{confirm, load, read_place, sample};
use std::alloc::Global;
use std::test::Fail;
use stm_answers::answers::{Begin, Cancel, Read, Write};
use stm_model::alg::Alg;
use stm_model::config::Config;
use stm_model::rule::{AnyMem, MemRule};
use stm_model::stop::Cause;
use stm_rule::desc::Desc;
use stm_rule::refusal::NewError;
use stm_rule::stm::Stm;
use stm_tx::calls::{cancel, read, start, try_begin, write};

const PAIR: Config = Config {
    words: 8,
    records: 4,
    ring: 4,
    callers: 2,
    reads: 256,
    writes: 256,
    clock: 0,
    fence: false,
    marks: 0,
};

/// The word of the record and the word as the reader loaded them, why its attempt ended, and the start of its next one
/// with what that reads.
type Seen = (u64, u64, Cause, u64, Read);

/// Between the steps of the reader's read of word 2 the writer stores 9 there, and is cancelled.
fn reads_around_a_cancelled_write<K: MemRule>(
    stm: &Stm<K>,
    reader: &mut Desc<K>,
    writer: &mut Desc<K>,
) -> Option<Seen>
    requires reader { IsOf reader.old stm.now }
    requires writer { IsOf writer.old stm.now }
    requires reader_idle { IsIdle (known reader.old) }
    requires writer_idle { IsIdle (known writer.old) }
    requires words { 2 < stm.now.config.words }
    requires plain { stm.now.config.fence ≡ false }
{
    let Begin::Begun(Alg::OrecEager) = try_begin(reader, stm) else {
        return None;
    };
    let Begin::Begun(Alg::OrecEager) = try_begin(writer, stm) else {
        return None;
    };
    let record = 2 % stm.config.records;
    let at = stm.record_place(record);
    let Ok(Some(word)) = sample(reader, stm, 2, record, at) else {
        return None;
    };
    let Write::Done = write(writer, stm, 2, 9) else {
        return None;
    };
    let x = load(reader, stm, 2);
    let Cancel::Cancelled { time: 0 } = cancel(writer, stm) else {
        return None;
    };
    let place = read_place(reader, stm, 2);
    let Read::Conflict(cause) = confirm(reader, stm, 2, record, at, place, word, x) else {
        return None;
    };
    let Begin::Begun(Alg::OrecEager) = try_begin(reader, stm) else {
        return None;
    };
    let next = start(reader);
    Some((word, x, cause, next, read(reader, stm, 2)))
}

/// The same of the two callers of a new memory, under OrecEager.
fn two_read(stm: &Stm<AnyMem>, descs: &mut [Desc<AnyMem>]) -> Option<Seen>
    requires opened { AllOpened stm.now 0 descs.old }
    requires words { 2 < stm.now.config.words }
    requires plain { stm.now.config.fence ≡ false }
{
    let [writer, reader] = descs else {
        return None;
    };
    if !switch(stm, writer, Alg::OrecEager) {
        return None;
    }
    reads_around_a_cancelled_write(stm, reader, writer)
}

/// In a memory of two callers, which opens at 0.
fn reads_under_eager(alloc: Global) -> Result<Option<Seen>, NewError> {
    let (stm, mut descs) = Stm::new(alloc, PAIR, AnyMem)?;
    Ok(two_read(&stm, descs.as_mut_slice()))
}

#[test]
fn a_word_that_was_taken_back_is_not_read(rt: HostRuntime) -> Result<(), Fail> {
    let moved = Cause::Moved {
        index: 2,
        before: 0,
        after: 2,
    };
    let seen = (0, 9, moved, 1, Read::Value(0));
    assert_eq!(rt; reads_under_eager(rt.alloc()), Ok(Some(seen)));
    Ok(())
}
