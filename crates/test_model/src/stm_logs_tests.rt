//! What no clause says: exact numbers of probes, bits of a filter from outside, and that calls succeed where memory
//! is there.
use std::test::Fail;
use stm_logs::filter::Filter;
use stm_logs::push::Push;
use stm_logs::read_log::ReadLog;
use stm_logs::undo_log::UndoLog;
use stm_logs::write_log::WriteLog;

#[test]
fn a_find_looks_at_the_addresses_in_its_way(rt: HostRuntime) -> Result<(), Fail> {
    let mut log = WriteLog::new(rt.alloc(), 256, 0)?;
    for a in 0..256 {
        log.push(a, 7);
    }
    assert_eq!(rt; log.len(), 256);
    for (a, probes) in [(255, 1), (256, 1), (512, 257)] {
        assert_eq!(rt; (a, log.probes(a)), (a, probes));
    }
    Ok(())
}

/// Of a short log, in the index that it would have; and of a longer one, whose addresses share their last six bits.
#[test]
fn a_log_finds_its_addresses_below_and_above_eight_items(rt: HostRuntime) -> Result<(), Fail> {
    let mut log = UndoLog::new(rt.alloc(), 16)?;
    for a in [3, 35, 67] {
        log.push(a, 7);
    }
    assert_eq!(rt; log.len(), 16);
    for (a, probes) in [(3, 1), (35, 2), (67, 3), (99, 4), (4, 3), (6, 1)] {
        assert_eq!(rt; (a, log.probes(a)), (a, probes));
    }
    log.clear();
    for i in 0..12 {
        assert_eq!(rt; log.find(64 * i + 5), None);
        log.push(64 * i + 5, i as u64);
        assert_eq!(rt; log.find(64 * i + 5), Some(i as u64));
    }
    assert_eq!(rt; log.find(5), Some(0));
    let count = log.count();
    assert!(rt; count == 12);
    Ok(())
}

/// Of 1,024 addresses in runs of 16, by how far the runs lie apart; and of addresses that aren't there.
#[test]
fn a_log_finds_its_addresses_in_strides(rt: HostRuntime) -> Result<(), Fail> {
    let mut reads = ReadLog::new(rt.alloc(), 1024)?;
    let mut writes = WriteLog::new(rt.alloc(), 1024, 0)?;
    for stride in [16, 64, 1000, 1024, 2048, 8192, 65_536, 1 << 40] {
        reads.clear();
        writes.clear();
        for i in 0..1024 {
            let a = strided(i, stride);
            assert_eq!(rt; (stride, a, reads.find(a)), (stride, a, None));
            assert_eq!(rt; (stride, a, writes.find(a)), (stride, a, None));
            reads.push(a, i as u64);
            writes.push(a, i as u64);
        }
        for i in 0..1024 {
            let a = strided(i, stride);
            assert_eq!(rt; (stride, a, reads.find(a)), (stride, a, Some(i as u64)));
            assert_eq!(rt; (stride, a, writes.find(a)), (stride, a, Some(i as u64)));
        }
    }
    Ok(())
}

/// The address with this number, of those in runs of 16 that begin a stride apart.
fn strided(i: usize, stride: usize) -> usize {
    (i / 16).wrapping_mul(stride).wrapping_add(i % 16)
}

#[test]
fn the_generations_begin_again(rt: HostRuntime) -> Result<(), Fail> {
    let mut log = WriteLog::with_generation(rt.alloc(), 2, 0, 4294967294)?;
    log.push(3, 1);
    log.push(3, 2);
    log.push(5, 1);
    assert_eq!(rt; log.count(), 2);
    assert_eq!(rt; log.item(0), (3, 2));
    assert_eq!(rt; log.item(1), (5, 1));
    assert_eq!(rt; log.push(6, 1), Push::Full { limit: 2 });
    for generation in [4294967295, 1, 2] {
        log.clear();
        assert_eq!(rt; log.generation(), generation);
        assert_eq!(rt; log.count(), 0);
        assert_eq!(rt; log.find(3), None);
        assert_eq!(rt; log.find(6), None);
        assert_eq!(rt; log.push(6, 1), Push::Done);
        assert_eq!(rt; log.find(6), Some(1));
    }
    Ok(())
}

#[test]
fn reads_keep_the_first_value(rt: HostRuntime) -> Result<(), Fail> {
    let mut reads = ReadLog::new(rt.alloc(), 1)?;
    reads.reserve(rt.alloc(), 2)?;
    for (a, v) in [(9, 1), (4, 2), (9, 3)] {
        assert_eq!(rt; reads.push(a, v), Push::Done);
    }
    assert_eq!(rt; reads.count(), 2);
    assert_eq!(rt; reads.item(0), (9, 1));
    Ok(())
}

#[test]
fn writes_keep_the_last_value(rt: HostRuntime) -> Result<(), Fail> {
    let mut writes = WriteLog::new(rt.alloc(), 1, 0)?;
    writes.reserve(rt.alloc(), 2)?;
    for (a, v) in [(9, 1), (4, 2), (9, 3)] {
        assert_eq!(rt; writes.push(a, v), Push::Done);
    }
    assert_eq!(rt; writes.count(), 2);
    assert_eq!(rt; writes.item(0), (9, 3));
    Ok(())
}

#[test]
fn an_undo_log_keeps_the_first_value(rt: HostRuntime) -> Result<(), Fail> {
    let mut undo = UndoLog::new(rt.alloc(), 1)?;
    undo.reserve(rt.alloc(), 2)?;
    for (a, v) in [(9, 1), (4, 2), (9, 3)] {
        assert_eq!(rt; undo.push(a, v), Push::Done);
    }
    assert_eq!(rt; undo.count(), 2);
    assert_eq!(rt; undo.item(0), (9, 1));
    assert_eq!(rt; undo.push(5, 4), Push::Full { limit: 2 });
    Ok(())
}

/// Holds whether memory is refused or not, in `new` or in `reserve`.
#[test]
fn a_refused_reserve_leaves_all_as_before(rt: HostRuntime) {
    let Ok(mut log) = WriteLog::new(rt.alloc(), 1, 0) else {
        return;
    };
    log.push(9, 1);
    let limit = match log.reserve(rt.alloc(), 2) {
        Ok(()) => {
            assert_eq!(rt; log.push(8, 2), Push::Done);
            2
        }
        Err(_memory) => 1,
    };
    assert_eq!(rt; log.push(7, 3), Push::Full { limit });
    assert_eq!(rt; log.count(), limit);
    assert_eq!(rt; log.find(9), Some(1));
    assert_eq!(rt; log.generation(), 1);
}

fn filter_of(a: usize) -> Filter {
    let mut filter = Filter::new();
    filter.add(a);
    filter
}

/// How many bits of a filter are set.
fn bits_of(filter: &Filter) -> u32 {
    let mut bits: u32 = 0;
    for i in 0..16 {
        bits = filter.word(i).count_ones().saturating_add(bits);
    }
    bits
}

/// An address, and the words of its filter that have a bit.
const BITS: &[(usize, &[(usize, u64)])] = &[
    (1, &[(0, 2), (4, 1), (10, 1 << 30), (14, 1 << 5)]),
    (
        70_000,
        &[(1, 1 << 48), (4, 1 << 17), (9, 1 << 33), (12, 1 << 10)],
    ),
    (
        usize::MAX,
        &[(3, 1 << 63), (7, 1 << 63), (9, 1 << 33), (13, 1 << 58)],
    ),
];

/// Whether a filter has these words and four bits in all.
fn has(filter: &Filter, words: &[(usize, u64)]) -> bool {
    for (i, word) in words {
        if *i >= 16 || filter.word(*i) != *word {
            return false;
        }
    }
    bits_of(filter) == 4
}

#[test]
fn an_address_sets_four_bits(rt: HostRuntime) {
    for (a, words) in BITS {
        assert!(rt; has(&filter_of(*a), words), "at {a}");
    }
}

/// Two addresses, whether their filters meet, and the common bits of the lowest word that has any.
const PAIRS: &[(usize, usize, bool, u64)] = &[
    (1, 65, false, 1),
    (1, 1, true, 2),
    (200, 200, true, 256),
];

#[test]
fn filters_meet_where_all_parts_do(rt: HostRuntime) {
    for (a, b, meets, common) in PAIRS {
        let found = compare(&filter_of(*a), &filter_of(*b));
        assert_eq!(rt; (a, b, found), (a, b, (*meets, *common)));
    }
    let low = filled(5);
    let mut high = filled(6);
    assert_eq!(rt; compare(&low, &high), (true, 4));
    high.set_word(13, 8);
    assert_eq!(rt; low.meets(&high), false);
}

fn compare(one: &Filter, other: &Filter) -> (bool, u64) {
    (one.meets(other), one.common(other))
}

/// A filter with this word in each part.
fn filled(word: u64) -> Filter {
    let mut filter = Filter::new();
    for part in 0..4 {
        filter.set_word(4 * part + 1, word);
    }
    filter
}
