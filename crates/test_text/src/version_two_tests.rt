use data_regions::region::Structure;
use std::alloc::{AllocError, Global};
use std::process::Abort;
use std::test::Fail;
use work_profile::policy::Policy;
use work_script::op::Op;
use work_script::workload::{Item, Version, Workload};
use work_text::parse::{Mode, ParseError, parse};

/// A region of each kind, a transaction, longer logs and another transaction.
const LINES: [&str; 24] = [
    "stm 2",
    "words 1048576",
    "callers 2",
    "records 4",
    "ring 4",
    "reads 256",
    "writes 256",
    "clock 0",
    "alg OrecLazy",
    "regions 6",
    "region counter 0 2",
    "region list 2 4",
    "region hash 100 4",
    "region tree 200 4",
    "region queue 300 2",
    "region summap 400 8",
    "policy round:3",
    "tx 0",
    "ladd 1 5",
    "write 11 3",
    "end",
    "reserve 1 512 4096",
    "switch 0 CGL",
    "done",
];

/// Those lines with another in one's place, counted from 1.
fn with_line(alloc: Global, number: usize, other: &str) -> Result<String, AllocError> {
    let mut text = String::new(alloc);
    for (i, line) in LINES.iter().enumerate() {
        text.push_str(if i + 1 == number { other } else { *line })?;
        text.push_str("\n")?;
    }
    Ok(text)
}

/// The first fault of a text, its line and its code; line 0 and code 0 where memory is refused.
fn fault(alloc: Global, text: &[u8]) -> Option<(usize, u32)> {
    match parse(alloc, text, Mode::Run) {
        Ok(_) => None,
        Err(ParseError::Fault { line, code }) => Some((line, code)),
        Err(ParseError::Memory) => Some((0, 0)),
    }
}

/// The first line of a table that doesn't have its fault, where it stands in place of the one with its number.
fn other_fault<'a>(
    alloc: Global,
    table: &[(usize, &'a str, u32)],
) -> Result<Option<&'a str>, AllocError> {
    for (number, line, code) in table {
        let text = with_line(alloc, *number, line)?;
        let at = if *line == "regions 5" { 16 } else { *number };
        if fault(alloc, text.as_bytes()) != Some((at, *code)) {
            return Ok(Some(*line));
        }
    }
    Ok(None)
}

/// The first line of a table that is refused.
fn first_refused<'a>(
    alloc: Global,
    table: &[(usize, &'a str)],
) -> Result<Option<&'a str>, AllocError> {
    for (number, line) in table {
        let text = with_line(alloc, *number, line)?;
        if fault(alloc, text.as_bytes()).is_some() {
            return Ok(Some(*line));
        }
    }
    Ok(None)
}

const REGIONS_REFUSED: &[(usize, &str, u32)] = &[
    (2, "words 1048577", 6),
    (10, "structs off", 4),
    (10, "regions 17", 6),
    (10, "regions 06", 5),
    (10, "regions", 4),
    (10, "regions 5", 4),
    (10, "region list 2 4", 4),
    (11, "region heap 0 2", 4),
    (11, "region counter 0", 4),
    (11, "region counter 0 2 2", 4),
    (11, "regions counter 0 2", 4),
    (11, "region heap x 0", 4),
    (11, "region counter 00 0", 5),
    (11, "region counter x 0", 5),
    (11, "region counter 0 +2", 5),
    (11, "region counter 0 0", 6),
    (11, "region counter 0 65", 6),
    (11, "region counter 18446744073709551615 65", 6),
    (12, "region list 1 4", 8),
    (12, "region list 1 0", 6),
    (12, "region list 2 4097", 6),
    (13, "region hash 10 4", 8),
    (13, "region hash 2 4", 8),
    (13, "region hash 100 4097", 6),
    (14, "region tree 123 4", 8),
    (14, "region tree 200 4097", 6),
    (15, "region queue 212 2", 8),
    (15, "region queue 300 4097", 6),
    (16, "region summap 303 8", 8),
    (16, "region summap 400 4097", 6),
    (16, "region summap 1048536 8", 8),
    (16, "region summap 1048575 1", 8),
    (16, "region summap 1048576 1", 8),
    (16, "region summap 18446744073709551615 8", 8),
];

const REGIONS_TAKEN: &[(usize, &str)] = &[
    (11, "region counter 0 1"),
    (16, "region summap 304 8"),
    (16, "region summap 1048535 8"),
];

#[test]
fn refuses_regions(rt: HostRuntime) -> Result<(), Fail> {
    assert_eq!(rt; other_fault(rt.alloc(), REGIONS_REFUSED)?, None);
    assert_eq!(rt; first_refused(rt.alloc(), REGIONS_TAKEN)?, None);
    Ok(())
}

const POLICIES_REFUSED: &[(usize, &str, u32)] = &[
    (17, "policy", 4),
    (17, "policies fixed", 4),
    (17, "policy fixed fixed", 4),
    (17, "policy Fixed", 4),
    (17, "policy fixed:3", 4),
    (17, "policy round", 4),
    (17, "policy round:", 5),
    (17, "policy round:03", 5),
    (17, "policy round:3:3", 5),
    (17, "policy round:0", 6),
    (17, "policy round:65537", 6),
    (17, "policy state:17", 6),
    (17, "policy state:x", 5),
    (17, "policy expert:1", 4),
];

const POLICIES_TAKEN: &[(usize, &str)] = &[
    (17, "policy fixed"),
    (17, "policy expert"),
    (17, "policy round:65536"),
    (17, "policy state:16"),
];

#[test]
fn refuses_policies(rt: HostRuntime) -> Result<(), Fail> {
    assert_eq!(rt; other_fault(rt.alloc(), POLICIES_REFUSED)?, None);
    assert_eq!(rt; first_refused(rt.alloc(), POLICIES_TAKEN)?, None);
    Ok(())
}

const OPERATIONS_REFUSED: &[(usize, &str, u32)] = &[
    (19, "ladd 5", 4),
    (19, "ladd 1 5 5", 4),
    (19, "ladd 1 05", 5),
    (19, "ladd x 5", 5),
    (19, "ladd 6 5", 6),
    (19, "ladd 1 4294967296", 6),
    (19, "ladd 0 5", 8),
    (19, "ladd 2 5", 8),
    (19, "ladd 0 4294967296", 6),
    (19, "hadd 1 5", 8),
    (19, "tadd 5 5", 8),
    (19, "total", 4),
    (19, "total 0 0", 4),
    (19, "total 1", 8),
    (19, "total 6", 6),
    (19, "llen 0", 8),
    (19, "tmin 2", 8),
    (19, "count 0 1", 4),
    (19, "count 0 2 1", 6),
    (19, "count 6 0 1", 6),
    (19, "count 0 0 x", 5),
    (19, "count 1 0 1", 8),
    (19, "count 1 9 1", 8),
    (19, "qput 4 4294967296", 6),
    (19, "qput 5 1", 8),
    (19, "qget 5", 8),
    (19, "qget 4 1", 4),
    (19, "mput 5 1", 4),
    (19, "mput 5 4294967296 1", 6),
    (19, "mput 5 1 18446744073709551616", 5),
    (19, "mput 4 1 1", 8),
    (19, "mdel 4 1", 8),
    (19, "mget 6 1", 6),
    (19, "msum 5 1", 4),
    (19, "msum 5 1 4294967296", 6),
    (19, "msum 5 4294967296 1", 6),
    (19, "msum 3 1 1", 8),
];

#[test]
fn refuses_operations_on_structures(rt: HostRuntime) -> Result<(), Fail> {
    assert_eq!(rt; other_fault(rt.alloc(), OPERATIONS_REFUSED)?, None);
    let fine = [(19, "ladd 1 4294967295")];
    assert_eq!(rt; first_refused(rt.alloc(), &fine)?, None);
    Ok(())
}

const ADDRESSES_REFUSED: &[(usize, &str, u32)] = &[
    (20, "write 0 1", 8),
    (20, "write 10 1", 8),
    (20, "add 100 1", 8),
    (20, "read 123", 8),
    (20, "move 11 200 1", 8),
    (20, "move 303 11 1", 8),
    (20, "emit 440", 8),
    (20, "emit 441", 9),
    (20, "read 1048576", 6),
];

const ADDRESSES_TAKEN: &[(usize, &str)] = &[
    (20, "write 99 1"),
    (20, "read 124"),
    (20, "write 1048575 1"),
];

#[test]
fn keeps_plain_addresses_out_of_regions(rt: HostRuntime) -> Result<(), Fail> {
    assert_eq!(rt; other_fault(rt.alloc(), ADDRESSES_REFUSED)?, None);
    assert_eq!(rt; first_refused(rt.alloc(), ADDRESSES_TAKEN)?, None);
    Ok(())
}

/// A text of version 2 whose regions are these lines, with no transaction.
fn with_regions(alloc: Global, count: usize, regions: &str) -> Result<String, AllocError> {
    let mut text = String::new(alloc);
    for line in LINES.iter().take(9) {
        text.push_str(line)?;
        text.push_str("\n")?;
    }
    text.push_str(format!(in alloc; "regions {count}\n{regions}policy fixed\ndone\n")?.as_str())?;
    Ok(text)
}

/// One region of each kind, of the greatest size and of one more.
const SIZES: &[(&str, Option<(usize, u32)>)] = &[
    ("region counter 0 64\n", None),
    ("region counter 0 65\n", Some((11, 6))),
    ("region list 0 4096\n", None),
    ("region list 0 4097\n", Some((11, 6))),
    ("region hash 0 4096\n", None),
    ("region hash 0 4097\n", Some((11, 6))),
    ("region tree 0 4096\n", None),
    ("region tree 0 4097\n", Some((11, 6))),
    ("region queue 0 4096\n", None),
    ("region queue 0 4097\n", Some((11, 6))),
    ("region summap 0 4096\n", None),
    ("region summap 0 4097\n", Some((11, 6))),
];

#[test]
fn bounds_the_size_of_a_region(rt: HostRuntime) -> Result<(), Fail> {
    for (region, found) in SIZES {
        let text = with_regions(rt.alloc(), 1, region)?;
        assert_eq!(rt;
            (region, fault(rt.alloc(), text.as_bytes())),
            (region, *found)
        );
    }
    Ok(())
}

#[test]
fn takes_sixteen_regions(rt: HostRuntime) -> Result<(), Fail> {
    for (count, found) in [(16, None), (17, Some((10, 6)))] {
        let mut regions = String::new(rt.alloc());
        for i in 0..count {
            regions.push_str(format!(in rt.alloc(); "region counter {i} 1\n")?.as_str())?;
        }
        let text = with_regions(rt.alloc(), count, regions.as_str())?;
        assert_eq!(rt; (count, fault(rt.alloc(), text.as_bytes())), (count, found));
    }
    Ok(())
}

const RESERVES_REFUSED: &[(usize, &str, u32)] = &[
    (22, "reserve 1 512", 4),
    (22, "reserve 1 512 4096 1", 4),
    (22, "reserve 2 512 4096", 6),
    (22, "reserve 1 0 4096", 6),
    (22, "reserve 1 512 0", 6),
    (22, "reserve 1 4097 4096", 6),
    (22, "reserve 1 512 4097", 6),
    (22, "reserve 2 0512 4096", 5),
    (22, "reserve 1 512  4096", 4),
];

#[test]
fn refuses_reserves(rt: HostRuntime) -> Result<(), Fail> {
    assert_eq!(rt; other_fault(rt.alloc(), RESERVES_REFUSED)?, None);
    let fine = [(22, "reserve 0 1 1")];
    assert_eq!(rt; first_refused(rt.alloc(), &fine)?, None);
    Ok(())
}

/// Operations of version 2, which stand in line 19.
const OPERATIONS: &str =
    "count 0 1 7\ntotal 0\nldel 1 2\nllen 1\nhhas 2 3\ntadd 3 4\ntmin 3\nqput 4 5\nqget 4\nmput 5 6 18446744073709551615\nmdel 5 7\nmget 5 8\nmsum 5 9 4294967295";

/// Those operations, and the one in line 20.
const READ: &[Op] = &[
    Op::Count(0, 1, 7),
    Op::Total(0),
    Op::ListRemove(1, 2),
    Op::ListLength(1),
    Op::HashContains(2, 3),
    Op::TreeInsert(3, 4),
    Op::TreeLeast(3),
    Op::QueuePut(4, 5),
    Op::QueueGet(4),
    Op::MapPut(5, 6, u64::MAX),
    Op::MapRemove(5, 7),
    Op::MapGet(5, 8),
    Op::MapSum(5, 9, 4_294_967_295),
    Op::Write(11, 3),
];

/// The header is that of [`LINES`].
fn assert_header(rt: &impl Abort, read: &Workload) {
    let header = &read.header;
    assert_eq!(rt; header.version, Version::Two);
    assert_eq!(rt; header.words, 1_048_576);
    assert_eq!(rt; header.policy, Policy::Round(3));
    let regions = header.regions.as_slice();
    assert_eq!(rt; regions.len(), 6);
    assert_eq!(rt; regions[4].structure(), Structure::Queue);
    assert_eq!(rt; regions[5].start(), 400);
}

/// Whether the items are those of [`LINES`], with the operations of [`READ`].
fn are_read(items: &[Item]) -> bool {
    match items {
        [
            Item::Tx { caller: 0, script },
            Item::Reserve {
                caller: 1,
                reads: 512,
                writes: 4096,
            },
            Item::Switch { .. },
        ] => script.as_slice() == READ,
        _ => false,
    }
}

#[test]
fn reads_what_version_two_has(rt: HostRuntime) -> Result<(), Fail> {
    let text = with_line(rt.alloc(), 19, OPERATIONS)?;
    let read = parse(rt.alloc(), text.as_bytes(), Mode::Run)?;
    assert_header(&rt, &read);
    assert!(rt; are_read(read.items.as_slice()), "{read:?}");
    Ok(())
}

const NOT_IN_VERSION_ONE: &[(&str, usize, u32)] = &[
    ("reserve 0 512 512\n", 11, 4),
    ("tx 0\nladd 1 5\n", 12, 4),
    ("tx 0\ntotal 0\n", 12, 4),
    ("tx 0\ncount 0 0 1\n", 12, 4),
    ("tx 0\nqget 4\n", 12, 4),
    ("tx 0\nqput 4 1\n", 12, 4),
    ("tx 0\nmput 1 1 1\n", 12, 4),
    ("tx 0\nmsum 1 1 1\n", 12, 4),
    ("tx 0\nmget 1\n", 12, 4),
    ("tx 0\nwrite 100 1\n", 12, 8),
    ("policy fixed\n", 11, 4),
];

#[test]
fn keeps_version_one_to_its_limits(rt: HostRuntime) -> Result<(), Fail> {
    let head =
        "stm 1\nwords 1024\ncallers 1\nrecords 4\nring 4\nreads 256\nwrites 256\nclock 0\nalg CGL\nstructs on\n";
    for (body, line, code) in NOT_IN_VERSION_ONE {
        let mut text = String::new(rt.alloc());
        text.push_str(head)?;
        text.push_str(body)?;
        assert_eq!(rt;
            (body, fault(rt.alloc(), text.as_bytes())),
            (body, Some((*line, *code)))
        );
    }
    Ok(())
}
