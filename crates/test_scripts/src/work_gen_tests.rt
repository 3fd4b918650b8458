//! The items of generated workloads, by a generator written apart from this one, and the text of a summary.
use std::process::Abort;
use std::test::Fail;
use stm_model::alg::Alg;
use work_gen::generate::{MOST_TRANSACTIONS, generate};
use work_gen::summary::Summary;
use work_gen::summary_text::summary_text;
use work_script::op::Op;
use work_script::workload::Item;

/// The callers and the first operations of the transactions after the opening one.
const DRAWN: &[(usize, Op)] = &[
    (0, Op::Move(38, 46, 17)),
    (1, Op::Move(0, 59, 80)),
    (0, Op::Count(0, 0, 1)),
    (1, Op::ListInsert(1, 0)),
    (0, Op::Move(56, 0, 36)),
    (1, Op::Move(24, 35, 36)),
    (0, Op::Count(0, 1, 1)),
    (1, Op::ListInsert(1, 1)),
];

/// Checks the transactions after the opening one.
fn check_drawn(rt: &impl Abort, items: &[Item]) {
    assert_eq!(rt; items.len(), 9);
    for (item, wanted) in items.iter().skip(1).zip(DRAWN) {
        assert_eq!(rt; first_op(item), Some(*wanted));
    }
}

#[test]
fn transactions_are_drawn(rt: HostRuntime) -> Result<(), Fail> {
    let workload = generate(rt.alloc(), 8, 2, 1)?;
    check_drawn(&rt, workload.items.as_slice());
    Ok(())
}

/// A transaction's caller and its first operation.
fn first_op(item: &Item) -> Option<(usize, Op)> {
    match item {
        Item::Tx { caller, script } => Some((*caller, *script.as_slice().first()?)),
        Item::Switch { .. } | Item::Reserve { .. } => None,
    }
}

/// Where the switches stand, and what they install: they go round the cycle, one after each sixteenth transaction.
const SWITCHES: &[(usize, Alg)] = &[
    (17, Alg::OrecEager),
    (34, Alg::RingSw),
    (51, Alg::Serial),
    (68, Alg::Cgl),
    (85, Alg::Tml),
    (102, Alg::OrecLazy),
];

/// Whether the switches are those, each of caller 0.
fn are_switches(items: &[Item]) -> bool {
    let mut wanted = SWITCHES.iter();
    for (place, item) in items.iter().enumerate() {
        if let Item::Switch { caller, alg } = item {
            if *caller != 0 || wanted.next() != Some(&(place, *alg)) {
                return false;
            }
        }
    }
    wanted.next().is_none()
}

#[test]
fn switches_go_round(rt: HostRuntime) -> Result<(), Fail> {
    let workload = generate(rt.alloc(), 100, 4, 7)?;
    assert!(rt; are_switches(workload.items.as_slice()));
    Ok(())
}

#[test]
fn the_greatest_is_made(rt: HostRuntime) -> Result<(), Fail> {
    let workload = generate(rt.alloc(), MOST_TRANSACTIONS, 32, u64::MAX)?;
    assert_eq!(rt; workload.items.as_slice().len(), 53_126);
    Ok(())
}

#[test]
fn the_text_has_a_line_a_number(rt: HostRuntime) -> Result<(), Fail> {
    let summary = Summary {
        commits: 9,
        accounts: 64_000,
        counter: 2,
        list: 0,
    };
    let text = summary_text(rt.alloc(), &summary)?;
    let wanted = b"summary 1\ncommits 9\naccounts 64000\ncounter 2\nlist 0\nend\n";
    assert_eq!(rt; text.as_slice(), wanted.as_slice());
    Ok(())
}
