//! Whether a memory is what its transactions leave.
ghost use Rattle.std.specs.Prelude.{◌≡◌, ◌==◌, ◌<◌, ◌≤◌, ◌*◌, true, length, take, get_or, IfSome};
ghost use Rattle.std.specs.List.{sum};
ghost use Rattle.perf_core.specs.Rows.{row_count, seen_by, seen_in};
ghost use Rattle.perf_core.specs.Verdicts.{HasAllScans, IsLeft};

use crate::plan::{ACCOUNTS, BALANCE, CELLS, KEYS, Plan, Workload};
use crate::rows::{Row, row_at, row_count};
use crate::work_counts::WorkCounts;

/// Whether the words are what a run's transactions leave, by what they came to, and each of them committed.
pub fn is_right(words: &[u64], plan: &Plan, commits: u64, work_counts: &WorkCounts) -> bool
    ensures { result ≡ true → IsLeft plan.now words.now commits work_counts.now }
{
    if commits != u64::from(plan.count) {
        return false;
    }
    match plan.workload {
        Workload::Bank | Workload::Sum => work_counts.wrong == 0 && has_all_money(words),
        Workload::Hash => has_keys(words, 16, work_counts),
        Workload::List => has_keys(words, 1, work_counts),
        Workload::Count => first(words) == commits,
        Workload::Scan => has_all_scans(words, commits, work_counts),
    }
}

/// Whether the accounts have together what they began with.
fn has_all_money(words: &[u64]) -> bool
    ensures { result ≡ (sum (take ACCOUNTS words.now) == ACCOUNTS * BALANCE) }
{
    let accounts = &words[..ACCOUNTS.min(words.len())];
    sum_of(accounts) == ACCOUNTS as u128 * u128::from(BALANCE)
}

/// Whether each scan added 1, and they saw together what scans see that take effect one after the other.
fn has_all_scans(words: &[u64], commits: u64, work_counts: &WorkCounts) -> bool
    ensures { result ≡ true → HasAllScans words.now commits work_counts.now }
{
    sum_of(words) == u128::from(commits)
        && seen_in_rows(words) == Some(u128::from(work_counts.seen))
}

/// What scans see together that leave this memory, one after the other; None where a row has 2^32 or more, as no scans
/// leave it.
fn seen_in_rows(words: &[u64]) -> Option<u128>
    ensures { IfSome result (λ seen. seen ≡ seen_in (row_count (length words.now)) words.now) }
{
    if words.is_empty() {
        return None;
    }
    let mut seen: u128 = 0;
    for i in 0..row_count(words.len()) {
        let Row { start, end } = row_at(words.len(), i);
        let total = u32::try_from(sum_of(&words[start..end])).ok()?;
        seen += u128::from(seen_by(total));
    }
    Some(seen)
}

/// What so many scans of a row see together: half of their number by the one before it.
fn seen_by(scans: u32) -> u64
    ensures { result ≡ seen_by scans }
{
    let scans = u64::from(scans);
    scans * scans.saturating_sub(1) / 2
}

/// The sum of these words.
fn sum_of(words: &[u64]) -> u128
    ensures { result ≡ sum words.now }
{
    let mut sum: u128 = 0;
    for i in 0..words.len() {
        sum += u128::from(words[i]);
    }
    sum
}

/// The first word.
fn first(words: &[u64]) -> u64
    ensures { result ≡ get_or words.now 0 0 }
{
    match words.first() {
        Some(word) => *word,
        None => 0,
    }
}

/// Whether a set in so many chains is sorted, and has as many keys as were put in and not taken out.
fn has_keys(words: &[u64], heads: usize, work_counts: &WorkCounts) -> bool
    requires { (0 < heads) × (heads ≤ 16) }
{
    let mut keys: u64 = 0;
    for head in 0..heads {
        match chain_len(words, heads, head) {
            Some(len) => keys = keys.saturating_add(len),
            None => return false,
        }
    }
    keys.saturating_add(work_counts.removed)
        == u64::from(KEYS / 2).saturating_add(work_counts.inserted)
}

/// How many cells a chain has; None where it isn't sorted, has a key of another chain, or doesn't end.
fn chain_len(words: &[u64], heads: usize, head: usize) -> Option<u64>
    requires { (0 < heads) × (heads ≤ 16) }
{
    let mut link = *words.get(head)?;
    let mut last = 0;
    for len in 0..=CELLS {
        if link == 0 {
            return Some(len as u64);
        }
        if link > CELLS as u64 {
            return None;
        }
        let cell = heads + 2 * (link as usize - 1);
        let tag = *words.get(cell)?;
        if tag <= last || (tag - 1) % heads as u64 != head as u64 {
            return None;
        }
        last = tag;
        link = *words.get(cell + 1)?;
    }
    None
}
