//! Words read or written one after the other, for transactions that read what they need and then write.
//!
//! `leads` says of `frame` what a caller's own is found by, without the law that calls come one after the other.
ghost use Rattle.std.specs.Prelude.{◌≡◌, ◌<◌, ◌≤◌, ◌%◌, ◌^◌, ℕ, Bool, sum, count_by, map, None, IfOk, OnOk};
ghost use Rattle.stm_model.specs.Memories.{Explains};
ghost use Rattle.data_effects.specs.Accesses.{LeadsOn};
ghost use Rattle.tx_transaction.specs.Words.{AllBelow, AllRead, AllWritten, RangeRead, Decides, Found, valued, sum_in, count_in};

use std::ops::Range;
use stm_model::access::Access;
use stm_model::stop::Stop;

/// Reads the words at these addresses in turn, one at least: `let [a, b] = read_words(memory, [3, 5])?`.
///
/// # Errors
/// The Stop of the access.
pub fn read_words<A: Access, const N: usize>(
    memory: &mut A,
    at: [usize; N],
) -> Result<[u64; N], Stop>
    requires going { A.stopped memory.old ≡ None }
    requires some { 0 < N }
    requires within { AllBelow (A.words memory.old) at }
    ensures read { IfOk result (λ v.
        AllRead (A.words memory.old) (A.log memory.old) (valued 0 at.entry v) (A.log memory.new)) }
    ensures found { IfOk result (λ v.
        Found (A.good memory.old) (A.words memory.old) (A.log memory.old)
        (λ m. Explains m (valued 0 at.entry v)) (A.log memory.new)) }
    ensures frame { LeadsOn A.Access memory.old memory.new result }
    ensures leads { (r : A) → A.keeps r memory.old → A.keeps r memory.new }
{
    let mut found = [0; N];
    for (i, a) in at.iter().enumerate() {
        found[i] = memory.read(*a)?;
    }
    Ok(found)
}

/// Reads the words of this range in turn, one at least, and answers their sum, modulo 2^64.
///
/// # Errors
/// The Stop of the access.
pub fn read_sum<A: Access>(memory: &mut A, range: Range<usize>) -> Result<u64, Stop>
    requires going { A.stopped memory.old ≡ None }
    requires within { (range.start < range.end) × (range.end ≤ A.words memory.old) }
    ensures read { IfOk result (λ total.
        RangeRead (A.words memory.old) (A.log memory.old) range.start range.end
        (λ vs. total ≡ sum vs % 2 ^ 64) (A.log memory.new)) }
    ensures found { IfOk result (λ total.
        Found (A.good memory.old) (A.words memory.old) (A.log memory.old)
        (λ m. total ≡ sum_in range.start range.end m % 2 ^ 64) (A.log memory.new)) }
    ensures frame { LeadsOn A.Access memory.old memory.new result }
    ensures leads { (r : A) → A.keeps r memory.old → A.keeps r memory.new }
{
    let mut sum: u64 = 0;
    for a in range.start..range.end {
        let value = memory.read(a)?;
        sum = sum.wrapping_add(value);
    }
    Ok(sum)
}

/// Reads the words of this range in turn, one at least, and answers how many of them pass the test.
///
/// # Errors
/// The Stop of the access.
pub fn read_count<A: Access, F: Fn(u64) -> bool>(
    memory: &mut A,
    range: Range<usize>,
    test: &F,
) -> Result<usize, Stop>
    requires going { A.stopped memory.old ≡ None }
    requires within { (range.start < range.end) × (range.end ≤ A.words memory.old) }
    requires callable { F.IsAlwaysCallable test.now }
    ensures read { IfOk result (λ count.
        (passes : ℕ → Bool) → Decides (F.post test.now) passes
        → RangeRead (A.words memory.old) (A.log memory.old) range.start range.end
        (λ vs. count ≡ count_by passes vs) (A.log memory.new)) }
    ensures found { IfOk result (λ count.
        (passes : ℕ → Bool) → Decides (F.post test.now) passes
        → Found (A.good memory.old) (A.words memory.old) (A.log memory.old)
        (λ m. count ≡ count_in passes range.start range.end m) (A.log memory.new)) }
    ensures frame { LeadsOn A.Access memory.old memory.new result }
    ensures leads { (r : A) → A.keeps r memory.old → A.keeps r memory.new }
{
    let mut count: usize = 0;
    for a in range.start..range.end {
        let value = memory.read(a)?;
        if test(value) {
            count += 1;
        }
    }
    Ok(count)
}

/// Writes these words in turn, each an address and its value, one at least.
///
/// # Errors
/// The Stop of the access.
pub fn write_words<A: Access, const N: usize>(
    memory: &mut A,
    words: [(usize, u64); N],
) -> Result<(), Stop>
    requires going { A.stopped memory.old ≡ None }
    requires some { 0 < N }
    requires within { AllBelow (A.words memory.old) (map (λ w. w.0) words) }
    ensures wrote { OnOk result (AllWritten (A.log memory.old) words.entry (A.log memory.new)) }
    ensures frame { LeadsOn A.Access memory.old memory.new result }
    ensures leads { (r : A) → A.keeps r memory.old → A.keeps r memory.new }
{
    for (a, value) in words {
        memory.write(a, value)?;
    }
    Ok(())
}

/// The sum of these words, modulo 2^64: of a closed memory's, say.
pub fn sum_of(words: &[u64]) -> u64
    ensures { result ≡ sum words.now % 2 ^ 64 }
{
    let mut total: u64 = 0;
    for word in words {
        total = total.wrapping_add(*word);
    }
    total
}
