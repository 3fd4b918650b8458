//! Bytes of a line: words and numbers.
ghost use Rattle.std.specs.Prelude.{◌≡◌, ◌<◌, ◌≤◌, ◌+◌, ◌∷◌, MatchOption, take, drop, length, bytes_eq, not, ltb, ◌||◌, ◌↔◌, ℕ, false, slice_index, IfSome};
ghost use Rattle.work_text.specs.Lines.{number_of, number_from, Lacks};
ghost use Rattle.work_text.specs.WordLaws.{Visible};
ghost use Rattle.std.specs.Int.{bit_at};
ghost use Rattle.work_text.specs.Reading.{is_visible, end_of, EndsBy};

use std::simd::prelude::*;

/// The place of the first `b`.
pub fn find(b: u8, s: &[u8]) -> Option<usize>
    ensures { MatchOption result (Lacks b s.now)
        (λ i. (i < length s.now) × Lacks b (take i s.now) × (drop i s.now ≡ b ∷ drop (i + 1) s.now)) }
{
    for (i, x) in s.iter().enumerate() {
        if *x == b {
            return Some(i);
        }
    }
    None
}

/// What stands after the byte at `i`.
pub fn past(s: &[u8], i: usize) -> &[u8]
    requires { i < length s.now }
    ensures { result.now ≡ drop (i + 1) s.now }
{
    &s[i + 1..]
}

/// What ends a word.
#[derive(Clone, Copy, Drop, Debug, PartialEq, Eq)]
pub enum End {
    /// A space: another word follows.
    Space,
    /// An LF: the line is over.
    Line,
    /// A byte that no line may have.
    Bad,
    /// The end of the text.
    Text,
}

/// The length of the first word, of bytes from 33 to 126, and what ends it.
#[inline(always)]
pub fn first_word(s: &[u8]) -> (usize, End)
    ensures within { result.0 ≤ length s.now }
    ensures visible { Visible (take result.0 s.now) }
    ensures end { EndsBy result.1 result.0 s.now }
{
    // a branch for each of the two usual ends goes on at once to what follows it; the others go the long way
    if let Some(i) = near_end(s) {
        match s[i] {
            b' ' => return (i, End::Space),
            b'\n' => return (i, End::Line),
            _ => {}
        }
    }
    long_word(s)
}

/// How many bytes are looked at together.
const LANES: usize = 16;

/// The length of the first word, where it ends within so many bytes and as many are there.
#[inline(always)]
fn near_end(s: &[u8]) -> Option<usize>
    ensures { IfSome result (λ i.
        (i < length s.now) × Visible (take i s.now) × (is_visible (slice_index s.now i) ≡ false)) }
{
    if s.len() < LANES {
        return None;
    }
    let ends = ends(s);
    if ends == 0 {
        return None;
    }
    Some(ends.trailing_zeros() as usize)
}

/// Which of the first bytes can't stand in a word: bit k is for byte k.
#[inline(always)]
fn ends(s: &[u8]) -> u64
    requires { 16 ≤ length s.now }
    ensures { (k : ℕ) → (bit_at result k ≡ 1)
        ↔ ((k < 16) × (is_visible (slice_index s.now k) ≡ false)) }
{
    // less 127, which wraps below it, those of a word are the numbers from 162 on
    let turned = u8x16::from_slice(s) - u8x16::splat(127);
    turned.simd_lt(u8x16::splat(162)).to_bitmask()
}

/// The same of a word of any length.
#[inline(never)]
fn long_word(s: &[u8]) -> (usize, End)
    ensures within { result.0 ≤ length s.now }
    ensures visible { Visible (take result.0 s.now) }
    ensures end { EndsBy result.1 result.0 s.now }
{
    for (i, b) in s.iter().enumerate() {
        if !is_visible(*b) {
            return (i, end_of(*b));
        }
    }
    (s.len(), End::Text)
}

/// Whether a byte may stand on a line.
pub(crate) fn may_stand(b: u8) -> bool
    ensures { result ≡ not (ltb b 32 || ltb 126 b) }
{
    32 <= b && b <= 126
}

/// Whether a byte may stand in a word.
#[inline(always)]
fn is_visible(b: u8) -> bool
    ensures { result ≡ is_visible b }
{
    33 <= b && b <= 126
}

/// What a byte is the end of a word as, where it isn't one of a word.
#[inline(always)]
fn end_of(b: u8) -> End
    ensures { result ≡ end_of b }
{
    match b {
        b' ' => End::Space,
        b'\n' => End::Line,
        _ => End::Bad,
    }
}

/// Whether a word is this one.
#[inline(always)]
pub fn is(word: &[u8], name: &[u8]) -> bool
    ensures { result ≡ bytes_eq word.now name.now }
{
    if word.len() != name.len() {
        return false;
    }
    for i in 0..name.len() {
        let found = word[i];
        let wanted = name[i];
        if found != wanted {
            return false;
        }
    }
    true
}

/// The number that a word is: decimal, without sign and leading zeros, below 2^64.
#[inline(always)]
pub fn number(word: &[u8]) -> Option<u64>
    ensures { result ≡ number_of word.now }
{
    match word {
        [] => None,
        [_] => digits(word),
        [first, ..] => { if *first == b'0' { None } else { digits(word) } }
    }
}

/// After each number below this one there is room for any digit.
const ROOMY: u64 = u64::MAX / 10;

#[inline(always)]
fn digits(word: &[u8]) -> Option<u64>
    ensures { result ≡ number_from 0 word.now }
{
    let mut n = 0u64;
    for b in word {
        if !b.is_ascii_digit() {
            return None;
        }
        let digit = u64::from(*b - b'0');
        n = if n < ROOMY {
            n * 10 + digit
        } else {
            n.checked_mul(10)?.checked_add(digit)?
        };
    }
    Some(n)
}
