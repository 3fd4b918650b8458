//! Filters: sets of addresses by their bits. Filters of sets that share an address meet; some meet that share none.
ghost use Rattle.std.specs.Prelude.{◌≡◌, ◌≢◌, ◌<◌, ◌*◌, ◌/◌, ◌%◌, ◌^◌, ℕ, IsTrue, length, slice_index, slice_set, replicate, bit_or};
ghost use Rattle.stm_logs.specs.Filters.{Has, address_word, with_bit, part_meets, meets, lowest_common};

use std::marker::Model;

/// 1,024 bits: 16 words in four parts of 256 bits, in each of which an address sets one bit. Contracts see the list of
/// the words.
#[derive(Drop, Debug)]
pub struct Filter {
    words: [u64; 16],
}

impl Model for Filter {
    ghost use Rattle.std.specs.Prelude.{ℕ, List};

    ghost Value = { List ℕ };

    ghost view = { λ f. f.words };
}

impl Filter {
    /// The filter of no address.
    pub fn new() -> Filter
        ensures { result ≡ replicate 16 0 }
    {
        Filter { words: [0; 16] }
    }

    /// Adds the address's bit in each part. Four words are written. A read makes it, so it stands in line there.
    #[inline(always)]
    pub fn add(&mut self, a: usize)
        ensures size { length self.new ≡ 16 }
        ensures words { (i : ℕ) → i < 16
            → slice_index self.new i ≡ bit_or (address_word a i) (slice_index self.old i) }
        ensures there { Has a (slice_index self.new) }
        ensures stays { (b : ℕ) → Has b (slice_index self.old) → Has b (slice_index self.new) }
    {
        set_bit(&mut self.words, 0, a % 256);
        set_bit(&mut self.words, 1, a / 256 % 256);
        set_bit(&mut self.words, 2, mixed_bit(a, 2654435761));
        set_bit(&mut self.words, 3, mixed_bit(a, 2246822519));
    }

    /// Whether the filters have a common bit in each of the four parts. It reads the words once, and no part after the
    /// first that has none.
    #[inline]
    pub fn meets(&self, other: &Filter) -> bool
        ensures meets { result ≡ meets (slice_index self.now) (slice_index other.now) }
        ensures shared { (a : ℕ) → Has a (slice_index self.now) → Has a (slice_index other.now)
            → IsTrue result }
    {
        parts_meet(&self.words, &other.words)
    }

    /// The common bits of the lowest word that has any, else 0. Filters that meet have some; others may have some too.
    /// It reads the words once, and none after that word.
    pub fn common(&self, other: &Filter) -> u64
        ensures common { result ≡ lowest_common (slice_index self.now) (slice_index other.now) }
        ensures some { IsTrue (meets (slice_index self.now) (slice_index other.now)) → result ≢ 0 }
    {
        for i in 0..16 {
            let bits = self.words[i] & other.words[i];
            if bits != 0 {
                return bits;
            }
        }
        0
    }

    /// Word `i`, which is below 16.
    pub fn word(&self, i: usize) -> u64
        requires { i < 16 }
        ensures { result ≡ slice_index self.now i }
    {
        self.words[i]
    }

    /// Sets word `i`, which is below 16, and no other.
    pub fn set_word(&mut self, i: usize, w: u64)
        requires { i < 16 }
        ensures size { length self.new ≡ 16 }
        ensures words { self.new ≡ slice_set self.old i w }
    {
        self.words[i] = w;
    }
}

/// The top 8 of the 32 low bits of a product, as a bit of a part.
#[inline]
fn mixed_bit(a: usize, factor: usize) -> usize
    requires { factor < 4294967296 }
    ensures value { result ≡ a * factor % 4294967296 / 16777216 }
    ensures within { result < 256 }
{
    a.wrapping_mul(factor) % 4294967296 / 16777216
}

#[inline]
fn set_bit(words: &mut [u64; 16], part: usize, bit: usize)
    requires part { part < 4 }
    requires within { bit < 256 }
    ensures { words.new ≡ with_bit part bit words.old }
{
    words[4 * part + bit / 64] |= 1 << (bit % 64);
}

#[inline]
fn parts_meet(f: &[u64; 16], g: &[u64; 16]) -> bool
    ensures { result ≡ meets (slice_index f.now) (slice_index g.now) }
{
    part_meets(f, g, 0) && part_meets(f, g, 1) && part_meets(f, g, 2) && part_meets(f, g, 3)
}

/// Whether the four words of a part have a common bit.
#[inline]
fn part_meets(f: &[u64; 16], g: &[u64; 16], part: usize) -> bool
    requires { part < 4 }
    ensures { result ≡ part_meets (slice_index f.now) (slice_index g.now) part }
{
    let from = 4 * part;
    let low = f[from] & g[from] | f[from + 1] & g[from + 1];
    let high = f[from + 2] & g[from + 2] | f[from + 3] & g[from + 3];
    low | high != 0
}
