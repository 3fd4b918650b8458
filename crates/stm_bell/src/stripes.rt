//! Sets of words.
ghost use Rattle.std.specs.Prelude.{◌≡◌, ℕ, ◌<◌, true};
ghost use Rattle.std.specs.Int.{bit_at};
ghost use Rattle.stm_bell.specs.Stripes.{Has, Covers};

/// A set of words, roughly: the stripes that they are of. The word at `a` is of stripe `a % 32`.
#[derive(Clone, Copy, Drop, Debug, PartialEq, Eq)]
pub struct Stripes {
    pub(crate) bits: u32,
}

impl Stripes {
    /// Of no word.
    pub fn none() -> Stripes {
        Stripes { bits: 0 }
    }

    /// Of all words.
    pub fn all() -> Stripes
        ensures { (a : ℕ) → Has a result }
    {
        Stripes { bits: u32::MAX }
    }

    /// Of words of which the lowest six bits of the address are told: bit `b` for those that are `b`.
    pub fn of_bits(bits: u64) -> Stripes
        ensures { (a : ℕ) → a < 64 → bit_at bits a ≡ 1 → Has a result }
    {
        Stripes {
            bits: ((bits | (bits >> 32)) & 0xffff_ffff) as u32,
        }
    }

    /// Adds the word at `a`.
    pub fn add(&mut self, a: usize)
        ensures there { Has a self.new }
        ensures stays { Covers self.new self.old }
    {
        self.bits |= 1 << (a % 32);
    }

    /// Of the words of both.
    pub fn with(self, other: Stripes) -> Stripes
        ensures first { Covers result self }
        ensures second { Covers result other }
    {
        Stripes {
            bits: self.bits | other.bits,
        }
    }

    /// Whether they have a stripe in common.
    pub(crate) fn meet(self, other: Stripes) -> bool {
        self.bits & other.bits != 0
    }

    /// Whether each stripe of the other is one of these.
    pub fn covers(self, other: Stripes) -> bool
        ensures { result ≡ true → Covers self other }
    {
        other.bits & !self.bits == 0
    }
}
