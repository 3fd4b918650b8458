//! The algorithms. What is said of each by its name stands in one table, `specs/Algorithms.antt`.

/// An algorithm that runs transactions behind the one interface.
#[derive(Clone, Copy, Drop, Debug, PartialEq, Eq)]
pub enum Alg {
    /// One lock from begin to commit (coarse-grained lock).
    Cgl,
    /// The mutex-like sequence lock of Dalessandro, Dice, Scott, Shavit and Spear (2010).
    Tml,
    /// Ownership records taken at commit, after Dice, Shalev and Shavit (2006), with the extension of
    /// Riegel, Felber and Fetzer (2006).
    OrecLazy,
    /// Ownership records taken at the first write, with an undo log.
    OrecEager,
    /// The single-writer ring of Spear, Michael and von Praun (2008).
    RingSw,
    /// One lock, with an undo log.
    Serial,
}

/// All algorithms, by their number.
pub const ALGORITHMS: [Alg; 6] = [
    Alg::Cgl,
    Alg::Tml,
    Alg::OrecLazy,
    Alg::OrecEager,
    Alg::RingSw,
    Alg::Serial,
];

impl Alg {
    ghost use Rattle.std.specs.Prelude.{◌≡◌};
    ghost use Rattle.stm_model.specs.Algorithms.{alg_name, alg_number, begins_even, entry_rise, irrevocable_under};

    /// The name in workloads and traces.
    pub fn name(self) -> &'static str
        ensures { result.now ≡ alg_name self }
    {
        match self {
            Alg::Cgl => "CGL",
            Alg::Tml => "TML",
            Alg::OrecLazy => "OrecLazy",
            Alg::OrecEager => "OrecEager",
            Alg::RingSw => "RingSW",
            Alg::Serial => "Serial",
        }
    }

    /// The number in a gate word, 0 to 5.
    pub fn number(self) -> u64
        ensures { result ≡ alg_number self }
    {
        match self {
            Alg::Cgl => 0,
            Alg::Tml => 1,
            Alg::OrecLazy => 2,
            Alg::OrecEager => 3,
            Alg::RingSw => 4,
            Alg::Serial => 5,
        }
    }

    /// Whether it begins at an even clock alone, to which an install raises an odd one.
    pub fn begins_even(self) -> bool
        ensures { result ≡ begins_even self }
    {
        match self {
            Alg::Tml => true,
            Alg::Cgl | Alg::OrecLazy | Alg::OrecEager | Alg::RingSw | Alg::Serial => false,
        }
    }

    /// By how much an attempt that commits what it wrote raises the clock, 1 or 2.
    pub fn entry_rise(self) -> u64
        ensures { result ≡ entry_rise self }
    {
        match self {
            Alg::Tml => 2,
            Alg::Cgl | Alg::OrecLazy | Alg::OrecEager | Alg::RingSw | Alg::Serial => 1,
        }
    }

    /// Whether an attempt can't be cancelled, by whether it was granted and whether it wrote.
    pub fn irrevocable_under(self, granted: bool, wrote: bool) -> bool
        ensures { result ≡ irrevocable_under self granted wrote }
    {
        match self {
            Alg::Cgl => true,
            Alg::Tml => granted || wrote,
            Alg::OrecLazy | Alg::OrecEager | Alg::RingSw | Alg::Serial => granted,
        }
    }
}
