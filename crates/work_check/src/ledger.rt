//! A memory on which one caller runs many transactions, one after the other.
ghost use Rattle.std.specs.Prelude.{◌≡◌, ◌<◌, [], not, replicate, length, None, Some, IfOk, IfErr};
ghost use Rattle.stm_model.specs.Memories.{AreWords, overlay, is_empty};
ghost use Rattle.stm_model.specs.Plains.{openings, own_writes};
ghost use Rattle.work_check.specs.Ledgers.{zero_word};

use std::alloc::{AllocError, Global};
use std::marker::Model;
use stm_model::access::Access;
use stm_model::memory::Memory;
use stm_model::plain::PlainWord;
use stm_model::stop::Stop;

/// A memory as `Plain`, which remembers the words that were written, so that a commit and a cancel go over these
/// alone. It never stops; after `new` it takes no memory.
#[derive(Drop)]
pub struct Ledger {
    words: Vec<PlainWord>,
    // the addresses written since the last commit or cancel
    touched: Vec<usize>,
}

impl Model for Ledger {
    ghost use Rattle.std.specs.Prelude.{List, length, vec_capacity, ◌≤◌};
    ghost use Rattle.stm_model.specs.Memories.{AreWords};
    ghost use Rattle.stm_model.specs.Plains.{openings};
    ghost use Rattle.stm_model.specs.declared.plain.PlainWord.{PlainWord};
    ghost use Rattle.work_check.specs.Ledgers.{AreTouched};

    ghost Value = { List PlainWord };

    ghost view = { λ l. l.words.items };

    ghost invariant = { λ l. AreTouched l.words.items l.touched.items × (length l.words.items ≤ vec_capacity l.touched) × AreWords (openings l.words.items) };
}

impl Ledger {
    /// So many words of 0.
    ///
    /// # Errors
    /// Memory, where it is refused.
    pub fn new(alloc: Global, words: usize) -> Result<Ledger, Memory>
        ensures { IfOk result (λ l. l ≡ replicate words zero_word) }
    {
        let zero = PlainWord {
            opening: 0,
            own: None,
        };
        let touched = Vec::with_capacity(alloc, words)?;
        let words = vec![in alloc; zero; words]?;
        Ok(Ledger { words, touched })
    }

    /// Its opening values are words of the machine.
    pub fn has_words(&self)
        ensures { AreWords (openings self.now) }
    {
        let _words = self.words.len();
    }

    /// Whether a word is written.
    pub fn has_written(&self) -> bool
        ensures { result ≡ not (is_empty (own_writes self.now)) }
    {
        !self.touched.is_empty()
    }

    /// The opening values, by address. Goes over all words.
    ///
    /// # Errors
    /// Memory, where it is refused.
    pub fn values(&self, alloc: Global) -> Result<Vec<u64>, AllocError>
        ensures { IfOk result (λ v. v.items ≡ openings self.now) }
    {
        let mut values = Vec::with_capacity(alloc, self.words.len())?;
        for word in &self.words {
            values.push(word.opening)?;
        }
        Ok(values)
    }

    /// Commits: the own values become the opening ones. Takes a step for each word written.
    pub fn settle(&mut self)
        ensures settled { openings self.new ≡ overlay (openings self.old) (own_writes self.old) }
        ensures cleared { own_writes self.new ≡ [] }
        ensures length { length self.new ≡ length self.old }
    {
        while let Some(a) = self.touched.pop() {
            let word = self.words[a];
            self.words[a] = PlainWord {
                opening: word.value(),
                own: None,
            };
        }
    }

    /// Cancels: the own values are dropped. Takes a step for each word written.
    pub fn forget(&mut self)
        ensures opened { openings self.new ≡ openings self.old }
        ensures cleared { own_writes self.new ≡ [] }
        ensures length { length self.new ≡ length self.old }
    {
        while let Some(a) = self.touched.pop() {
            let opening = self.words[a].opening;
            self.words[a] = PlainWord { opening, own: None };
        }
    }
}

impl Access for Ledger {
    ghost use Rattle.std.specs.Prelude.{◌≡◌, length, None};
    ghost use Rattle.stm_model.specs.Plains.{plain_log, openings};
    ghost use Rattle.stm_model.specs.PlainLaws.{plain-once};

    ghost log = { λ l. plain_log l };

    ghost good = { λ l memory. memory ≡ openings l };

    ghost words = { λ l. length l };

    ghost stopped = { λ l. None };

    ghost keeps = { λ l k. Unit {0} };

    ghost keeps_refl = { λ l. tt };

    ghost keeps_trans = { λ l k j a b. tt };

    ghost once = { λ l. plain-once l };

    fn read(&mut self, a: usize) -> Result<u64, Stop> {
        let v = self.words[a].value();
        Ok(v)
    }

    fn write(&mut self, a: usize, v: u64) -> Result<(), Stop> {
        let word = self.words[a];
        if word.own.is_none() {
            self.touched.push_reserved(a);
        }
        self.words[a] = PlainWord {
            opening: word.opening,
            own: Some(v),
        };
        Ok(())
    }
}
