//! An access over plain memory, by one caller alone.
ghost use Rattle.std.specs.Prelude.{◌≡◌, [], length, MatchOption, not};
ghost use Rattle.stm_model.specs.Memories.{AreWords, overlay, is_empty};
ghost use Rattle.stm_model.specs.Plains.{openings, own_writes};

use crate::access::Access;
use crate::stop::Stop;
use std::marker::Model;

/// A word: what the attempt found there, and what it has written since.
#[derive(Clone, Copy, Drop, Debug, PartialEq, Eq)]
pub struct PlainWord {
    pub opening: u64,
    pub own: Option<u64>,
}

impl PlainWord {
    /// The word as the attempt sees it.
    pub fn value(&self) -> u64
        ensures { MatchOption self.now.own (result ≡ self.now.opening) (λ own. result ≡ own) }
    {
        match self.own {
            Some(own) => own,
            None => self.opening,
        }
    }
}

/// A memory for one caller; contracts see the list of its words. Its one good memory is that of the
/// opening values; its log has a read of each word's opening value, and the own values as its writes.
/// It never stops and takes no memory. A read or a write takes one step; `settle` and `forget` go over
/// all words.
#[derive(Drop)]
pub struct Plain {
    words: Vec<PlainWord>,
}

impl Model for Plain {
    ghost use Rattle.std.specs.Prelude.{List};
    ghost use Rattle.stm_model.specs.Memories.{AreWords};
    ghost use Rattle.stm_model.specs.Plains.{openings};
    ghost use Rattle.stm_model.specs.declared.plain.PlainWord.{PlainWord};

    ghost Value = { List PlainWord };

    ghost view = { λ p. p.words.items };

    ghost invariant = { λ p. AreWords (openings p.words.items) };
}

impl Plain {
    pub fn new(words: Vec<PlainWord>) -> Plain
        requires words { AreWords (openings words.items) }
        ensures { result ≡ words.items }
    {
        Plain { words }
    }

    /// The words, by address.
    pub fn words(&self) -> &[PlainWord]
        ensures { result.now ≡ self.now }
    {
        self.words.as_slice()
    }

    /// Commits: the own values become the opening ones. Answers whether there were any.
    pub fn settle(&mut self) -> bool
        ensures wrote { result ≡ not (is_empty (own_writes self.old)) }
        ensures settled { openings self.new ≡ overlay (openings self.old) (own_writes self.old) }
        ensures cleared { own_writes self.new ≡ [] }
        ensures length { length self.new ≡ length self.old }
    {
        let mut wrote = false;
        for i in 0..self.words.len() {
            let word = self.words[i];
            wrote |= word.own.is_some();
            self.words[i] = PlainWord {
                opening: word.value(),
                own: None,
            };
        }
        wrote
    }

    /// Cancels: the own values are dropped.
    pub fn forget(&mut self)
        ensures opened { openings self.new ≡ openings self.old }
        ensures cleared { own_writes self.new ≡ [] }
        ensures length { length self.new ≡ length self.old }
    {
        for i in 0..self.words.len() {
            let opening = self.words[i].opening;
            self.words[i] = PlainWord { opening, own: None };
        }
    }
}

impl Access for Plain {
    ghost use Rattle.std.specs.Prelude.{◌≡◌, length, None};
    ghost use Rattle.stm_model.specs.Plains.{plain_log, openings};
    ghost use Rattle.stm_model.specs.PlainLaws.{plain-once};

    ghost log = { λ p. plain_log p };

    ghost good = { λ p memory. memory ≡ openings p };

    ghost words = { λ p. length p };

    ghost stopped = { λ p. None };

    ghost keeps = { λ p q. Unit {0} };

    ghost keeps_refl = { λ p. tt };

    ghost keeps_trans = { λ p q r a b. tt };

    ghost once = { λ p. plain-once p };

    fn read(&mut self, a: usize) -> Result<u64, Stop> {
        let v = self.words[a].value();
        Ok(v)
    }

    fn write(&mut self, a: usize, v: u64) -> Result<(), Stop> {
        let opening = self.words[a].opening;
        self.words[a] = PlainWord {
            opening,
            own: Some(v),
        };
        Ok(())
    }
}
