//! Laws of transactions, as the contracts of functions that do nothing.
ghost use Rattle.tx_atomic.specs.Moments.{HaveMoments};
ghost use Rattle.tx_watching.specs.Watches.{CoverReads};

use stm_bell::stripes::Stripes;
use stm_model::rule::MemRule;
use tx_transaction::transaction::Transaction;

/// Each transaction that took effect (`took` of `atomically`) has its moment in the history that begins with what its
/// caller has seen since, as that which `close` tells of does: after all that the caller had seen before it, the memory
/// is good and explains what the transaction read; and what it wrote, if anything, makes it that of the next moment,
/// and is its caller's one entry.
pub fn transactions_have_moments<K: MemRule, T: Transaction<K>>(rule: &K, transaction: &T)
    ensures { HaveMoments (K.good rule.now) (λ words came log.
        T.postcondition transaction.now rule.now words came log) }
{}

/// Who sleeps (`sleep` of waiting) has read a memory, and has announced each word that it read: in the history there
/// was, after all that the caller had seen as it announced these stripes, a memory on which the transaction answers so,
/// None, and each read of it was of a word of theirs.
pub fn sleepers_have_read<K: MemRule, V: Drop, T: Transaction<K, Output = Option<V>>>(
    rule: &K,
    transaction: &T,
    stripes: Stripes,
)
    ensures { HaveMoments (K.good rule.now) (λ words came log.
        T.postcondition transaction.now rule.now words came log × CoverReads stripes log) }
{}
