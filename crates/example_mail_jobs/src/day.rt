//! What came of a day of mail: each message once, and nothing else.
ghost use Rattle.std.specs.Prelude.{◌≡◌, ◌<◌, ℕ, true, false, List, length, sum_by};
ghost use Rattle.stm_model.specs.Histories.{Entry};
ghost use Rattle.example_mailbox.specs.Mail.{receives};
ghost use Rattle.example_mail_jobs.specs.Days.{IsDay, IsThrough};

use crate::clerks::{EACH, Share};
use example_mailbox::mail::Mailbox;
use tx_jobs::closed::ClosedMemory;

/// Two queues with eight cells each, in 20 words.
pub const MAILBOX: Mailbox = Mailbox { cells: 8 };

/// Whether all messages were posted, and none waits any more: then each was received once.
pub fn each_came_once<P>(came: &ClosedMemory<Share, P>) -> bool
    requires words { length came.now.words.items ≡ 20 }
    requires callers { length came.now.answers.items ≡ 4 }
    ensures through { result ≡ true → IsThrough came.now.words.items came.now.answers.items }
    ensures only { result ≡ false
        → IsThrough came.now.words.items came.now.answers.items → ⊥ }
    ensures once { result ≡ true
        → (history : List Entry)
        (day : IsDay came.now.words.items came.now.answers.items history) (message : ℕ)
        → message < 600 → sum_by (receives message) day.order.deeds ≡ 1 }
{
    let each = EACH as usize;
    if came.answers[0].messages.len() != each || came.answers[1].messages.len() != each {
        return false;
    }
    let urgent = MAILBOX.queue(true).len_in(&came.words);
    let others = MAILBOX.queue(false).len_in(&came.words);
    (urgent, others) == (0, 0)
}
