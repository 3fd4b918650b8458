//! What the parts come to in a history, as the contract of a function.
ghost use Rattle.std.specs.Prelude.{ℕ, ◌≡◌, ◌+◌, Bool, List, Some, Ok, length, sum_by};
ghost use Rattle.tx_jobs.specs.Jobs.{Entry, IsLegal, Log, AreDeeds, InOrder, Leads, made_by, memory_after};
ghost use Rattle.tx_parts.specs.Laying.{ComesAwaited};
ghost use Rattle.example_mailbox.specs.declared.mail.Mailbox.{Mailbox};
ghost use Rattle.example_mailbox.specs.Mail.{IsMailbox, mail_in, PostTells, ReceiveTells, Deed, Posted, Received, Moves, Did, waiting, posts, receives};

/// A transaction that posts is the deed of it, and one that takes an urgent message, or else another, receives: the
/// first of the urgent messages, or there was none and it is the first of the others. In a history of such deeds it is
/// so at each moment, and each message that was posted is received once, or waits.
pub fn messages_come_in_order()
    ensures post { (mailbox : Mailbox) (words first room : ℕ) (urgent : Bool) (message : ℕ)
        (log : Log)
        → ComesAwaited (IsMailbox mailbox) words first room (PostTells mailbox words urgent message) (Some (Ok tt)) log
        → Did mailbox words (Posted urgent message) log }
    ensures receive { (mailbox : Mailbox) (words first room message : ℕ) (log : Log)
        → ComesAwaited (IsMailbox mailbox) words first room (ReceiveTells mailbox words) (Some (Ok message)) log
        → Did mailbox words (Received message) log }
    ensures moves { (deed : Deed) (mail : Bool → List ℕ) → Moves deed mail mail → ⊥ }
    ensures order { (mailbox : Mailbox) (opening : List ℕ) (floor : ℕ) (history : List Entry)
        (own : ℕ → List Deed) → IsLegal (IsMailbox mailbox) opening floor history
        → ((n : ℕ) → AreDeeds (Did mailbox (length opening)) (made_by n history) (own n))
        → InOrder (Did mailbox (length opening)) Moves own history (mail_in mailbox opening)
        (mail_in mailbox (memory_after history opening)) }
    ensures once { (message : ℕ) (deeds : List Deed) (from to : Bool → List ℕ)
        → Leads Moves deeds from to
        → waiting message from + sum_by (posts message) deeds
        ≡ sum_by (receives message) deeds + waiting message to }
{}
