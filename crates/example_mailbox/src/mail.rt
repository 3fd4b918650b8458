//! The mailbox: its rule, and its parts.
ghost use Rattle.std.specs.Prelude.{◌≡◌};
ghost use Rattle.example_mailbox.specs.Mail.{put_of};

use data_queue::queue::{Put, Queue};
use stm_model::rule::MemRule;
use stm_model::stop::Stop;
use tx_parts::nesting::Nesting;
use tx_parts::part::Part;

/// A mailbox of two queues with so many cells each: the urgent messages, and after their words the others.
///
/// As a rule: both are well formed.
#[derive(Clone, Copy, Drop, Debug, PartialEq, Eq)]
pub struct Mailbox {
    pub cells: usize,
}

impl MemRule for Mailbox {
    ghost use Rattle.example_mailbox.specs.Mail.{IsMailbox};

    ghost good = { λ mailbox memory. IsMailbox mailbox memory };
}

impl Mailbox {
    ghost use Rattle.std.specs.Prelude.{◌≡◌, ◌<◌, ◌^◌, ◌+◌, ℕ};
    ghost use Rattle.example_mailbox.specs.Mail.{queue_of, Fits};

    /// The queue of the urgent messages, or of the others.
    pub fn queue(&self, urgent: bool) -> Queue
        requires precondition { self.now.cells + 2 < 2 ^ 64 }
        ensures { result ≡ queue_of self.now urgent }
    {
        if urgent {
            Queue::new(0, self.cells)
        } else {
            Queue::new(self.cells + 2, self.cells)
        }
    }
}

/// Puts a message after the others of its kind. It gives way where there is no room.
#[derive(Clone, Copy, Drop, Debug, PartialEq, Eq)]
pub struct Post {
    pub urgent: bool,
    pub message: u32,
}

impl Part<Mailbox> for Post {
    ghost use Rattle.example_mailbox.specs.Mail.{Fits, PostTells};

    type Output = ();

    ghost precondition = { λ it mailbox words. Fits mailbox words };

    ghost depth = { λ it. 0 };

    ghost postcondition = { λ it mailbox words came before after. PostTells mailbox words it.urgent it.message came before after };

    fn run<N: Nesting>(&self, mailbox: &Mailbox, memory: &mut N) -> Result<Option<()>, Stop> {
        let put = mailbox.queue(self.urgent).put(memory, self.message)?;
        Ok(done(put))
    }
}

/// Whether there was room.
fn done(put: Put) -> Option<()>
    ensures { put_of result ≡ put }
{
    match put {
        Put::Added => Some(()),
        Put::NoRoom => None,
    }
}

/// Takes the first message of a kind out. It gives way where there is none.
#[derive(Clone, Copy, Drop, Debug, PartialEq, Eq)]
pub struct Take {
    pub urgent: bool,
}

impl Part<Mailbox> for Take {
    ghost use Rattle.example_mailbox.specs.Mail.{Fits, TakeTells};

    type Output = u32;

    ghost precondition = { λ it mailbox words. Fits mailbox words };

    ghost depth = { λ it. 0 };

    ghost postcondition = { λ it mailbox words came before after. TakeTells mailbox words it.urgent came before after };

    fn run<N: Nesting>(&self, mailbox: &Mailbox, memory: &mut N) -> Result<Option<u32>, Stop> {
        let message = mailbox.queue(self.urgent).get(memory)?;
        Ok(message)
    }
}
