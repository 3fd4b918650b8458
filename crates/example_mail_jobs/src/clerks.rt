//! What callers do: the first two post, and the others receive.
ghost use Rattle.std.specs.Prelude.{◌≡◌, ◌==◌, ◌%◌, IfSome, map};
ghost use Rattle.tx_jobs.specs.Deeds.{HasDone};
ghost use Rattle.tx_jobs.specs.Gathered.{listed};
ghost use Rattle.example_mailbox.specs.Mail.{Fits, Did, Posted, Received};

use example_mailbox::mail::{Mailbox, Post, Take};
use std::alloc::Global;
use std::sync::Wait;
use tx_jobs::calls::Calls;
use tx_jobs::gather::{Errand, gather};
use tx_jobs::job::Job;
use tx_parts::or_else::OrElse;
use tx_parts::whole::{Awaited, Whole};

/// How many messages each producer posts, and each consumer receives.
pub const EACH: u32 = 300;

/// They are numbered from 0 on, those of producer 0 first. Each third is urgent.
pub const MESSAGES: u32 = 2 * EACH;

/// The messages that a caller posted, or received, in its order.
#[derive(Drop)]
pub struct Share {
    pub messages: Vec<u32>,
}

/// Callers 0 and 1 post, and callers 2 and 3 receive.
#[derive(Drop)]
pub struct Clerks {
    pub alloc: Global,
}

impl<R: Wait> Job<R, Mailbox> for Clerks {
    ghost use Rattle.example_mailbox.specs.Mail.{Fits};
    ghost use Rattle.example_mail_jobs.specs.Days.{TellsIn};

    type Output = Share;

    ghost precondition = { λ job mailbox words. Fits mailbox words };

    // it posted the first of its messages, or received some, and lists them
    ghost postcondition = { λ job mailbox words caller share before after. TellsIn mailbox words caller share before after };

    fn work<C: Calls<R, Mailbox>>(&self, caller: &mut C) -> Share {
        match gather(caller, self.alloc, EACH as usize, self) {
            Ok(messages) => Share { messages },
            Err(_) => Share {
                messages: Vec::new(self.alloc),
            },
        }
    }
}

impl<R: Wait> Errand<R, Mailbox> for Clerks {
    ghost use Rattle.std.specs.Prelude.{◌<◌, ◌≡◌, ◌+◌, ◌*◌, IfSome, map};
    ghost use Rattle.tx_jobs.specs.Deeds.{HasDone};
    ghost use Rattle.tx_jobs.specs.Gathered.{listed};
    ghost use Rattle.example_mailbox.specs.Mail.{Fits, Did};
    ghost use Rattle.example_mail_jobs.specs.Days.{deed_of};

    type Item = u32;

    ghost precondition = { λ it mailbox words round. Fits mailbox words × (round < 300) };

    // it posted the next of its messages, or received one, and answers it
    ghost postcondition = { λ it mailbox words caller round answer before after. HasDone (Did mailbox words) (map (deed_of caller) (listed answer)) before.made after.made × IfSome answer (λ message. caller < 2 → message ≡ caller * 300 + round) };

    fn round<C: Calls<R, Mailbox>>(&self, caller: &mut C, round: usize) -> Option<u32> {
        let number = caller.number();
        if number < 2 {
            post(caller, self.alloc, number as u32 * EACH + round as u32)
        } else {
            receive(caller, self.alloc)
        }
    }
}

/// Posts a message, as soon as there is room. Answers it, if it did.
fn post<R: Wait, C: Calls<R, Mailbox>>(caller: &mut C, alloc: Global, message: u32) -> Option<u32>
    requires precondition { Fits (C.seat caller.old).rule (C.seat caller.old).words }
    ensures keeps { C.keeps caller.old caller.new }
    ensures same { C.seat caller.new ≡ C.seat caller.old }
    ensures is { IfSome result (λ posted. posted ≡ message) }
    ensures posted { HasDone (Did (C.seat caller.old).rule (C.seat caller.old).words)
        (map (λ posted. Posted (posted % 3 == 0) posted) (listed result))
        (C.known caller.old).made (C.known caller.new).made }
{
    let part = Post {
        urgent: message % 3 == 0,
        message,
    };
    let whole = Whole {
        part,
        first: 0,
        room: 8,
        alloc,
    };
    match caller.until_some(&Awaited { whole }) {
        Some(Ok(())) => Some(message),
        _ => None,
    }
}

/// Takes an urgent message, or else another, or waits for one.
fn receive<R: Wait, C: Calls<R, Mailbox>>(caller: &mut C, alloc: Global) -> Option<u32>
    requires precondition { Fits (C.seat caller.old).rule (C.seat caller.old).words }
    ensures keeps { C.keeps caller.old caller.new }
    ensures same { C.seat caller.new ≡ C.seat caller.old }
    ensures received { HasDone (Did (C.seat caller.old).rule (C.seat caller.old).words)
        (map Received (listed result)) (C.known caller.old).made (C.known caller.new).made }
{
    let part = OrElse {
        first: Take { urgent: true },
        second: Take { urgent: false },
    };
    let whole = Whole {
        part,
        first: 0,
        room: 8,
        alloc,
    };
    match caller.until_some(&Awaited { whole }) {
        Some(Ok(message)) => Some(message),
        Some(Err(_)) => None,
        None => None,
    }
}
