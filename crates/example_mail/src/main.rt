//! A day of the mail of `example_mail_jobs` under each algorithm: whether each message was received once.
#![tactic(auto)]

ghost use Rattle.std.specs.Prelude.{◌≡◌, IfOk, length};
ghost use Rattle.example_mailbox.specs.Mail.{IsMailbox};
ghost use Rattle.example_mail_jobs.specs.declared.day.TheConstants.{MAILBOX};
ghost use Rattle.example_mail_jobs.specs.Days.{IsDay};

use example_mail_jobs::clerks::{Clerks, MESSAGES, Share};
use example_mail_jobs::day::{MAILBOX, each_came_once};
use nekchhaul::{ALGORITHMS, Alg, ClosedMemory, Evidence, NewError, sizes, with_memory};
use std::alloc::Global;
use std::process::ExitCode;
use std::sync::Wait;
use std::thread::Threads;

/// A day of mail under this algorithm. Each caller answers what it posted and received.
///
/// # Errors
/// Memory, where it is refused.
fn run<R: Threads + Wait + Sync>(
    rt: &R,
    alloc: Global,
    alg: Alg,
) -> Result<ClosedMemory<Share, Evidence>, NewError>
    ensures mailbox { IfOk result (λ came. IsMailbox MAILBOX came.words.items) }
    ensures count { IfOk result (λ came. length came.words.items ≡ 20) }
    ensures each { IfOk result (λ came. length came.answers.items ≡ 4) }
    ensures day { IfOk result (λ came.
        IsDay came.words.items came.answers.items came.past.closed.history) }
{
    with_memory(rt, alloc, sizes(20, 4), alg, MAILBOX, &Clerks { alloc })
}

fn main(rt: HostRuntime) -> ExitCode {
    for alg in ALGORITHMS {
        let Ok(came) = run(&rt, rt.alloc(), alg) else {
            return ExitCode::from(4);
        };
        let name = alg.name();
        let line = if each_came_once(&came) {
            println!(rt; "{name}: {MESSAGES} messages, each received once")
        } else {
            println!(rt; "{name}: not all messages were posted and received")
        };
        if line.is_err() {
            return ExitCode::from(6);
        }
    }
    ExitCode::from(0)
}
