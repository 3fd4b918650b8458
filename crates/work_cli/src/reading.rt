//! The words of a command line, read.
ghost use Rattle.std.specs.Prelude.{◌≡◌, ◌≢◌, ℕ, IfOk, MatchOption, Some, codes, map, option_map};
ghost use Rattle.std.specs.Fmt.{decimal};
ghost use Rattle.clap.specs.Words.{first_of, found_of, rows_of, subcommand_of, subcommand_rows_of};
ghost use Rattle.work_profile.specs.declared.policy.Policy.{Policy};
ghost use Rattle.work_profile.specs.PolicyWords.{IsUpTo};
ghost use Rattle.work_cli.specs.declared.command.Command.{Command};
ghost use Rattle.work_cli.specs.Asking.{Asks, AsksBy, AsksIn, IsGen, NamesPolicy, file_in, report_in, subcommand_name, texts_of};
ghost use Rattle.work_cli.specs.Grammar.{AreTaken, bench_app};

use crate::command::{Command, MOST_TRANSACTIONS};
use crate::grammar::bench_command;
use clap::ArgMatches;
use clap::error::ErrorKind;
use std::alloc::Global;
use stm_model::config::MAX_CALLERS;
use stm_model::memory::Memory;
use work_profile::numbers::{number, number_up_to};
use work_profile::policy::Policy;

/// What the words ask for, the first of them the program's name; `None` where they aren't in the grammar, also
/// where they call for help. Memory may be refused.
pub fn read_words(alloc: Global, words: &[&str]) -> Result<Option<Command>, Memory>
    ensures { IfOk result (λ r.
        MatchOption r ((command : Command) → Asks (texts_of words.now) command → ⊥)
        (Asks (texts_of words.now))) }
{
    match bench_command(alloc)?.try_get_matches_from(words) {
        Ok(matches) => Ok(command_of(&matches)),
        Err(error) => match error.kind() {
            ErrorKind::OutOfMemory => Err(Memory),
            _ => Ok(None),
        },
    }
}

/// What the subcommand that clap found asks for.
fn command_of(matches: &ArgMatches<'_>) -> Option<Command>
    ensures { MatchOption result
        ((command : Command) → AsksIn (subcommand_rows_of matches.now) command → ⊥)
        (AsksIn (subcommand_rows_of matches.now)) }
{
    match matches.subcommand() {
        Some(("run", found)) => Some(Command::Run {
            policy: policy_of(found)?,
        }),
        Some(("step", _)) => Some(Command::Step),
        Some(("gen", found)) => {
            let (transactions, callers, seed) = gen_of(found)?;
            Some(Command::Gen {
                transactions,
                callers,
                seed,
            })
        }
        Some(("check", found)) => Some(check_of(found)),
        _ => None,
    }
}

/// What `check` is to read.
fn check_of(found: &ArgMatches<'_>) -> Command
    ensures name { subcommand_name result ≡ codes "check" }
    ensures by { AsksBy (rows_of (found_of found.now)) result }
{
    if text_of(found, "REPORT").is_some() {
        return Command::CheckApart;
    }
    if text_of(found, "FILE").is_some() {
        Command::CheckWorkload
    } else {
        Command::Check
    }
}

/// The names of files that words give, where they are in the grammar.
#[derive(Clone, Copy, Drop, Debug, PartialEq, Eq)]
pub struct Files<'a> {
    /// Of the text that is read first, in place of standard input.
    pub first: Option<&'a str>,
    /// Of a report of its own text.
    pub report: Option<&'a str>,
}

/// The names of files that the words give, the first word the program's name. Memory may be refused.
pub fn read_files<'a>(alloc: Global, words: &'a [&'a str]) -> Result<Files<'a>, Memory>
    ensures first { AreTaken (texts_of words.now) → IfOk result (λ f. option_map (λ s. s.now) f.first
        ≡ file_in (subcommand_of bench_app (texts_of words.now))) }
    ensures report { AreTaken (texts_of words.now) → IfOk result (λ f. option_map (λ s. s.now) f.report
        ≡ report_in (subcommand_of bench_app (texts_of words.now))) }
{
    match bench_command(alloc)?.try_get_matches_from(words) {
        Ok(matches) => Ok(files_in(&matches)),
        Err(error) => match error.kind() {
            ErrorKind::OutOfMemory => Err(Memory),
            _ => Ok(Files {
                first: None,
                report: None,
            }),
        },
    }
}

/// The names of files that the subcommand has which clap found.
fn files_in<'a>(matches: &ArgMatches<'a>) -> Files<'a>
    ensures first { option_map (λ s. s.now) result.first ≡ file_in (subcommand_rows_of matches.now) }
    ensures report { option_map (λ s. s.now) result.report
        ≡ report_in (subcommand_rows_of matches.now) }
{
    match matches.subcommand() {
        Some((_, found)) => Files {
            first: text_of(found, "FILE"),
            report: text_of(found, "REPORT"),
        },
        None => Files {
            first: None,
            report: None,
        },
    }
}

/// The policy of `run`.
fn policy_of(found: &ArgMatches<'_>) -> Option<Policy>
    ensures { MatchOption result ((policy : Policy)
        → NamesPolicy (first_of (codes "policy") (rows_of (found_of found.now))) policy → ⊥)
        (NamesPolicy (first_of (codes "policy") (rows_of (found_of found.now)))) }
{
    match text_of(found, "policy") {
        None => Some(Policy::Fixed),
        Some(word) => match word.parse() {
            Ok(policy) => Some(policy),
            Err(_) => None,
        },
    }
}

/// The transactions, the callers and the seed of `gen`.
fn gen_of(found: &ArgMatches<'_>) -> Option<(u32, u32, u64)>
    ensures { MatchOption result
        ((n t seed : ℕ) → IsGen (rows_of (found_of found.now)) n t seed → ⊥) (λ g.
        IsGen (rows_of (found_of found.now)) g.0 g.1 g.2) }
{
    let transactions = size_of(found, "N", MOST_TRANSACTIONS)?;
    let callers = size_of(found, "T", MAX_CALLERS as u32)?;
    let seed = number(text_of(found, "SEED")?)?;
    Some((transactions, callers, seed))
}

/// The number of this name, from 1 to `most`.
fn size_of(found: &ArgMatches<'_>, name: &str, most: u32) -> Option<u32>
    ensures { MatchOption result ((n : ℕ) → IsUpTo most n
        → first_of name.now (rows_of (found_of found.now)) ≢ Some (decimal n)) (λ n.
        IsUpTo most n × (first_of name.now (rows_of (found_of found.now)) ≡ Some (decimal n))) }
{
    number_up_to(most, text_of(found, name)?)
}

/// The text of this name.
fn text_of<'a>(found: &ArgMatches<'a>, name: &str) -> Option<&'a str>
    ensures { option_map (λ s. s.now) result ≡ first_of name.now (rows_of (found_of found.now)) }
{
    found.get_str(name)
}
