//! The command line's grammar, as clap takes it.
ghost use Rattle.std.specs.Prelude.{◌≡◌, IfOk};
ghost use Rattle.clap.specs.Words.{app_of};
ghost use Rattle.work_cli.specs.Grammar.{bench_app, run_shape, step_shape, sized_shape, gen_shape, check_shape, reading_app, first_app, IsAbove, IsLeafCommand};

use clap::{Arg, Command};
use std::alloc::{AllocError, Global};

/// `stm_bench run [--policy P] [FILE]`, `stm_bench step [FILE]`, `stm_bench gen N T SEED` and
/// `stm_bench check [FILE [REPORT]]`. Each value is a text to clap.
pub fn bench_command<'a>(alloc: Global) -> Result<Command<'a>, AllocError>
    ensures { IfOk result (λ c. app_of c ≡ bench_app) }
{
    first_commands(alloc)?.subcommand(check_command(alloc)?)
}

/// Those that run a workload.
fn first_commands<'a>(alloc: Global) -> Result<Command<'a>, AllocError>
    ensures { IfOk result (IsAbove first_app) }
{
    reading_commands(alloc)?.subcommand(gen_command(alloc)?)
}

/// Those that read the workload that they run.
fn reading_commands<'a>(alloc: Global) -> Result<Command<'a>, AllocError>
    ensures { IfOk result (IsAbove reading_app) }
{
    Command::new(alloc, "stm_bench")
        .subcommand_required(true)
        .subcommand(run_command(alloc)?)?
        .subcommand(step_command(alloc)?)
}

fn run_command<'a>(alloc: Global) -> Result<Command<'a>, AllocError>
    ensures { IfOk result (IsLeafCommand run_shape) }
{
    let policy = Arg::new(alloc, "policy").long("policy");
    Command::new(alloc, "run")
        .arg(policy)?
        .arg(Arg::new(alloc, "FILE"))
}

fn step_command<'a>(alloc: Global) -> Result<Command<'a>, AllocError>
    ensures { IfOk result (IsLeafCommand step_shape) }
{
    Command::new(alloc, "step").arg(Arg::new(alloc, "FILE"))
}

fn gen_command<'a>(alloc: Global) -> Result<Command<'a>, AllocError>
    ensures { IfOk result (IsLeafCommand gen_shape) }
{
    sized_command(alloc)?.arg(Arg::new(alloc, "SEED").required(true))
}

/// `gen N T`.
fn sized_command<'a>(alloc: Global) -> Result<Command<'a>, AllocError>
    ensures { IfOk result (IsLeafCommand sized_shape) }
{
    Command::new(alloc, "gen")
        .arg(Arg::new(alloc, "N").required(true))?
        .arg(Arg::new(alloc, "T").required(true))
}

fn check_command<'a>(alloc: Global) -> Result<Command<'a>, AllocError>
    ensures { IfOk result (IsLeafCommand check_shape) }
{
    Command::new(alloc, "check")
        .arg(Arg::new(alloc, "FILE"))?
        .arg(Arg::new(alloc, "REPORT"))
}
