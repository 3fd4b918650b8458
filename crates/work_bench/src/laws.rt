//! Laws of the definitions, the contracts of functions.
ghost use Rattle.work_bench.specs.Confirming.{RunIsConfirmed};
ghost use Rattle.work_bench.specs.Headline.{Headline};

use work_check::laws::after_is_confirmed;
use work_io::ends::{Sink, Source};

/// Of a workload's text, and after it what `run` wrote of it at status 0, `check` says yes, where what was written
/// isn't longer than a report may be.
pub fn run_is_confirmed()
    ensures { RunIsConfirmed }
{
    after_is_confirmed();
}

/// What `bench` promises of `run` at status 0 is the headline.
pub fn run_is_right<S: Source, K: Sink>()
    ensures { Headline S.left S.faults K.held K.faults }
{}
