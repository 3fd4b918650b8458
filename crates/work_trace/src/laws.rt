//! Laws of traces, each as the contract of a function.
ghost use Rattle.work_trace.specs.Adapting.{AsksByPolicy};
ghost use Rattle.work_trace.specs.Told.{ItemsHaveScripts, OneWriterFits, TellsEachOnce};

/// Each caller's own items have the scripts that it has among all.
pub fn items_have_scripts()
    ensures { ItemsHaveScripts }
{}

/// The report of a trace that fits has one row for each transaction, and no other: those of each caller are
/// numbered from 0.
pub fn tells_each_once()
    ensures { TellsEachOnce }
{}

/// A begin, a write and a commit are the trace of a workload with the one transaction, where no policy is.
pub fn one_writer_fits()
    ensures { OneWriterFits }
{}

/// A policy asks for a switch exactly where it chooses another algorithm than the one that runs: to that one.
pub fn asks_by_policy()
    ensures { AsksByPolicy }
{}
