//! Laws of the definitions, each the contract of a function.
ghost use Rattle.work_cli.specs.Asking.{AskOnce};
ghost use Rattle.work_cli.specs.Limits.{LimitsAre};

/// The greatest numbers of a command line are these.
pub fn limits_are()
    ensures { LimitsAre }
{}

/// Words ask for one command at most.
pub fn words_ask_once()
    ensures { AskOnce }
{}
