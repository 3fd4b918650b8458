//! Laws of the definitions, each the contract of a function.
ghost use Rattle.work_profile.specs.Limits.{LimitsAre};

/// The numbers of profiles and policies are these.
pub fn limits_are()
    ensures { LimitsAre }
{}
