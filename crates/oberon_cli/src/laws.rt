//! The law of the defaults, the contract of a function that does nothing.
ghost use Rattle.oberon_cli.specs.Laws.{DefaultsLaw};

/// No arguments, like `check` alone, ask for a check by 2 workers in jobs of one segment.
pub const fn defaults_law()
    ensures { DefaultsLaw }
{}
