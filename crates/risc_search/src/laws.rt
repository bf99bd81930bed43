//! Laws of a search. Each is the contract of a function that does nothing.
ghost use Rattle.risc_search.specs.Laws.{ConditionLimitLaw, HitsLaw};

/// States how many conditions a search takes at most.
pub const fn condition_limit_law()
    ensures { ConditionLimitLaw }
{}

/// States that a range has one list of hits, which those of its parts make up.
pub const fn hits_law()
    ensures { HitsLaw }
{}
