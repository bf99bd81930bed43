//! Which clauses of a list are joined.
ghost use Rattle.std.specs.Prelude.{◌≡◌, ◌<◌, length};
ghost use Rattle.risc_search.specs.Clauses.{begins, is_joined};

use crate::condition::Clause;

/// Reports whether the clause at an index is joined to the one after it.
#[inline(always)]
pub(crate) fn is_joined(clauses: &[Clause], index: usize) -> bool
    requires { index < length clauses.now }
    ensures { result ≡ is_joined clauses.now index }
{
    clauses[index].joined
}

/// Reports whether the clause at an index is the first of those that are joined with it.
pub(crate) fn begins(clauses: &[Clause], index: usize) -> bool
    requires { index < length clauses.now }
    ensures { result ≡ begins clauses.now index }
{
    index == 0 || !is_joined(clauses, index - 1)
}
