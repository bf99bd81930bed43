//! The law of the book's limits: the value of each name.

ghost use Rattle.oberon_claims.specs.Laws.{HasBookLimits};

/// States each limit of a book by its value.
pub fn book_limits_law()
    ensures { HasBookLimits }
{}
