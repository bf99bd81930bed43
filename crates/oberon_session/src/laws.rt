//! The laws of sessions, of stored memories and of the recorder, each the contract of a function that does nothing.

ghost use Rattle.oberon_session.specs.Laws.{FirstTableLaw, HasPiece, OneAnswer, PlainLaw, StoredLaw};

/// Any bytes have exactly one answer: their session, or the first rule that they break.
pub fn answer_law()
    ensures { OneAnswer }
{}

/// Bytes that encode a session of version 1 or 2 are read as the same session with a disk, and it is one of a machine without one.
pub fn plain_law()
    ensures { PlainLaw }
{}

/// In a session's first table the slot of page i has page id i + 1, and a slot without a page has page id 0.
pub fn first_table_law()
    ensures { FirstTableLaw }
{}

/// When a memory is stored, the pages that changed and are not all zeros are added to the pool, in the order of their slots. A slot
/// that did not change keeps its page id, one that changed to zeros gets page id 0, and any other that changed gets the id of a new
/// page. The memory is then the content of its table.
pub fn laid_law()
    ensures { StoredLaw }
{}

/// The recorder runs a machine in pieces of at most 1,048,576 steps, and tests the length of the output after each.
pub fn piece_law()
    ensures { HasPiece }
{}
