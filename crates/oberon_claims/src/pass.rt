//! The pass of one worker. This module has the type only; the calls that use a pass are in `claims`.

use crate::book::View;
use atomic_table::Seat;
use std::marker::Model;

/// One worker's ticket to a book, with which it claims jobs, looks, and reports segments. `Claims::new` makes the passes and
/// `Claims::finish` takes them back.
///
/// A pass can move to another thread. Contracts see its book, the jobs that it took, the segments that it reported, the
/// values that it was shown, and whether a claim with it was answered `None`. Only the last of these exists at run time.
#[derive(Drop)]
pub struct Pass {
    pub(crate) seat: Seat<u8, View>,
    pub(crate) answered_none: bool,
}

impl Model for Pass {
    ghost use Rattle.oberon_claims.specs.Pass.{PassRecord};

    ghost Value = { PassRecord };

    ghost use Rattle.oberon_claims.specs.inner.Shown.{shown_pass, IsTicket};

    ghost view = { shown_pass };

    ghost invariant = { IsTicket };
}
