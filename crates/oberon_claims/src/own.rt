//! The book's own seat, kept in the book while threads share it.
//!
//! A seat may move to another thread, but cannot be shared by reference, and the book is shared. So the book keeps its own
//! seat as a badge in the one slot of a small table, on which no step is ever made.
ghost use Rattle.std.specs.Prelude.{◌≡◌, [], ◌∷◌, IfOk};
ghost use Rattle.oberon_claims.specs.declared.book.View.{View};

use crate::book::View;
use atomic_table::{Badge, Seat, Table, TableRule};
use std::alloc::{AllocError, Global};
use std::marker::Model;
use std::snapshot::Snapshot;

/// The invariant of the small table: its slot is not taken out, and holds the badge that the table was made with.
pub struct AtHome;

impl TableRule<Badge<View>, u8, Snapshot<Badge<View>>> for AtHome {
    ghost use Rattle.oberon_claims.specs.inner.Own.{IsAtHome, no_view};

    ghost holds = { IsAtHome };

    ghost first = { no_view };
}

/// The book's own seat, which nobody can use until it is taken out.
///
/// Contracts see the table whose seat it is, and the seat's view.
#[derive(Drop)]
pub struct OwnSeat {
    table: Table<Badge<View>, u8, Snapshot<Badge<View>>, AtHome, Global>,
}

impl Model for OwnSeat {
    ghost use Rattle.std.specs.Prelude.{◌≡◌};
    ghost use Rattle.oberon_claims.specs.inner.Own.{OwnRecord};

    ghost Value = { OwnRecord };

    ghost view = { λ o. record { table = o.table.shared.key.value.table_id; views = o.table.shared.key.value.views } };

    ghost invariant = { λ o. o.table.shared.table_id.slots ≡ 1 };
}

impl OwnSeat {
    /// Puts the seat away. It fails only if memory runs out, and then the seat is lost.
    pub fn new(alloc: Global, seat: Seat<u8, View>) -> Result<OwnSeat, AllocError>
        requires { seat.me.1 ≡ [] }
        ensures table { IfOk result (λ o. o.table ≡ seat.table_id) }
        ensures view { IfOk result (λ o. o.views ≡ seat.me.0 ∷ []) }
    {
        let badge = seat.into_badge();
        let made_with = Snapshot::of(&badge);
        let mut slots = Vec::with_capacity(alloc, 1)?;
        slots.push(badge)?;
        let Ok((table, _)) = Table::new(alloc, &[], slots, &made_with) else {
            return Err(AllocError);
        };
        Ok(OwnSeat { table })
    }

    /// Takes the seat out. It allocates nothing.
    pub fn into_seat(self) -> Seat<u8, View>
        requires { (v : View) × (self.views ≡ v ∷ []) }
        ensures table { result.table_id ≡ self.table }
        ensures view { (self.views ≡ result.me.0 ∷ []) × (result.me.1 ≡ []) }
    {
        let OwnSeat { table } = self;
        let mut closed = table.close();
        let badge = closed.take(0);
        closed.free();
        badge.into_seat()
    }
}
