//! The handle of a past in the memory of a caller: the pointer of its box, without a type, and whether there is one.
//!
//! No export may have a type in its signature that holds or points to a `Box`. So a handle holds a plain pointer, and its ghost value
//! states which past is behind it.
ghost use Rattle.std.specs.Prelude.{◌≡◌, ◌<◌, IfNone, IfSome, IsSome, None, Option, Some, is_some, ltb};
ghost use Rattle.oberon_past.specs.Past.{PastParts};

use crate::loose::Loose;
use oberon_past::Past;
use std::alloc::Global;
use std::marker::Model;
use std::mem;

/// The pointer of a box of a past, or null. It is not `Drop`, so no code can lose what it owns.
#[repr(C)]
pub struct Sealed {
    at: *mut u8,
    alloc: Global,
    pub ghost past: { Option PastParts },
}

impl Model for Sealed {
    ghost use Rattle.oberon_past.specs.contracts.past.Past.{the_row};
    ghost use Rattle.galluspa.specs.inner.Held.{held};

    ghost also_owns = { λ sealed. held the_row sealed.alloc sealed.at sealed.past };
}

impl Sealed {
    fn of(past: Loose<Past, Global>) -> Sealed
        ensures { result.past ≡ Some past.value }
    {
        let Loose { at, alloc } = past;
        Sealed {
            at: at as *mut u8,
            alloc,
        }
    }

    fn nothing(alloc: Global) -> Sealed
        ensures { result.past ≡ None }
    {
        Sealed {
            at: std::ptr::null_mut(),
            alloc,
        }
    }

    fn open(self) -> Loose<Past, Global>
        requires { IsSome self.past }
        ensures { self.past ≡ Some result.value }
    {
        let Sealed { at, alloc } = self;
        Loose {
            at: at as *mut Past,
            alloc,
        }
    }

    fn end(self) -> Global
        requires { self.past ≡ None }
        ensures { result ≡ self.alloc }
    {
        let Sealed { at: _, alloc } = self;
        alloc
    }
}

/// The handle of a past: 16 bytes, all zeros if none is open. It may go from thread to thread.
#[repr(C)]
pub struct RawPast {
    sealed: Sealed,
    /// 0 if no past is open.
    pub is_open: u64,
    ghost agrees: { is_some sealed.past ≡ ltb 0 is_open },
}

impl RawPast {
    /// Takes the past out, and leaves the handle closed.
    pub(crate) fn take(&mut self, alloc: Global) -> Option<Box<Past>>
        ensures some { IfSome result (λ past. self.old.sealed.past ≡ Some past.value) }
        ensures open { IfSome result (λ _. 0 < self.old.is_open) }
        ensures none { IfNone result (self.old.is_open ≡ 0) }
        ensures unchanged { IfNone result (self.new ≡ self.old) }
        ensures closed { self.new.is_open ≡ 0 }
    {
        if self.is_open == 0 {
            return None;
        }
        let closed = RawPast {
            sealed: Sealed::nothing(alloc),
            is_open: 0,
        };
        let RawPast { sealed, is_open: _ } = mem::replace(self, closed);
        Some(sealed.open().into_box())
    }

    /// Frees the past, if there is one, and leaves the handle closed.
    pub(crate) fn close(&mut self, alloc: Global)
        ensures { self.new.is_open ≡ 0 }
    {
        let _past = self.take(alloc);
    }

    /// Puts a past into a closed handle.
    pub(crate) fn put(&mut self, past: Box<Past>)
        requires { self.old.is_open ≡ 0 }
        ensures { self.new.sealed.past ≡ Some past.value }
    {
        let opened = RawPast {
            sealed: Sealed::of(Loose::of(past)),
            is_open: 1,
        };
        let RawPast { sealed, is_open: _ } = mem::replace(self, opened);
        let _alloc = sealed.end();
    }
}

// It may go to another thread, as the box of a past may.
unsafe impl Send for Sealed {}
