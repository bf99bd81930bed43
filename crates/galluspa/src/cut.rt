//! A past that is cut: what comes after a count is dropped.
ghost use Rattle.std.specs.Prelude.{◌≡◌, ◌≢◌, ◌≤◌, ◌<◌, ◌⊎◌, ◌↔◌};
ghost use Rattle.oberon_past.specs.Live.{IsUpTo};
ghost use Rattle.galluspa.specs.Past.{Holds, HoldsBoth, IsClosed, Keeps};

use crate::refusal::{CLOSED, DONE, LATER, OUT_OF_RANGE};
use crate::sealed::RawPast;
use oberon_past::PastFault;
use std::alloc::Global;

/// Drops what comes after a count, which becomes the end of the past: the inputs from the count on, and the keyframes after it.
/// Returns 0 (`DONE`). Its states up to the count stay what they are.
///
/// Otherwise the past stays as it is. The result is 13 (`CLOSED`) if none is open, 1 (`OUT_OF_RANGE`) if the count is before the first,
/// and 14 (`LATER`) if it is after the end.
#[unsafe(no_mangle)]
pub extern "C" fn galluspa_past_cut(alloc: Global, past: &mut RawPast, at: u64) -> u8
    ensures cut { result ≡ DONE → HoldsBoth (IsUpTo at) past.old past.new }
    ensures unchanged { result ≢ DONE → Keeps past.old past.new }
    ensures closed { result ≡ CLOSED ↔ IsClosed past.old }
    ensures range { result ≡ OUT_OF_RANGE → Holds (λ p. at < p.run.start) past.old }
    ensures later { result ≡ LATER → Holds (λ p. p.end < at) past.old }
    ensures codes { (result ≤ OUT_OF_RANGE) ⊎ (result ≡ CLOSED) ⊎ (result ≡ LATER) }
{
    let Some(mut here) = past.take(alloc) else {
        return CLOSED;
    };
    let cut = here.cut(at);
    past.put(here);
    match cut {
        Ok(()) => DONE,
        Err(PastFault::Later) => LATER,
        Err(_) => OUT_OF_RANGE,
    }
}
