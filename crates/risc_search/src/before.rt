//! What is known of a step before its instruction.
ghost use Rattle.std.specs.Prelude.{◌≡◌, ◌<◌, ◌^◌, IfSome, IsSome};
ghost use Rattle.risc_search.specs.inner.Observed.{IsBefore, IsStoredSince, word_stored};

use crate::access::{Access, next_access};
use crate::stored_word::StoredWord;
use risc_core::RAM_END;
use risc_machine::Machine;
use risc_pages::Memory;

/// What the next instruction of a machine accesses.
#[derive(Clone, Copy)]
pub(crate) struct Before {
    /// The bytes that it loads or stores.
    pub(crate) access: Option<Access>,
    /// The value of the word of RAM that it stores to, before it is done; or 0 if there is none.
    pub(crate) old: u32,
}

/// Returns the number of the word of RAM that an access stores to.
#[inline(always)]
pub(crate) fn word_stored(access: Option<Access>) -> Option<u32>
    ensures number { result ≡ word_stored access }
    ensures range { IfSome result (λ number. number < 2 ^ 18) }
{
    match access {
        Some(access) if access.stores && access.first < RAM_END => Some(access.first / 4),
        _ => None,
    }
}

impl Before {
    /// Returns what is known of the next step of a machine.
    #[inline(always)]
    pub(crate) fn of(machine: &Machine<'_>) -> Before
        ensures { IsBefore result machine.now.state }
    {
        let access = next_access(machine.cpu(), machine.memory());
        let old = match word_stored(access) {
            Some(number) => machine.memory().read(number),
            None => 0,
        };
        Before { access, old }
    }

    /// Returns the word of RAM that the instruction stored to, now that it is done.
    #[inline(always)]
    pub(crate) fn stored(&self, memory: &Memory<'_>) -> Option<StoredWord>
        ensures change { IsStoredSince self.now memory.now.words result }
        ensures there { IsSome result → IsSome (word_stored self.now.access) }
    {
        let Some(number) = word_stored(self.access) else {
            return None;
        };
        Some(StoredWord {
            number,
            old: self.old,
            new: memory.read(number),
        })
    }
}
