//! A word of RAM that an instruction stores to, and the changes of its bits.
ghost use Rattle.std.specs.Prelude.{◌≡◌, ◌<◌, ◌^◌};

use crate::span::Span;
use risc_core::is_set;

/// A word of RAM that an instruction stores to.
#[derive(Clone, Copy)]
pub(crate) struct StoredWord {
    pub(crate) number: u32,
    /// Its value before the instruction.
    pub(crate) old: u32,
    /// Its value after the instruction.
    pub(crate) new: u32,
    pub ghost range: { number < 2 ^ 18 },
}

impl StoredWord {
    ghost use Rattle.std.specs.Prelude.{◌<◌, ◌↔◌, IsTrue};
    ghost use Rattle.risc_search.specs.inner.Observed.{Differs, DiffersAt};

    /// Reports whether a bit of the word differs, is named by the mask, and is in a byte in the range.
    pub(crate) fn differs(self, bytes: Span, mask: u32) -> bool
        ensures { IsTrue result ↔ Differs bytes mask self }
    {
        for index in 0..32 {
            if self.differs_at(bytes, mask, index) {
                return true;
            }
        }
        false
    }

    /// Reports whether the bit at an index of the word is such.
    #[inline]
    fn differs_at(self, bytes: Span, mask: u32, index: u32) -> bool
        requires { index < 32 }
        ensures { IsTrue result ↔ DiffersAt bytes mask self index }
    {
        is_set(mask, index)
            && bytes.contains(4 * self.number + index / 8)
            && is_set(self.old, index) != is_set(self.new, index)
    }
}
