//! Ranges of the values of words, signed or not.
ghost use Rattle.std.specs.Prelude.{◌≡◌, ◌≤◌, ◌↔◌, IsTrue};
ghost use Rattle.risc_search.specs.Values.{IsOneOf};

/// The words from `least` up to `most`, where 0 comes after 2^32 - 1: so signed numbers have ranges, too, and all words but one are a
/// range.
#[derive(Clone, Copy, Debug, PartialEq, Eq)]
pub struct Values {
    /// The first value.
    pub least: u32,
    /// The last value.
    pub most: u32,
}

impl Values {
    /// Reports whether a word is in the range.
    #[inline(always)]
    pub(crate) fn contains(self, word: u32) -> bool
        ensures { IsTrue result ↔ IsOneOf self word }
    {
        word.wrapping_sub(self.least) <= self.most.wrapping_sub(self.least)
    }
}
