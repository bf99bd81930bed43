//! Ranges of numbers.
ghost use Rattle.std.specs.Prelude.{◌≡◌, ◌<◌, ◌/◌, ◌^◌, ◌↔◌, IsTrue, ℕ};
ghost use Rattle.risc_search.specs.Span.{IsIn, Meets};

/// The numbers from `from` up to, but not including, `end`. There are none if `end` is not above `from`.
#[derive(Clone, Copy, Debug, PartialEq, Eq)]
pub struct Span {
    /// The first number.
    pub from: u32,
    /// The number after the last.
    pub end: u32,
}

impl Span {
    #[inline(always)]
    pub(crate) fn contains(self, number: u32) -> bool
        ensures { IsTrue result ↔ IsIn self number }
    {
        self.from <= number && number < self.end
    }

    /// Reports whether one of `count` numbers from `first` on is in the range.
    #[inline(always)]
    pub(crate) fn meets(self, first: u32, count: u32) -> bool
        ensures { IsTrue result ↔ Meets self first count }
    {
        self.from.max(first) < self.end.min(first.saturating_add(count))
    }

    /// Returns how many numbers there are.
    pub(crate) fn count(self) -> u32 {
        self.end.saturating_sub(self.from)
    }

    /// Returns the numbers from the first of two ranges to the last of them.
    pub(crate) fn joined(self, other: Span) -> Span
        ensures this { (n : ℕ) → IsIn self n → IsIn result n }
        ensures other { (n : ℕ) → IsIn other n → IsIn result n }
    {
        Span {
            from: self.from.min(other.from),
            end: self.end.max(other.end),
        }
    }

    /// Returns a range of bytes with all bytes of the words of RAM of which it has one.
    pub(crate) fn of_words(self) -> Span
        ensures { (n m : ℕ) → IsIn self n → m / 4 ≡ n / 4 → m < 2 ^ 20 → IsIn result m }
    {
        Span {
            from: self.from - self.from % 4,
            end: self.end.saturating_add(3),
        }
    }
}

/// No number. Joined with another range, it gives that range.
pub(crate) const NONE: Span = Span {
    from: u32::MAX,
    end: 0,
};

/// All numbers but the greatest.
pub(crate) const ALL: Span = Span {
    from: 0,
    end: u32::MAX,
};
