//! What a jump does to the calls that are open.
ghost use Rattle.std.specs.Prelude.{◌≡◌, ◌&&◌, ◌||◌, ◌==◌, ◌<◌, nat_lt, nat_le, not, if◌then◌else◌};
ghost use Rattle.std.specs.List.{list_any, prefix_len};
ghost use Rattle.risc_model.specs.Turns.{IsStack};
ghost use Rattle.risc_machine.specs.inner.Follows.{ends_by, returns_by};

use risc_model::Call;

/// A branch that is taken, to another word than the next one.
#[derive(Clone, Copy)]
pub(crate) struct Jump {
    pub(crate) at: u32,
    pub(crate) to: u32,
    pub(crate) sp: u32,
    pub(crate) links: bool,
}

/// What a jump does to the open calls: how many of the oldest stay open, and whether it makes a call.
#[derive(Clone, Copy)]
pub(crate) struct Followed {
    pub(crate) stay: usize,
    pub(crate) calls: bool,
}

impl Followed {
    /// Reports whether it changes the open calls, of which there are so many.
    #[inline(always)]
    pub(crate) fn changes(&self, height: usize) -> bool
        ensures { result ≡ (self.now.calls || not (self.now.stay == height)) }
    {
        self.calls || self.stay != height
    }
}

/// What was seen of the open calls from an index on: the first that ends, or their number if none does; and whether the jump returns from
/// one.
#[derive(Clone, Copy)]
struct Seen {
    stay: usize,
    returns: bool,
}

impl Jump {
    /// Reports whether the jump returns from a call.
    #[inline(always)]
    fn returns_from(&self, call: &Call) -> bool
        ensures { result ≡ returns_by self.now call.now }
    {
        self.sp == call.sp && self.to == call.back
    }

    /// Reports whether the jump makes a call again.
    #[inline(always)]
    fn makes_again(&self, call: &Call) -> bool
        ensures { result ≡ ((self.now.sp == call.now.sp && self.now.at == call.now.at) && self.now.links) }
    {
        self.sp == call.sp && self.at == call.at && self.links
    }

    /// Reports whether the jump finds R14 above what it was at a call, and at most at the limit.
    #[inline(always)]
    fn gives_up(&self, limit: u32, call: &Call) -> bool
        ensures { result ≡ (nat_lt call.now.sp self.now.sp && nat_le self.now.sp limit) }
    {
        call.sp < self.sp && self.sp <= limit
    }

    /// Reports whether the jump ends a call.
    #[inline(always)]
    fn ends(&self, limit: u32, call: &Call) -> bool
        ensures { result ≡ ends_by limit self.now call.now }
    {
        self.gives_up(limit, call) || self.returns_from(call) || self.makes_again(call)
    }

    /// Reports whether a call is one of the stack, and the jump finds R14 below what it was then. So it is below that of each call before.
    #[inline(always)]
    fn is_below(&self, limit: u32, call: &Call) -> bool
        ensures { result ≡ (nat_lt self.now.sp call.now.sp && nat_le call.now.sp limit) }
    {
        self.sp < call.sp && call.sp <= limit
    }

    /// Sees the call at an index, after those that follow it.
    #[inline(always)]
    fn see(&self, limit: u32, index: usize, call: &Call, seen: Seen) -> Seen
        ensures stay { result.stay ≡ (if not (ends_by limit self.now call.now) then seen.stay else index) }
        ensures returns { result.returns ≡ (returns_by self.now call.now || seen.returns) }
    {
        let stay = if self.ends(limit, call) {
            index
        } else {
            seen.stay
        };
        let returns = self.returns_from(call) || seen.returns;
        Seen { stay, returns }
    }

    /// Returns what the jump does, by what was seen of all open calls.
    #[inline(always)]
    fn done(&self, seen: Seen) -> Followed
        ensures stay { result.stay ≡ seen.stay }
        ensures calls { result.calls ≡ (self.now.links && not seen.returns) }
    {
        Followed {
            stay: seen.stay,
            calls: self.links && !seen.returns,
        }
    }
}

/// Returns what a jump does to the open calls, oldest first.
///
/// R14 falls along the calls of the stack, so it looks from the last one back to the first that is of the stack and whose R14 is above what
/// it is now: mostly at one or two. If R14 is above the limit now, it looks at all.
#[inline]
pub(crate) fn follow(calls: &[Call], limit: u32, jump: &Jump) -> Followed
    ensures stay { IsStack limit calls.now →
        result.stay ≡ prefix_len (λ call. not (ends_by limit jump.now call)) calls.now }
    ensures calls { IsStack limit calls.now →
        result.calls ≡ (jump.now.links && not (list_any (returns_by jump.now) calls.now)) }
{
    let mut seen = Seen {
        stay: calls.len(),
        returns: false,
    };
    let mut next = calls.len();
    while next > 0 {
        let index = next - 1;
        let call = &calls[index];
        if jump.is_below(limit, call) {
            return jump.done(seen);
        }
        seen = jump.see(limit, index, call, seen);
        next = index;
    }
    jump.done(seen)
}
