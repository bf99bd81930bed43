//! Sinks of the bytes that a machine sends: a vector, output with room for so many bytes, none, or a comparison with expected bytes.
ghost use Rattle.std.specs.Prelude.{◌≡◌, ◌≤◌, ◌++◌, ◌∷◌, [], List, ℕ, Bool, true, false, IsTrue, OnOk, OnErr, length, ◌↔◌};
ghost use Rattle.risc_machine.specs.inner.Matched.{HasMatched};

/// A sink did not take a byte, since it has no room for it, or no memory.
#[derive(Clone, Copy)]
pub(crate) struct NotTaken;

/// Takes the bytes that a machine sends, in order.
pub(crate) trait Sink {
    // the bytes that were taken so far
    ghost has_sent: { Self → List ℕ → Type 0 };

    // whether it may fail to take a byte
    ghost can_fail: { Bool };

    // what stays the same
    ghost kept: { Self → List ℕ };

    fn put(&mut self, byte: u8) -> Result<(), NotTaken>
        ensures ok { OnOk result ((l : List ℕ) → has_sent self.old l → has_sent self.new (l ++ byte ∷ [])) }
        ensures err { OnErr result ((l : List ℕ) → has_sent self.old l → has_sent self.new l) }
        ensures fails { OnErr result (IsTrue can_fail) }
        ensures kept { kept self.new ≡ kept self.old };
}

impl Sink for Vec<u8> {
    ghost has_sent = { λ v l. v.items ≡ l };

    ghost can_fail = { true };

    ghost kept = { λ _. [] };

    #[inline]
    fn put(&mut self, byte: u8) -> Result<(), NotTaken> {
        match self.push(byte) {
            Ok(()) => Ok(()),
            Err(_) => Err(NotTaken),
        }
    }
}

/// The bytes that a machine sent, and for how many there is room. A run that takes it ends before it would send more.
#[derive(Drop)]
pub struct Output {
    /// The bytes, in order.
    pub bytes: Vec<u8>,
    /// The most bytes that there may be.
    pub room: usize,
}

impl Sink for Output {
    ghost has_sent = { λ o l. (o.bytes.items ≡ l) × (length l ≤ o.room) };

    ghost can_fail = { true };

    ghost kept = { λ o. o.room ∷ [] };

    #[inline]
    fn put(&mut self, byte: u8) -> Result<(), NotTaken> {
        if self.bytes.len() >= self.room {
            return Err(NotTaken);
        }
        self.bytes.put(byte)
    }
}

/// Drops the bytes that it takes.
#[derive(Drop)]
pub(crate) struct Dropped;

impl Sink for Dropped {
    ghost has_sent = { λ _ _. Unit {0} };

    ghost can_fail = { false };

    ghost kept = { λ _. [] };

    #[inline]
    fn put(&mut self, _byte: u8) -> Result<(), NotTaken> {
        Ok(())
    }
}

/// Compares the bytes that it takes with the expected ones.
#[derive(Drop)]
pub(crate) struct Matching<'a> {
    expected: &'a [u8],
    taken: usize,
    same: bool,
}

impl<'a> Sink for Matching<'a> {
    ghost has_sent = { λ m l. HasMatched m l };

    ghost can_fail = { false };

    ghost kept = { λ m. m.expected.now };

    #[inline]
    fn put(&mut self, byte: u8) -> Result<(), NotTaken> {
        if self.same {
            if self.taken < self.expected.len() && self.expected[self.taken] == byte {
                self.taken += 1;
            } else {
                self.same = false;
            }
        }
        Ok(())
    }
}

impl<'a> Matching<'a> {
    /// Returns a comparison with these bytes, which has taken no byte yet.
    pub(crate) fn new(expected: &'a [u8]) -> Self
        ensures matched { HasMatched result [] }
        ensures expected { result.expected.now ≡ expected.now }
    {
        Matching {
            expected,
            taken: 0,
            same: true,
        }
    }

    /// Reports whether the bytes that were sent are the expected ones, and all of them.
    pub(crate) fn is_whole(&self) -> bool
        ensures { (l : List ℕ) → HasMatched self.now l → (IsTrue result ↔ (l ≡ self.now.expected.now)) }
    {
        self.same && self.taken == self.expected.len()
    }
}
