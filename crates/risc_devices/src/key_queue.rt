//! The queue of key codes that wait to be read. The device word that reads it is in `devices`.

ghost use Rattle.std.specs.Prelude.{◌≡◌, ◌≤◌, ◌<◌, ◌^◌, ◌↔◌, [], length, drop, All, IsOk, IfOk, IsTrue};
ghost use Rattle.risc_devices.specs.KeyCodes.{joined, oldest};

use crate::fault::RangeFault;
use arrayvec::ArrayVec;
use std::marker::Model;

/// At most sixteen key codes, oldest first.
#[derive(Drop)]
pub(crate) struct KeyQueue {
    waiting: ArrayVec<u8, 16>,
}

impl Model for KeyQueue {
    ghost use Rattle.std.specs.Prelude.{List, ℕ, ◌≤◌, ◌<◌, ◌^◌, length, All};

    ghost Value = { List ℕ };

    ghost view = { λ q. q.waiting.items };

    ghost invariant = { λ q. (length q.waiting.items ≤ 16) × All (λ code. code < 2 ^ 8) q.waiting.items };
}

impl KeyQueue {
    /// Makes the queue of these codes, oldest first. Refuses more than sixteen.
    pub(crate) fn new(codes: &[u8]) -> Result<KeyQueue, RangeFault>
        ensures few { IsOk result ↔ (length codes.now ≤ 16) }
        ensures codes { IfOk result (λ q. q ≡ codes.now) }
    {
        match ArrayVec::try_from(codes) {
            Ok(waiting) => Ok(KeyQueue { waiting }),
            Err(_) => Err(RangeFault),
        }
    }

    /// Returns the waiting codes, oldest first.
    #[inline]
    pub(crate) fn codes(&self) -> &[u8]
        ensures codes { result.now ≡ self.now }
        ensures few { length self.now ≤ 16 }
        ensures bytes { All (λ code. code < 2 ^ 8) self.now }
    {
        self.waiting.as_slice()
    }

    #[inline]
    pub(crate) fn is_empty(&self) -> bool
        ensures { IsTrue result ↔ (self.now ≡ []) }
    {
        self.waiting.is_empty()
    }

    /// Adds a code at the end, or drops it if sixteen wait.
    #[tactic(auto, unfolding(crate::specs::KeyCodes::joined))]
    #[cold]
    pub(crate) fn join(&mut self, code: u8)
        ensures { self.new ≡ joined code self.old }
    {
        if !self.waiting.is_full() {
            self.waiting.push(code);
        }
    }

    /// Takes the oldest code out of the queue and returns it, or 0 if none waits.
    #[cold]
    pub(crate) fn leave(&mut self) -> u8
        ensures value { result ≡ oldest self.old }
        ensures after { self.new ≡ drop 1 self.old }
    {
        if self.waiting.is_empty() {
            return 0;
        }
        self.waiting.remove(0)
    }

    #[cold]
    pub(crate) fn copy(&self) -> KeyQueue
        ensures { result ≡ self.now }
    {
        let codes = self.waiting.as_slice();
        KeyQueue {
            waiting: ArrayVec::try_from(codes).unwrap(),
        }
    }
}
