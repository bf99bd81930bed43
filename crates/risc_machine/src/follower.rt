//! What sees whether the steps of a run change the calls that are open.
ghost use Rattle.std.specs.Prelude.{◌≡◌, ℕ, None, false};
ghost use Rattle.risc_model.specs.MachineState.{State};
ghost use Rattle.risc_model.specs.Turns.{IsStack};
ghost use Rattle.risc_machine.specs.declared.follower.Follower.{Follower};
ghost use Rattle.risc_machine.specs.inner.Follows.{IsJump, IsStill, Sees};
ghost use Rattle.risc_machine.specs.inner.Observers.{Joins, PassesOn, SeesNothing};

use crate::decoded_op::DecodedOp;
use crate::follow::{Jump, follow};
use crate::hop::Hop;
use crate::observer::{Log, Observer};
use crate::processor::Processor;
use risc_model::Call;
use risc_pages::Memory;

/// Ends a loop after a step that changes the open calls.
///
/// It notes each hop, and looks at it before the next step: by then the registers and the memory say what it did. So when a loop ends, it
/// has the last hop, if that was not looked at.
#[derive(Clone, Copy)]
pub(crate) struct Follower<'c> {
    pub(crate) calls: &'c [Call],
    pub(crate) limit: u32,
    pub(crate) hop: Option<Hop>,
}

impl<'c> Follower<'c> {
    /// Returns a follower that saw no step.
    #[inline(always)]
    pub(crate) fn new(calls: &'c [Call], limit: u32) -> Self
        ensures calls { result.calls ≡ calls.entry }
        ensures limit { result.limit ≡ limit }
        ensures hop { result.hop ≡ None }
    {
        Follower {
            calls,
            limit,
            hop: None,
        }
    }

    /// Reports whether a jump changes the open calls.
    #[inline(always)]
    pub(crate) fn changes(&self, jump: &Jump) -> bool
        ensures { result ≡ false → IsStack self.now.limit self.now.calls.now →
            (s : State) → IsJump jump.now s → IsStill self.now.limit self.now.calls.now s }
    {
        follow(self.calls, self.limit, jump).changes(self.calls.len())
    }
}

impl<'c> Observer for Follower<'c> {
    ghost saw = { λ n s old new. Sees n s old new };

    ghost ready = { λ it _. it.hop ≡ None };

    #[inline(always)]
    fn admits(
        &mut self,
        processor: &Processor<'_>,
        memory: &Memory<'_>,
        _pc: u32,
        _op: &DecodedOp,
    ) -> bool {
        let Some(hop) = self.hop else {
            return true;
        };
        if self.changes(&hop.jump(&processor.cpu.r, memory)) {
            return false;
        }
        self.hop = None;
        true
    }

    #[inline(always)]
    fn stepped(&mut self, from: u32, to: u32, runs: bool) {
        self.hop = Hop::of_step(from, to, runs);
    }

    #[inline(always)]
    fn ends_at(&self, _pc: u32) -> bool {
        false
    }

    #[inline(always)]
    fn laws()
        ensures unseen { SeesNothing Follower Sees }
        ensures joined { Joins Follower Sees }
        ensures onward { PassesOn Follower Sees (λ it _. it.hop ≡ None) }
    {}
}

impl<'c> Log for Follower<'c> {
    #[inline(always)]
    fn has_room(&self) -> bool {
        self.hop.is_none()
    }
}
