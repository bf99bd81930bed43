//! The calls that are open in a run, and the turns of the run: the counts at which they change.
ghost use Rattle.std.specs.Prelude.{◌≡◌, ◌≤◌, ◌<◌, ◌⊎◌, ◌++◌, [], IfOk, false, true, length, vec_capacity, if◌then◌else◌};
ghost use Rattle.std.specs.Option.{option_to_list};
ghost use Rattle.risc_model.specs.Calls.{opened};
ghost use Rattle.risc_model.specs.Turns.{IsStack, step_turn, turn_or_none};
ghost use Rattle.risc_model.specs.MachineState.{State};
ghost use Rattle.risc_machine.specs.CallLogs.{HasRoom, IsReserved, IsWithin};
ghost use Rattle.risc_machine.specs.inner.Follows.{IsJump, IsStill, SameBounds, call_by};

use crate::follow::{Jump, follow};
use crate::follower::Follower;
use crate::processor::next_counter;
use risc_model::{Call, Turn};
use std::alloc::{AllocError, Global};

/// The calls that are open in a run, and the turns that it had, as long as there is room for them.
#[derive(Drop)]
pub struct CallLog {
    /// The calls that are open, oldest first.
    pub calls: Vec<Call>,
    /// The turns, in order.
    pub turns: Vec<Turn>,
    /// The highest R14 of the stack. Above it is another stack.
    pub limit: u32,
    /// For how many calls there is room.
    pub height: usize,
    /// For how many turns there is room.
    pub room: usize,
}

impl CallLog {
    /// Returns a log with these open calls and no turn. Fails if there is no memory for so many calls and turns.
    pub fn new(
        alloc: Global,
        present: &[Call],
        limit: u32,
        height: usize,
        room: usize,
    ) -> Result<Self, AllocError>
        requires { length present.now ≤ height }
        ensures calls { IfOk result (λ log. log.calls.items ≡ present.now) }
        ensures turns { IfOk result (λ log. log.turns.items ≡ []) }
        ensures limit { IfOk result (λ log. log.limit ≡ limit) }
        ensures height { IfOk result (λ log. log.height ≡ height) }
        ensures room { IfOk result (λ log. log.room ≡ room) }
        ensures reserved { IfOk result IsReserved }
    {
        let mut calls = Vec::with_capacity(alloc, height)?;
        calls.extend_from_slice(present)?;
        let turns = Vec::with_capacity(alloc, room)?;
        Ok(CallLog {
            calls,
            turns,
            limit,
            height,
            room,
        })
    }

    /// Reports whether there is room for no more calls, or for no more turns.
    #[inline]
    pub fn is_full(&self) -> bool
        ensures room { result ≡ false → HasRoom self.now }
        ensures full { result ≡ true →
            (self.now.room ≤ length self.now.turns.items) ⊎ (self.now.height ≤ length self.now.calls.items) }
    {
        self.turns.len() >= self.room || self.calls.len() >= self.height
    }

    /// Reports whether a jump changes the open calls.
    pub(crate) fn changes(&self, jump: &Jump) -> bool
        ensures { result ≡ false → IsStack self.now.limit self.now.calls.items →
            (s : State) → IsJump jump.now s → IsStill self.now.limit self.now.calls.items s }
    {
        let follower = Follower::new(&self.calls, self.limit);
        follower.changes(jump)
    }

    /// Makes a call by a jump at a count, if it calls.
    fn call(&mut self, count: u64, jump: &Jump, calls: bool) -> Option<Call>
        requires { length self.old.calls.items < vec_capacity self.old.calls }
        ensures call { result ≡ (if calls then Some (call_by count jump.now) else None) }
        ensures calls { self.new.calls.items ≡ self.old.calls.items ++ option_to_list result }
        ensures capacity { vec_capacity self.old.calls ≤ vec_capacity self.new.calls }
        ensures turns { self.new.turns ≡ self.old.turns }
        ensures same { SameBounds self.old self.new }
    {
        if !calls {
            return None;
        }
        let call = Call {
            count,
            at: jump.at,
            to: jump.to,
            back: next_counter(jump.at),
            sp: jump.sp,
        };
        let Ok(()) = self.calls.push(call) else {
            unreachable!()
        };
        Some(call)
    }

    /// Does what a jump at a count does to the open calls, and notes it as a turn, if they change.
    pub(crate) fn note(&mut self, count: u64, jump: &Jump)
        requires room { HasRoom self.old }
        requires reserved { IsReserved self.old }
        ensures calls { IsStack self.old.limit self.old.calls.items → (s : State) → IsJump jump.now s →
            self.new.calls.items ≡ opened self.old.limit count s self.old.calls.items }
        ensures turns { IsStack self.old.limit self.old.calls.items → (s : State) → IsJump jump.now s →
            self.new.turns.items ≡ self.old.turns.items ++ option_to_list (turn_or_none (step_turn self.old.limit count s self.old.calls.items) (length self.old.calls.items)) }
        ensures reserved { IsReserved self.new }
        ensures within { IsWithin self.new }
        ensures same { SameBounds self.old self.new }
    {
        let followed = follow(&self.calls, self.limit, jump);
        if !followed.changes(self.calls.len()) {
            return;
        }
        self.calls.truncate(followed.stay);
        let call = self.call(count, jump, followed.calls);
        let stay = followed.stay as u64;
        let Ok(()) = self.turns.push(Turn { count, stay, call }) else {
            unreachable!()
        };
    }
}
