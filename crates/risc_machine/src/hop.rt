//! Steps that lead to another word than the next one, as an observer is told of them, and the jumps that they are.
ghost use Rattle.std.specs.Prelude.{◌≡◌, ◌<◌, slice_index};
ghost use Rattle.risc_model.specs.Exec.{exec};
ghost use Rattle.risc_model.specs.MachineState.{State};
ghost use Rattle.risc_pages.specs.declared.sizes.TheConstants.{MEMORY_WORDS};
ghost use Rattle.risc_machine.specs.inner.Follows.{Hops, IsHop, IsJump};

use crate::follow::Jump;
use risc_core::is_set;
use risc_pages::{MEMORY_WORDS, Memory};

/// The number of the stack pointer's register.
const STACK_POINTER: usize = 14;

/// The bit of a branch that links.
const LINK: u32 = 28;

/// A step from one word to another, which is not the next one, after which the machine runs: a branch.
#[derive(Clone, Copy)]
pub(crate) struct Hop {
    pub(crate) from: u32,
    pub(crate) to: u32,
}

/// Returns the word of memory with a number, or 0 if there is none.
#[inline(always)]
fn word_at(memory: &Memory<'_>, number: u32) -> u32
    ensures { number < MEMORY_WORDS → result ≡ slice_index memory.now.words number }
{
    if number < MEMORY_WORDS {
        memory.read(number)
    } else {
        0
    }
}

impl Hop {
    /// Returns the hop of a step of a running machine from one word to another, after which it runs or is stopped, if it is one.
    #[inline(always)]
    pub(crate) fn of_step(from: u32, to: u32, runs: bool) -> Option<Hop>
        ensures { IsHop result from to runs }
    {
        if runs && to as u64 != from as u64 + 1 {
            Some(Hop { from, to })
        } else {
            None
        }
    }

    /// Returns the jump that a hop was, by the registers and the memory after it. A branch writes no word, and of the registers R15 alone.
    #[inline(always)]
    pub(crate) fn jump(self, registers: &[u32; 16], memory: &Memory<'_>) -> Jump
        ensures { (s : State) → Hops self s → (exec s).0.cpu.r ≡ registers.now → (exec s).0.words ≡ memory.now.words → IsJump result s }
    {
        let word = word_at(memory, self.from);
        Jump {
            at: self.from,
            to: self.to,
            sp: registers[STACK_POINTER],
            links: is_set(word, LINK),
        }
    }
}
