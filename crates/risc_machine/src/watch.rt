//! Watches: which instructions a run does, and before which it stops. A debugger's breakpoints and watchpoints make one.
ghost use Rattle.std.specs.Prelude.{◌≡◌, List, true, ℕ};
ghost use Rattle.risc_machine.specs.inner.Passes.{ArePassed, IsPassed};

use crate::decoded_op::DecodedOp;
use crate::observer::Observer;
use crate::processor::Processor;
use risc_pages::Memory;

/// Decides by an instruction, and by the registers before it, whether a run stops before it.
pub trait Watch {
    // what holds of an instruction that it ignores, by its word number, the registers before it, and its word
    ghost ignored: { Self → ℕ → List ℕ → ℕ → Type 0 };

    /// Reports whether it ignores an instruction: `word`, at the word number `pc`, with these registers before it.
    fn ignores(&self, pc: u32, registers: &[u32; 16], word: u32) -> bool
        ensures { result ≡ true → ignored self.now pc registers.now word };
}

/// Ends a loop before an instruction that a watch does not ignore.
#[derive(Clone, Copy)]
pub(crate) struct Watched<'w, W: Watch> {
    pub(crate) watch: &'w W,
}

impl<'w, W: Watch> Observer for Watched<'w, W> {
    ghost saw = { λ n s old new. (new ≡ old) × ArePassed (W.ignored old.watch.now) n s };

    ghost ready = { λ o s. IsPassed (W.ignored o.watch.now) s };

    #[inline(always)]
    fn admits(
        &mut self,
        processor: &Processor<'_>,
        memory: &Memory<'_>,
        pc: u32,
        _op: &DecodedOp,
    ) -> bool {
        self.watch.ignores(pc, &processor.cpu.r, memory.read(pc))
    }

    #[inline(always)]
    fn stepped(&mut self, _from: u32, _to: u32, _runs: bool) {}

    #[inline(always)]
    fn laws() {}
}
