//! A machine without its pool, which an object can own beside the pool. Machines are in `machine`.
ghost use Rattle.std.specs.Prelude.{◌≡◌, IfOk, All, false};
ghost use Rattle.risc_pages.specs.Tables.{IsNamed, table_words};

use crate::clocked::Clocked;
use crate::decode_cache::DecodeCache;
use crate::machine::Machine;
use crate::schedule::Schedule;
use risc_model::Cpu;
use risc_pages::{DetachedMemory, Memory, Pool, Table};
use std::alloc::{AllocError, Global};
use std::marker::Model;

/// A machine without its pool: it has all of the machine but the shared pages of its memory, so it borrows nothing.
///
/// In contracts it is the machine that it was made of: its state, which page slots of its memory have a private page, and the words
/// that its memory was made with.
#[derive(Drop)]
pub struct DetachedMachine {
    pub(crate) cpu: Cpu,
    pub(crate) clocked: Clocked,
    pub(crate) memory: DetachedMemory,
    pub(crate) cache: DecodeCache,
    pub(crate) schedule: Schedule,
}

impl Model for DetachedMachine {
    ghost use Rattle.risc_machine.specs.Allocation.{Held};

    ghost Value = { Held };

    ghost use Rattle.risc_machine.specs.inner.Boards.{held_settled, IsBetweenRuns};

    ghost view = { λ m. held_settled m.cpu m.clocked.devices m.memory };

    ghost invariant = { λ m. IsBetweenRuns m.cpu m.cache m.memory.words };
}

impl DetachedMachine {
    /// Returns the machine, over a table of the words that its memory was made with. The pool may have more pages than when the machine
    /// was detached, or be another one.
    ///
    /// It copies no page, and keeps the decoded instructions. The detached machine is consumed, even if memory runs out.
    pub fn attach<'a>(
        self,
        alloc: Global,
        pool: &'a Pool,
        table: &Table,
    ) -> Result<Machine<'a>, AllocError>
        requires named { IsNamed pool.now table.now.numbers }
        requires base { table_words pool.now table.now.numbers ≡ self.base }
        ensures { IfOk result (λ machine. machine ≡ self) }
    {
        let DetachedMachine {
            cpu,
            clocked,
            memory,
            cache,
            schedule,
        } = self;
        let memory = memory.attach(alloc, pool, table)?;
        Ok(Machine {
            cpu,
            clocked,
            memory,
            cache,
            schedule,
        })
    }

    /// Returns the machine in the same state, with a memory that is made anew of a table of its words. So no page is private, and none
    /// is copied. The decoded instructions are kept.
    ///
    /// The detached machine is consumed, even if memory runs out.
    pub fn rebase<'a>(
        self,
        alloc: Global,
        pool: &'a Pool,
        table: &Table,
    ) -> Result<Machine<'a>, AllocError>
        requires named { IsNamed pool.now table.now.numbers }
        requires words { table_words pool.now table.now.numbers ≡ self.state.words }
        ensures state { IfOk result (λ machine. machine.state ≡ self.state) }
        ensures base { IfOk result (λ machine. machine.base ≡ self.state.words) }
        ensures shared { IfOk result (λ machine. All (λ owned. owned ≡ false) machine.owned) }
    {
        let DetachedMachine {
            cpu,
            clocked,
            cache,
            schedule,
            ..
        } = self;
        let memory = Memory::from_table(alloc, pool, table)?;
        Ok(Machine {
            cpu,
            clocked,
            memory,
            cache,
            schedule,
        })
    }
}
