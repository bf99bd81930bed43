//! The past of a run, as an object: it is begun or opened once, and then asked. It keeps keyframes of its run at a spacing.
//!
//! A keyframe is the state at a count: the processor, the devices, and a table over a pool of pages, which all keyframes share. That it
//! is the state of the one run is the type's invariant.

ghost use Rattle.std.specs.Prelude.{◌≡◌, ◌+◌, ◌<◌, ◌≤◌, [], IfNone, IfOk, IfSome, OnErr, OnOk, false, length, true};
ghost use Rattle.risc_core.specs.declared.branch.TheConstants.{COUNTER_END};
ghost use Rattle.risc_pages.specs.Delta.{IsDelta};
ghost use Rattle.risc_pages.specs.Tables.{IsNamed, table_words};
ghost use Rattle.risc_pages.specs.declared.sizes.TheConstants.{MEMORY_WORDS};
ghost use Rattle.risc_model.specs.MachineState.{cpu_state};
ghost use Rattle.oberon_session.specs.Extended.{blank_words};
ghost use Rattle.oberon_past.specs.declared.answer.Answer.{Answer};
ghost use Rattle.oberon_past.specs.Past.{IsAnswer, IsExtent, IsFar, IsInside, IsLonger, IsMoment, IsNear, IsNearAnswer, IsOf, IsOpened, IsRefused, IsSpaced, LeavesKeyframes, first_asked, last_asked, nearest, nearest_count, reached};
ghost use Rattle.oberon_past.specs.Run.{state_at, words_at};
ghost use Rattle.oberon_past.specs.inner.Kept.{IsNextKeyframe};
ghost use Rattle.oberon_past.specs.inner.Warm.{IsWarm};
ghost use Rattle.oberon_format.specs.Recording.{parts_of};
ghost use Rattle.std.proofs.Props.{props};

use crate::answer::Answer;
use crate::extent::Extent;
use crate::moment::{Moment, changed_pages};
use crate::running::{Reached, machine_at, reach};
use crate::steps::Steps;
use crate::warm::Warm;
use oberon_format::{Checkpoint, Recording};
use oberon_session::{StoredPages, store_pages, store_words};
use risc_devices::Devices;
use risc_machine::Machine;
use risc_model::{Cpu, Inputs};
use risc_pages::{MEMORY_WORDS, Memory, Page, Pool, Table};
use std::alloc::{AllocError, Global};
use std::marker::Model;

/// The most pages with which a keyframe can be added: then all pages have ids.
const ROOM: u32 = (1 << 31) - 1_024;

/// The past of a run: its first state, its inputs, its end, and keyframes of it at a spacing, the first at the first count.
///
/// A call that fails for want of memory keeps the past: the run is the same, and so is all that a later call answers.
#[derive(Drop)]
pub struct Past {
    pub(crate) stored: StoredPages,
    pub(crate) inputs: Inputs,
    pub(crate) keyframes: Vec<Checkpoint>,
    pub(crate) spacing: Steps,
    pub(crate) end: u64,
    /// The machine at the end, if the last run left one there.
    pub(crate) warm: Option<Warm>,
    pub(crate) ghost warm_at_end: { IsWarm (parts_of stored.pool inputs keyframes.items) spacing.count end warm } by { Prim.hlevel props },
}

impl Model for Past {
    ghost use Rattle.oberon_format.specs.Recording.{parts_of};
    ghost use Rattle.oberon_past.specs.Past.{PastParts, past_of};
    ghost use Rattle.oberon_past.specs.inner.Kept.{IsKept};

    ghost Value = { PastParts };

    ghost view = { λ p. past_of (parts_of p.stored.pool p.inputs p.keyframes.items) p.spacing.count p.end };

    ghost invariant = { λ p. IsKept (parts_of p.stored.pool p.inputs p.keyframes.items) p.spacing.count p.end };
}

impl Past {
    /// Opens the past of a recording: its initial state and its inputs, up to the count of its last checkpoint. What its checkpoints
    /// claim besides is not used.
    pub fn open(alloc: Global, recording: Recording, spacing: Steps) -> Result<Past, AllocError>
        ensures opened { IfOk result (IsOpened recording) }
        ensures spaced { IfOk result (IsSpaced spacing.count) }
    {
        let end = recording.checkpoint(recording.count() - 1).count;
        let (pool, inputs, checkpoints) = recording.into_parts();
        let first = &checkpoints[0];
        let words = words_of(alloc, &pool, &first.table)?;
        let first = first_keyframe(alloc, 0, first.cpu, first.devices.copy());
        past_from(alloc, first, &words, inputs, end, spacing)
    }

    /// Begins the past of a machine at a count with this state. It has no inputs, and its end is the count.
    pub fn begin(
        alloc: Global,
        count: u64,
        cpu: Cpu,
        devices: Devices,
        words: &[u32],
        spacing: Steps,
    ) -> Result<Past, AllocError>
        requires counter { cpu.pc < COUNTER_END }
        requires stop { cpu.stop ≤ 4 }
        requires whole { length words.now ≡ MEMORY_WORDS }
        ensures begun { IfOk result (IsOf (record {
          start = count;
          first = record { cpu = cpu_state cpu; devices = devices; words = words.now };
          inputs = [];
        }) count) }
        ensures spaced { IfOk result (IsSpaced spacing.count) }
    {
        let first = first_keyframe(alloc, count, cpu, devices);
        past_from(alloc, first, words, no_inputs(alloc), count, spacing)
    }

    /// Returns the counts of the past, and what it keeps.
    pub fn extent(&self) -> Extent
        ensures { IsExtent self.now result }
    {
        Extent {
            first: self.keyframes[0].count,
            end: self.end,
            reached: self.keyframes[self.keyframes.len() - 1].count,
            keyframes: self.keyframes.len(),
            pages: self.stored.pool.len(),
            inputs: self.inputs.events().len(),
        }
    }

    /// Returns the state at a count, and the pages of its memory that differ from those at the count `from`, whose memory the caller has;
    /// without one, the pages that are not zeros.
    ///
    /// It runs, and adds keyframes, until `budget` instructions are done, and then answers `More`: at least one keyframe was added. Beside
    /// them it does at most three spacings of instructions. If memory runs out, keyframes may have been added.
    pub fn at(
        &mut self,
        alloc: Global,
        count: u64,
        from: Option<u64>,
        budget: Steps,
    ) -> Result<Answer, AllocError>
        // It is the answer of the one run.
        ensures answer { IfOk result (IsAnswer self.old.run self.old.end count from) }
        // Only a question about counts of the past can fail.
        ensures inside { OnErr result (IsInside self.old.run self.old.end count from) }
        // The past is of the same run, with keyframes added.
        ensures longer { IsLonger self.old self.new }
        // Either of them leaves keyframes near what was asked, or one more.
        ensures keyframes { IfOk result (LeavesKeyframes self.old self.new count from) }
    {
        if let Some(refused) = self.refused(count, from) {
            return Ok(refused);
        }
        if !self.approach(alloc, last_asked(count, from), budget)? {
            return Ok(Answer::More);
        }
        Ok(Answer::Done(self.moment(alloc, count, from)?))
    }

    /// Returns the state at the last keyframe at or before a count, as `at` returns one.
    ///
    /// It runs only to the count `from`, for at most one spacing; if no keyframe is that near, the answer is `More`, and `at` can be asked
    /// about `from`.
    pub fn near(&self, alloc: Global, count: u64, from: Option<u64>) -> Result<Answer, AllocError>
        ensures answer { IfOk result (IsNearAnswer self.now count from) }
        ensures inside { OnErr result (IsInside self.now.run self.now.end count from) }
    {
        if let Some(refused) = self.refused(count, from) {
            return Ok(refused);
        }
        if !self.has_near(from) {
            return Ok(Answer::More);
        }
        let nearest = self.nearest_count(count);
        Ok(Answer::Done(self.moment(alloc, nearest, from)?))
    }

    /// Returns why a question is refused, if one of its counts is outside the past.
    fn refused(&self, count: u64, from: Option<u64>) -> Option<Answer>
        ensures some { IfSome result (IsRefused self.now.run self.now.end count from) }
        ensures inside { IfNone result (IsInside self.now.run self.now.end count from) }
        ensures count { IfNone result (self.now.run.start ≤ count) }
        ensures from { IfNone result (IfSome from (λ n. self.now.run.start ≤ n)) }
    {
        if first_asked(count, from) < self.keyframes[0].count {
            return Some(Answer::Earlier);
        }
        if last_asked(count, from) > self.end {
            return Some(Answer::Later);
        }
        None
    }

    /// Adds keyframes until one is near a count, or the budget is spent. Returns whether one is near.
    pub(crate) fn approach(
        &mut self,
        alloc: Global,
        count: u64,
        budget: Steps,
    ) -> Result<bool, AllocError>
        requires { count ≤ self.old.end }
        ensures longer { IsLonger self.old self.new }
        ensures near { IfOk result (λ near. near ≡ true → IsNear self.new count) }
        ensures more { IfOk result (λ near. near ≡ false → self.old.keyframes < self.new.keyframes) }
    {
        let mut left = budget.count;
        while !self.is_near(count) {
            if left == 0 {
                return Ok(false);
            }
            self.extend(alloc)?;
            left = left.saturating_sub(self.spacing.count);
        }
        Ok(true)
    }

    /// Returns whether a run to a count from the last keyframe before it has at most one spacing of instructions to do.
    fn is_near(&self, count: u64) -> bool
        ensures near { result ≡ true → IsNear self.now count }
        ensures far { result ≡ false → reached self.now + self.now.spacing < count }
    {
        let last = &self.keyframes[self.keyframes.len() - 1];
        last.cpu.stop != 0 || count <= last.count || count - last.count <= self.spacing.count
    }

    /// Returns whether the count whose memory the caller has is near the keyframes, if there is one.
    fn has_near(&self, from: Option<u64>) -> bool
        ensures { result ≡ false → IsFar self.now from }
    {
        match from {
            Some(from) => self.is_near(from),
            None => true,
        }
    }

    /// Adds the next keyframe. If memory runs out, none is added, and pages that nothing names may be in the pool.
    fn extend(&mut self, alloc: Global) -> Result<(), AllocError>
        requires { reached self.old + self.old.spacing ≤ self.old.end }
        ensures longer { IsLonger self.old self.new }
        ensures one { OnOk result (self.new.keyframes ≡ self.old.keyframes + 1) }
        ensures none { OnErr result (self.new.keyframes ≡ self.old.keyframes) }
    {
        let last = &self.keyframes[self.keyframes.len() - 1];
        let to = last.count + self.spacing.count;
        let next = reach(alloc, &self.stored.pool, &self.inputs, last, to)?;
        self.add(alloc, next)
    }

    /// Adds the next keyframe, where a run from the last one ended. If memory runs out, none is added, as for `extend`.
    pub(crate) fn add(&mut self, alloc: Global, next: Reached) -> Result<(), AllocError>
        requires { IsNextKeyframe self.old next }
        ensures longer { IsLonger self.old self.new }
        ensures one { OnOk result (self.new.keyframes ≡ self.old.keyframes + 1) }
        ensures none { OnErr result (self.new.keyframes ≡ self.old.keyframes) }
    {
        if self.stored.pool.len() > ROOM {
            return Err(AllocError);
        }
        let last = &self.keyframes[self.keyframes.len() - 1];
        let count = last.count + self.spacing.count;
        self.stored.table = last.table.copy();
        let stored = store_pages(&mut self.stored, &next.changed);
        // The contract of `len` states that each page of the pool has 256 words.
        let _pages = self.stored.pool.len();
        stored?;
        self.keyframes.push(Checkpoint {
            count,
            cpu: next.cpu,
            devices: next.devices,
            sent: Vec::new(alloc),
            table: self.stored.table.copy(),
        })?;
        Ok(())
    }

    /// Returns the index of the last keyframe at or before a count.
    pub(crate) fn nearest(&self, count: u64) -> usize
        requires { self.now.run.start ≤ count }
        ensures index { result ≡ nearest self.now count }
    {
        let steps = (count - self.keyframes[0].count) / self.spacing.count;
        let last = self.keyframes.len() - 1;
        if steps < last as u64 {
            steps as usize
        } else {
            last
        }
    }

    /// Returns the count of the last keyframe at or before a count.
    pub(crate) fn nearest_count(&self, count: u64) -> u64
        requires { self.now.run.start ≤ count }
        ensures { result ≡ nearest_count self.now count }
    {
        self.keyframes[self.nearest(count)].count
    }

    /// Returns the machine at a count.
    pub(crate) fn machine<'a>(
        &'a self,
        alloc: Global,
        count: u64,
    ) -> Result<Machine<'a>, AllocError>
        requires { self.now.run.start ≤ count }
        ensures { IfOk result (λ machine. machine.state ≡ state_at self.now.run count) }
    {
        let keyframe = &self.keyframes[self.nearest(count)];
        machine_at(alloc, &self.stored.pool, &self.inputs, keyframe, count)
    }

    /// Returns the state at a count, with the pages that differ from those at the count `from`.
    fn moment(&self, alloc: Global, count: u64, from: Option<u64>) -> Result<Moment, AllocError>
        requires count { self.now.run.start ≤ count }
        requires from { IfSome from (λ n. self.now.run.start ≤ n) }
        ensures { IfOk result (IsMoment self.now.run count from) }
    {
        let machine = self.machine(alloc, count)?;
        let changed = self.changes(alloc, machine.memory(), from)?;
        Ok(Moment {
            count,
            cpu: *machine.cpu(),
            devices: machine.devices().copy(),
            changed,
        })
    }

    /// Returns the pages in which a memory differs from that at the count `from`.
    fn changes(
        &self,
        alloc: Global,
        memory: &Memory<'_>,
        from: Option<u64>,
    ) -> Result<Vec<(u16, Page)>, AllocError>
        requires { IfSome from (λ n. self.now.run.start ≤ n) }
        ensures { IfOk result (λ changed. IsDelta (words_at self.now.run from) memory.now.words changed.items) }
    {
        match from {
            Some(from) => {
                let earlier = self.machine(alloc, from)?;
                changed_pages(alloc, earlier.memory(), memory)
            }
            None => pages_of(alloc, memory),
        }
    }
}

/// Returns a keyframe with an empty table.
fn first_keyframe(alloc: Global, count: u64, cpu: Cpu, devices: Devices) -> Checkpoint
    ensures count { result.count ≡ count }
    ensures cpu { result.cpu ≡ cpu }
    ensures devices { result.devices ≡ devices }
{
    Checkpoint {
        count,
        cpu,
        devices,
        sent: Vec::new(alloc),
        table: Table::zeros(),
    }
}

/// Returns the past that begins with a keyframe, whose table is still that of these words.
fn past_from(
    alloc: Global,
    first: Checkpoint,
    words: &[u32],
    inputs: Inputs,
    end: u64,
    spacing: Steps,
) -> Result<Past, AllocError>
    requires counter { first.cpu.pc < COUNTER_END }
    requires stop { first.cpu.stop ≤ 4 }
    requires whole { length words.now ≡ MEMORY_WORDS }
    requires forward { first.count ≤ end }
    ensures past { IfOk result (IsOf (record {
      start = first.count;
      first = record { cpu = cpu_state first.cpu; devices = first.devices; words = words.now };
      inputs = inputs;
    }) end) }
    ensures spaced { IfOk result (IsSpaced spacing.count) }
{
    let mut stored = StoredPages {
        pool: Pool::new(alloc),
        table: Table::zeros(),
    };
    store_words(alloc, &mut stored, words)?;
    // The contract of `len` states that each page of the pool has 256 words.
    let _pages = stored.pool.len();
    let mut keyframes = Vec::new(alloc);
    keyframes.push(Checkpoint {
        table: stored.table.copy(),
        ..first
    })?;
    Ok(Past {
        stored,
        inputs,
        keyframes,
        spacing,
        end,
        warm: None,
    })
}

/// Returns the words of the memory of a table.
pub(crate) fn words_of(alloc: Global, pool: &Pool, table: &Table) -> Result<Vec<u32>, AllocError>
    requires { IsNamed pool.now table.now.numbers }
    ensures words { IfOk result (λ words. words.items ≡ table_words pool.now table.now.numbers) }
    ensures whole { IfOk result (λ words. length words.items ≡ MEMORY_WORDS) }
{
    let memory = Memory::from_table(alloc, pool, table)?;
    memory.words(alloc, 0, MEMORY_WORDS)
}

/// Returns an empty list of inputs. It allocates nothing.
fn no_inputs(alloc: Global) -> Inputs
    ensures { result ≡ [] }
{
    match Inputs::new(Vec::new(alloc)) {
        Ok(inputs) => inputs,
        Err(_) => unreachable!(),
    }
}

/// Returns the pages of a memory that are not zeros.
fn pages_of(alloc: Global, memory: &Memory<'_>) -> Result<Vec<(u16, Page)>, AllocError>
    ensures { IfOk result (λ changed. IsDelta blank_words memory.now.words changed.items) }
{
    let pool = Pool::new(alloc);
    let blank = Memory::from_table(alloc, &pool, &Table::zeros())?;
    changed_pages(alloc, &blank, memory)
}

/// Returns the earlier of the two counts of a question.
fn first_asked(count: u64, from: Option<u64>) -> u64
    ensures { result ≡ first_asked count from }
{
    match from {
        Some(from) if from < count => from,
        _ => count,
    }
}

/// Returns the later of the two counts of a question.
fn last_asked(count: u64, from: Option<u64>) -> u64
    ensures { result ≡ last_asked count from }
{
    match from {
        Some(from) if from > count => from,
        _ => count,
    }
}
