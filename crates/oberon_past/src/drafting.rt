//! Recordings of a past, made checkpoint by checkpoint: the state at each is that of the one run, and so are the bytes sent.
//!
//! The bytes have to be run for, from checkpoint to checkpoint, while the states come from keyframes. So a draft keeps the bytes from call
//! to call, and the past keeps nothing of it: a past can be asked and changed in between, and several drafts do not disturb each other.
ghost use Rattle.std.specs.Prelude.{◌≡◌, ◌-◌, ◌≤◌, IfErr, IfNone, IfOk, IfSome, OnOk, length};
ghost use Rattle.recording_limits.specs.declared.limits.TheConstants.{MAX_OUTPUT};
ghost use Rattle.risc_model.specs.InputOrder.{AreOrdered};
ghost use Rattle.oberon_format.specs.Recording.{IsLawfulWithDisk, output_of};
ghost use Rattle.oberon_session.specs.Extended.{IsBegun, IsExtended};
ghost use Rattle.oberon_past.specs.Draft.{IsBeginFault, IsDraftFault, IsDraftOf, IsDrafted, LeavesDraft, draft_in, next_inputs, next_outcome};
ghost use Rattle.oberon_past.specs.Past.{IsLonger};
ghost use Rattle.oberon_past.specs.inner.Drafting.{IsCheckpointFault};

use crate::draft::{Draft, Drafted};
use crate::draft_fault::DraftFault;
use crate::past::{Past, words_of};
use crate::running::run_with_room;
use crate::steps::Steps;
use oberon_format::{MAX_OUTPUT, Recording};
use oberon_session::{Claim, begin_recording, extend_recording};
use risc_machine::Machine;
use risc_model::{Event, MAX_COUNT, first_from};
use risc_pages::MEMORY_WORDS;
use std::alloc::Global;

impl Past {
    /// Begins a recording of the past: the first state, which is checkpoint 0. The first count has to be 0.
    pub fn draft(&self, alloc: Global) -> Result<Draft, DraftFault>
        ensures draft { IfOk result (IsDraftOf self.now.run) }
        ensures begun { IfOk result (λ draft. IsBegun self.now.run.first draft.recording) }
        ensures refused { IfErr result (IsBeginFault self.now) }
    {
        let recording = self.first_recording(alloc)?;
        Ok(Draft {
            recording,
            at: 0,
            sent: Vec::new(alloc),
        })
    }

    /// Returns the recording that begins with the first state.
    fn first_recording(&self, alloc: Global) -> Result<Recording, DraftFault>
        ensures begun { IfOk result (IsBegun self.now.run.first) }
        ensures starts { OnOk result (self.now.run.start ≡ 0) }
        ensures refused { IfErr result (IsBeginFault self.now) }
    {
        let first = &self.keyframes[0];
        if first.count != 0 {
            return Err(DraftFault::Start);
        }
        let words = words_of(alloc, &self.stored.pool, &first.table)?;
        let recording = begin_recording(alloc, first.cpu, first.devices.copy(), &words)?;
        Ok(recording)
    }

    /// Adds a checkpoint at a count to a draft of this past, with the inputs of the run before it, the state there, and the bytes sent since
    /// the last checkpoint.
    ///
    /// It does at most `budget` instructions to add keyframes up to the count, and then as many for the bytes; beside these, at most two
    /// spacings. After `More`, ask again with the draft that it returns and the same count: each `More` has added a keyframe or has run on,
    /// so asking again ends. On an error the draft is dropped; keyframes may have been added.
    pub fn record(
        &mut self,
        alloc: Global,
        draft: Draft,
        count: u64,
        budget: Steps,
    ) -> Result<Drafted, DraftFault>
        // A draft of the run stays one: all its checkpoints are true.
        ensures truth { IsDraftOf self.old.run draft → IfOk result (λ drafted. IsDraftOf self.old.run (draft_in drafted)) }
        // It has a checkpoint more, or more of the bytes before it.
        ensures drafted { IfOk result (IsDrafted self.old.run draft count) }
        // Asking again ends.
        ensures advances { IfOk result (LeavesDraft self.old self.new draft) }
        // It is refused only if a rule is broken.
        ensures refused { IfErr result (IsDraftFault self.old draft count) }
        // The past is of the same run, with keyframes added.
        ensures longer { IsLonger self.old self.new }
    {
        if let Some(fault) = self.draft_fault(&draft, count) {
            return Err(fault);
        }
        if !self.approach(alloc, count, budget)? {
            return Ok(Drafted::More(draft));
        }
        self.record_on(alloc, draft, count, budget)
    }

    /// Returns why a draft gets no checkpoint at a count, as far as the counts decide it.
    fn draft_fault(&self, draft: &Draft, count: u64) -> Option<DraftFault>
        ensures fault { IfSome result (IsDraftFault self.now draft.now count) }
        ensures inside { IfNone result (count ≤ self.now.end) }
        ensures begun { IfNone result (self.now.run.start ≤ draft.now.at) }
        ensures on { IfNone result (draft.now.at ≤ count) }
    {
        if count > self.end {
            return Some(DraftFault::Later);
        }
        let recording = &draft.recording;
        let last = recording.checkpoint(recording.count() - 1).count;
        let first = self.keyframes[0].count;
        if draft.at < first || count < draft.at || count <= last || count > MAX_COUNT {
            return Some(DraftFault::Order);
        }
        None
    }

    /// Runs on from the count of a draft, within the budget, and adds the checkpoint when it comes to its count.
    fn record_on(
        &self,
        alloc: Global,
        draft: Draft,
        count: u64,
        budget: Steps,
    ) -> Result<Drafted, DraftFault>
        requires begun { self.now.run.start ≤ draft.at }
        requires on { draft.at ≤ count }
        requires inside { count ≤ self.now.end }
        ensures truth { IsDraftOf self.now.run draft → IfOk result (λ drafted. IsDraftOf self.now.run (draft_in drafted)) }
        ensures drafted { IfOk result (IsDrafted self.now.run draft count) }
        ensures advances { IfOk result (LeavesDraft self.now self.now draft) }
        ensures refused { IfErr result (IsDraftFault self.now draft count) }
    {
        let to = count.min(draft.at.saturating_add(budget.count));
        let mut machine = self.machine(alloc, draft.at)?;
        let room = room_of(&draft);
        let ran = run_with_room(alloc, &mut machine, &self.inputs, draft.at, to, room)?;
        if ran.end < to {
            return Err(DraftFault::Output);
        }
        let Draft {
            recording,
            mut sent,
            ..
        } = draft;
        sent.extend_from_slice(&ran.sent)?;
        if to < count {
            return Ok(Drafted::More(Draft {
                recording,
                at: to,
                sent,
            }));
        }
        let recording = self.with_checkpoint(alloc, recording, &machine, count, &sent)?;
        Ok(Drafted::Done(Draft {
            recording,
            at: count,
            sent: Vec::new(alloc),
        }))
    }

    /// Adds a checkpoint to a recording: the machine's state, and these bytes.
    fn with_checkpoint(
        &self,
        alloc: Global,
        recording: Recording,
        machine: &Machine<'_>,
        count: u64,
        sent: &[u8],
    ) -> Result<Recording, DraftFault>
        ensures extended { IfOk result (IsExtended recording (next_inputs self.now.run recording count) count
            (record { state = machine.now.state; sent = sent.now })) }
        ensures refused { IfErr result (IsCheckpointFault recording (next_inputs self.now.run recording count) count
            (record { state = machine.now.state; sent = sent.now })) }
        ensures ordered { OnOk result (AreOrdered self.now.run.inputs) }
        ensures lawful { OnOk result (IsLawfulWithDisk recording) }
    {
        let memory = machine.memory();
        // The contract of `owned` states that a memory has all its words.
        let _owned = memory.owned(0);
        let words = memory.words(alloc, 0, MEMORY_WORDS)?;
        let claim = Claim {
            count,
            cpu: *machine.cpu(),
            devices: machine.devices().copy(),
            words: &words,
            sent,
        };
        let events = self.inputs.events();
        let next = first_from(events, count);
        let taken = recording.inputs().events().len().min(next);
        Ok(extend_recording(alloc, recording, &events[taken..next], &claim)?)
    }
}

/// Returns how many more bytes a recording may have than it has with those of a draft.
fn room_of(draft: &Draft) -> usize
    ensures { result ≡ MAX_OUTPUT - length (output_of draft.now.recording.checkpoints) - length draft.now.sent.items }
{
    (MAX_OUTPUT as usize - draft.recording.output_len()).saturating_sub(draft.sent.len())
}
