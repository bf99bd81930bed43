//! Recordings that are made while a machine runs elsewhere: one begins with a state, and each call adds a checkpoint. No machine
//! runs here, so only a check can find out whether a claim is true.

ghost use Rattle.std.specs.Prelude.{◌≡◌, ◌+◌, ◌<◌, ◌≤◌, ◌^◌, ◌++◌, [], All, IfErr, IfOk, OnOk, length, map};
ghost use Rattle.risc_core.specs.declared.branch.TheConstants.{COUNTER_END};
ghost use Rattle.risc_devices.specs.DeviceState.{IsDeviceState};
ghost use Rattle.risc_devices.specs.declared.disk.TheConstants.{UNANSWERED};
ghost use Rattle.risc_model.specs.InputOrder.{AreOrdered};
ghost use Rattle.risc_model.specs.MachineState.{cpu_state};
ghost use Rattle.risc_pages.specs.declared.sizes.TheConstants.{MEMORY_WORDS};
ghost use Rattle.risc_pages.specs.Pages.{ArePages};
ghost use Rattle.risc_pages.specs.Tables.{IsNamed};
ghost use Rattle.oberon_format.specs.CheckpointParts.{checkpoint_parts};
ghost use Rattle.oberon_format.specs.Recording.{IsLawfulWithDisk};
ghost use Rattle.oberon_format.specs.Text.{IsPlain};
ghost use Rattle.oberon_session.specs.Extended.{HasNoAnswer, HasRoom, IsBegun, IsExtendFault, IsExtended, outcome_of};
ghost use Rattle.oberon_session.specs.inner.Growing.{HasGrown, NeedsPages, claim_checkpoint, stored_on, last_stored};
ghost use Rattle.oberon_session.specs.Stored.{stored_view};

use crate::claim::Claim;
use crate::extend_fault::ExtendFault;
use crate::following::next_fault;
use crate::recorder::recording_of;
use crate::storing::{StoredPages, store_words};
use oberon_format::{Checkpoint, MAX_PAGES, Recording, bytes_fit};
use risc_devices::Devices;
use risc_model::{Cpu, Event, Inputs};
use risc_pages::{Pool, Table};
use std::alloc::{AllocError, Global};

/// Returns the recording that begins with a state: no inputs, and checkpoint 0 alone. It fails only if memory runs out.
pub fn begin_recording(
    alloc: Global,
    cpu: Cpu,
    devices: Devices,
    words: &[u32],
) -> Result<Recording, AllocError>
    requires counter { cpu.pc < COUNTER_END }
    requires stop { cpu.stop ≤ 4 }
    requires whole { length words.now ≡ MEMORY_WORDS }
    // It begins with the state.
    ensures begun { IfOk result (IsBegun (record { cpu = cpu_state cpu; devices = devices; words = words.now })) }
    // It is within all limits.
    ensures lawful { IfOk result IsLawfulWithDisk }
    // If no disk has answered, it is one of a machine without a disk.
    ensures plain { devices.disk ≡ UNANSWERED → IfOk result IsPlain }
{
    let mut stored = StoredPages {
        pool: Pool::new(alloc),
        table: Table::zeros(),
    };
    store_words(alloc, &mut stored, words)?;
    let mut checkpoints = Vec::new(alloc);
    let claim = Claim {
        count: 0,
        cpu,
        devices,
        words,
        sent: &[],
    };
    checkpoints.push(checkpoint_of(alloc, &claim, &stored.table)?)?;
    // The contract of `len` states that each page of the pool has all its words.
    let _pages = stored.pool.len();
    Ok(recording_of(stored.pool, no_inputs(alloc), checkpoints))
}

/// Returns the recording with these inputs, which came after its last checkpoint, and one more checkpoint, which makes this claim.
///
/// On an error the recording is dropped. The error is the first rule of `ExtendFault` that is broken. All rules but that of the
/// pages are tested before anything is allocated, so `Memory` means that those hold.
pub fn extend_recording(
    alloc: Global,
    recording: Recording,
    inputs: &[Event],
    claim: &Claim<'_>,
) -> Result<Recording, ExtendFault>
    requires counter { claim.now.cpu.pc < COUNTER_END }
    requires stop { claim.now.cpu.stop ≤ 4 }
    requires whole { length claim.now.words.now ≡ MEMORY_WORDS }
    // The result has the inputs and the checkpoint, and is otherwise as the recording was.
    ensures extended { IfOk result (IsExtended recording inputs.now claim.now.count (outcome_of claim.now)) }
    // The recording had taken its inputs, and had room for what comes next.
    ensures room { OnOk result (HasRoom recording inputs.now claim.now.count (outcome_of claim.now)) }
    // The result is within all limits.
    ensures lawful { IfOk result IsLawfulWithDisk }
    // A plain recording stays plain if no new input and no claim is an answer of a disk.
    ensures plain { IsPlain recording → HasNoAnswer inputs.now (outcome_of claim.now) → IfOk result IsPlain }
    // On an error, it is the first rule that is broken.
    ensures refused { IfErr result (IsExtendFault recording inputs.now claim.now.count (outcome_of claim.now)) }
{
    if let Some(fault) = next_fault(&recording, inputs, claim) {
        return Err(fault);
    }
    let inputs = joined(alloc, &recording, inputs)?;
    let (stored, checkpoints) = next_checkpoints(alloc, recording, claim)?;
    Ok(recording_of(stored.pool, inputs, checkpoints))
}

/// Returns the inputs of a recording, followed by others. They are in order, so `Inputs::new` does not refuse them.
fn joined(alloc: Global, recording: &Recording, inputs: &[Event]) -> Result<Inputs, AllocError>
    requires ordered { AreOrdered (recording.now.inputs ++ inputs.now) }
    requires few { length recording.now.inputs + length inputs.now < 2 ^ 32 }
    ensures { IfOk result (λ all. all ≡ recording.now.inputs ++ inputs.now) }
{
    let before = recording.inputs().events();
    let mut all = Vec::with_capacity(alloc, before.len() + inputs.len())?;
    all.extend_from_slice(before)?;
    all.extend_from_slice(inputs)?;
    match Inputs::new(all) {
        Ok(all) => Ok(all),
        Err(_) => unreachable!(),
    }
}

/// Returns the pages and the checkpoints of a recording, with those of a claim.
fn next_checkpoints(
    alloc: Global,
    recording: Recording,
    claim: &Claim<'_>,
) -> Result<(StoredPages, Vec<Checkpoint>), ExtendFault>
    requires { length claim.now.words.now ≡ MEMORY_WORDS }
    ensures lawful { IsLawfulWithDisk recording }
    ensures grown { IfOk result (λ grown. HasGrown recording claim.now (stored_view grown.0) (map checkpoint_parts grown.1.items)) }
    ensures refused { IfErr result (NeedsPages (last_stored recording) claim.now.words.now) }
{
    let (pool, _inputs, mut checkpoints) = recording.into_parts();
    let last = &checkpoints[checkpoints.len() - 1];
    let stored = next_stored(alloc, pool, &last.table, claim.words)?;
    let next = checkpoint_of(alloc, claim, &stored.table)?;
    checkpoints.push(next)?;
    Ok((stored, checkpoints))
}

/// Adds the pages of words that differ from the content of a table to the pool. Returns the pool with the table of the words.
fn next_stored(
    alloc: Global,
    pool: Pool,
    table: &Table,
    words: &[u32],
) -> Result<StoredPages, ExtendFault>
    requires whole { length words.now ≡ MEMORY_WORDS }
    requires named { IsNamed pool table.now.numbers }
    requires room { length pool ≤ MAX_PAGES }
    ensures stored { IfOk result (λ stored. stored_view stored
        ≡ stored_on (record { pool = pool; table = table.now.numbers }) words.now) }
    ensures few { IfOk result (λ stored. length stored.pool ≤ MAX_PAGES) }
    ensures pages { IfOk result (λ stored. ArePages stored.pool) }
    ensures refused { IfErr result (NeedsPages (record { pool = pool; table = table.now.numbers }) words.now) }
{
    let mut stored = StoredPages {
        pool,
        table: table.copy(),
    };
    store_words(alloc, &mut stored, words)?;
    if stored.pool.len() > MAX_PAGES {
        return Err(ExtendFault::Pages);
    }
    Ok(stored)
}

/// Returns the checkpoint that makes a claim, with this table.
fn checkpoint_of(alloc: Global, claim: &Claim<'_>, table: &Table) -> Result<Checkpoint, AllocError>
    ensures checkpoint { IfOk result (λ c. checkpoint_parts c ≡ claim_checkpoint claim.now table.now.numbers) }
    ensures devices { IsDeviceState claim.now.devices }
    ensures bytes { All (λ byte. byte < 2 ^ 8) claim.now.sent.now }
{
    // The contract of `timer` states that devices are in their ranges.
    let _timer = claim.devices.timer();
    bytes_fit(claim.sent);
    Ok(Checkpoint {
        count: claim.count,
        cpu: claim.cpu,
        devices: claim.devices.copy(),
        sent: Vec::from_slice(alloc, claim.sent)?,
        table: table.copy(),
    })
}

/// Returns an empty list of inputs. It allocates nothing.
fn no_inputs(alloc: Global) -> Inputs
    ensures { result ≡ [] }
{
    match Inputs::new(Vec::new(alloc)) {
        Ok(inputs) => inputs,
        Err(_) => unreachable!(),
    }
}
