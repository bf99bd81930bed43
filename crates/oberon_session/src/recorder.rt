//! The recorder: makes the recording of a session.

ghost use Rattle.std.specs.Prelude.{◌≡◌, ◌≢◌, ◌+◌, ◌<◌, ℕ, All, length, None, Some, IfOk, IfErr, OnOk};
ghost use Rattle.risc_devices.specs.DeviceState.{IsPhase};
ghost use Rattle.oberon_format.specs.Defined.{IsTrueAt};
ghost use Rattle.oberon_format.specs.Recording.{parts_of, IsLawfulWithDisk};
ghost use Rattle.oberon_format.specs.Text.{IsPlain};
ghost use Rattle.oberon_session.specs.Recorded.{first_devices, record_fault_of, recording_of};
ghost use Rattle.oberon_session.specs.SessionParts.{IsPlain as IsPlainSession};
ghost use Rattle.oberon_session.specs.inner.Progress.{HasRecorded};

use crate::record_fault::RecordFault;
use crate::running::reach;
use crate::session::Session;
use crate::storing::{StoredPages, store_first, store_pages};
use oberon_format::{Checkpoint, MAX_OUTPUT, MAX_PAGES, Recording, bytes_fit};
use risc_devices::Devices;
use risc_model::Inputs;
use risc_pages::Pool;
use std::alloc::Global;

/// What was recorded so far: pages and the last table, checkpoints from 0 on, and the number of bytes sent up to the last of them.
#[derive(Drop)]
struct Recorder {
    stored: StoredPages,
    checkpoints: Vec<Checkpoint>,
    sent: usize,
}

/// Returns the recording of a session: its initial state, its inputs, and the state and output of one run at each of its counts.
///
/// It stops at the first checkpoint up to which more than 1,048,576 bytes are sent (`Output`), or else more than 65,536 pages are
/// needed (`Pages`). If memory runs out, the answer is `Memory` instead.
pub fn make_recording(alloc: Global, session: &Session) -> Result<Recording, RecordFault>
    // The recording is that of the session.
    ensures recording { IfOk result (λ recording. recording ≡ recording_of session.now) }
    // It is returned only if no checkpoint exceeds a limit.
    ensures made { OnOk result (record_fault_of session.now ≡ None) }
    // Otherwise the fault is that of the first checkpoint that does.
    ensures refused { IfErr result (λ fault. fault ≢ RecordFault.Memory → record_fault_of session.now ≡ Some fault) }
    // All its checkpoints are true.
    ensures truth { IfOk result (λ recording. (k : ℕ) → k < length recording.checkpoints → IsTrueAt recording k) }
    // A session of a machine without a disk has a recording of one.
    ensures plain { IsPlainSession session.now → IfOk result IsPlain }
{
    let mut recorder = begin(alloc, session)?;
    for k in 0..session.counts().len() {
        record_next(alloc, session, &mut recorder, k)?;
    }
    finish(alloc, session.inputs(), recorder)
}

/// Records checkpoint 0 of a session.
fn begin(alloc: Global, session: &Session) -> Result<Recorder, RecordFault>
    ensures recorded { IfOk result (HasRecorded session.now 0) }
    ensures memory { IfErr result (λ fault. fault ≡ RecordFault.Memory) }
{
    let stored = store_first(alloc, session.pages())?;
    let first = Checkpoint {
        count: 0,
        cpu: session.cpu(),
        devices: first_devices(session.rate(), session.phase(), session.disk()),
        sent: Vec::new(alloc),
        table: stored.table.copy(),
    };
    let mut checkpoints = Vec::with_capacity(alloc, session.counts().len() + 1)?;
    checkpoints.push(first)?;
    Ok(Recorder {
        stored,
        checkpoints,
        sent: 0,
    })
}

/// Returns devices that are all zeros, except the timer's rate and phase, and the disk's last answer.
fn first_devices(rate: u32, phase: u32, disk: u32) -> Devices
    requires { IsPhase rate phase }
    ensures { result ≡ first_devices rate phase disk }
{
    match Devices::with_timer(0, rate, phase) {
        Ok(devices) => devices.with_disk(disk),
        Err(_) => unreachable!(),
    }
}

/// Records checkpoint k + 1 of a session, from checkpoint k on.
fn record_next(
    alloc: Global,
    session: &Session,
    recorder: &mut Recorder,
    k: usize,
) -> Result<(), RecordFault>
    requires inside { k < length session.now.counts }
    requires recorded { HasRecorded session.now k recorder.old }
    ensures recorded { OnOk result (HasRecorded session.now (k + 1) recorder.new) }
    ensures refused { IfErr result (λ fault. fault ≢ RecordFault.Memory → record_fault_of session.now ≡ Some fault) }
{
    let last = &recorder.checkpoints[k];
    let count = session.counts()[k];
    let room = MAX_OUTPUT as usize - recorder.sent;
    let pool = &recorder.stored.pool;
    let reached = reach(alloc, pool, session.inputs(), last, count, room)?;
    store_pages(&mut recorder.stored, &reached.changed)?;
    if recorder.stored.pool.len() > MAX_PAGES {
        return Err(RecordFault::Pages);
    }
    let sent: &[u8] = &reached.sent;
    bytes_fit(sent);
    recorder.sent += sent.len();
    // The contract of `timer` states that devices are in their ranges.
    let _timer = reached.devices.timer();
    recorder.checkpoints.push(Checkpoint {
        count,
        cpu: reached.cpu,
        devices: reached.devices,
        sent: reached.sent,
        table: recorder.stored.table.copy(),
    })?;
    Ok(())
}

/// Returns the recording of all that was recorded. It copies the inputs, which the session keeps.
fn finish(alloc: Global, inputs: &Inputs, recorder: Recorder) -> Result<Recording, RecordFault>
    requires { IsLawfulWithDisk (parts_of recorder.stored.pool inputs.now recorder.checkpoints.items) }
    ensures recording { IfOk result (λ recording. recording ≡ parts_of recorder.stored.pool inputs.now recorder.checkpoints.items) }
    ensures memory { IfErr result (λ fault. fault ≡ RecordFault.Memory) }
{
    let inputs = copy_inputs(alloc, inputs)?;
    Ok(recording_of(recorder.stored.pool, inputs, recorder.checkpoints))
}

pub fn recording_of(pool: Pool, inputs: Inputs, checkpoints: Vec<Checkpoint>) -> Recording
    requires { IsLawfulWithDisk (parts_of pool inputs checkpoints.items) }
    ensures parts { result ≡ parts_of pool inputs checkpoints.items }
    ensures lawful { IsLawfulWithDisk result }
{
    match Recording::from_parts_with_disk(pool, inputs, checkpoints) {
        Ok(recording) => recording,
        Err(_) => unreachable!(),
    }
}

fn copy_inputs(alloc: Global, inputs: &Inputs) -> Result<Inputs, RecordFault>
    ensures same { IfOk result (λ copy. copy ≡ inputs.now) }
    ensures memory { IfErr result (λ fault. fault ≡ RecordFault.Memory) }
{
    let events = inputs.events().to_vec(alloc)?;
    match Inputs::new(events) {
        Ok(copy) => Ok(copy),
        Err(_) => unreachable!(),
    }
}
