//! The run of a machine from one checkpoint to the next.

ghost use Rattle.std.specs.Prelude.{◌≡◌, ◌≢◌, ◌⊎◌, ◌+◌, ◌-◌, ◌<◌, ◌≤◌, IfOk, IfErr, OnOk, length};
ghost use Rattle.risc_core.specs.declared.branch.TheConstants.{COUNTER_END};
ghost use Rattle.risc_pages.specs.Tables.{IsNamed};
ghost use Rattle.risc_machine.specs.Allocation.{MayFail};
ghost use Rattle.risc_model.specs.Replay.{run_of, sent_of};
ghost use Rattle.oberon_format.specs.CheckpointParts.{checkpoint_parts};
ghost use Rattle.oberon_session.specs.inner.Progress.{HasReached, SendsTooMuch, sent_on};

use crate::record_fault::RecordFault;
use oberon_format::Checkpoint;
use risc_devices::Devices;
use risc_machine::Machine;
use risc_model::{Cpu, Inputs};
use risc_pages::{Page, Pool};
use std::alloc::Global;

/// The most steps of a piece of a run. The length of the output is tested after each piece.
const PIECE: u64 = 1_048_576;

/// Where a run ended: the processor, the devices, the bytes sent since the start, and the pages that changed, each with its slot.
#[derive(Drop)]
pub struct Reached {
    pub cpu: Cpu,
    pub devices: Devices,
    pub sent: Vec<u8>,
    pub changed: Vec<(u16, Page)>,
}

/// Starts a machine at a checkpoint and runs it up to the count `to`. Returns `Output` if it sends more than `room` bytes.
pub fn reach(
    alloc: Global,
    pool: &Pool,
    inputs: &Inputs,
    last: &Checkpoint,
    to: u64,
    room: usize,
) -> Result<Reached, RecordFault>
    requires named { IsNamed pool.now last.now.table.numbers }
    requires counter { last.now.cpu.pc < COUNTER_END }
    requires stop { last.now.cpu.stop ≤ 4 }
    requires rises { last.now.count ≤ to }
    ensures reached { IfOk result (HasReached pool.now inputs.now (checkpoint_parts last.now) to) }
    ensures room { IfOk result (λ reached. length reached.sent.items ≤ room) }
    ensures refused { IfErr result (SendsTooMuch room (sent_on pool.now inputs.now (checkpoint_parts last.now) to)) }
{
    let mut machine = Machine::start(alloc, pool, &last.table, last.cpu, last.devices.copy())?;
    let sent = run_in_pieces(alloc, &mut machine, inputs, last.count, to, room)?;
    // The contract of `owned` states that a memory has all its words.
    let _owned = machine.memory().owned(0);
    let (cpu, devices, delta) = machine.close()?;
    Ok(Reached {
        cpu,
        devices,
        sent,
        changed: delta.changed,
    })
}

/// Runs a machine from one count up to another, and returns what it sends. Returns `Output` if that is more than `room` bytes.
fn run_in_pieces(
    alloc: Global,
    machine: &mut Machine<'_>,
    inputs: &Inputs,
    from: u64,
    to: u64,
    room: usize,
) -> Result<Vec<u8>, RecordFault>
    requires { from ≤ to }
    ensures state { OnOk result (machine.new.state ≡ run_of inputs.now from (to - from) machine.old.state) }
    ensures sent { IfOk result (λ sent. sent.items ≡ sent_of inputs.now from (to - from) machine.old.state) }
    ensures room { IfOk result (λ sent. length sent.items ≤ room) }
    ensures kept { machine.new.base ≡ machine.old.base }
    ensures refused { IfErr result (SendsTooMuch room (sent_of inputs.now from (to - from) machine.old.state)) }
    ensures memory { IfErr result (λ fault. fault ≡ RecordFault.Memory → MayFail machine.new) }
{
    let mut sent = Vec::new(alloc);
    let mut at = from;
    while at < to {
        let end = piece_end(machine, at, to);
        let Ok(()) = machine.run(inputs, at, end, &mut sent) else {
            return Err(RecordFault::Memory);
        };
        if sent.len() > room {
            return Err(RecordFault::Output);
        }
        at = end;
    }
    Ok(sent)
}

/// Returns the count at which the piece of a run that begins at a count ends: at most `PIECE` steps on. For a stopped machine it is
/// `to`, since no step is left to do.
fn piece_end(machine: &Machine<'_>, at: u64, to: u64) -> u64
    requires { at < to }
    ensures further { at < result }
    ensures within { result ≤ to }
    ensures few { (machine.now.state.cpu.stop ≢ 0) ⊎ (result ≤ at + PIECE) }
{
    if machine.cpu().stop != 0 || to - at <= PIECE {
        to
    } else {
        at + PIECE
    }
}
