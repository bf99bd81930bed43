//! The run from a keyframe to a count, in which the bytes that the machine sends are dropped and take no memory; and the run on from
//! there, in which they are kept.
ghost use Rattle.std.specs.Prelude.{◌≡◌, ◌-◌, ◌<◌, ◌≤◌, IfOk};
ghost use Rattle.risc_core.specs.declared.branch.TheConstants.{COUNTER_END};
ghost use Rattle.risc_pages.specs.Tables.{IsNamed, table_words};
ghost use Rattle.risc_model.specs.Replay.{run_of};
ghost use Rattle.oberon_format.specs.CheckpointParts.{checkpoint_parts};
ghost use Rattle.oberon_past.specs.inner.Kept.{IsReached, IsStretch, state_of};

use crate::warm::Warm;
use oberon_format::Checkpoint;
use risc_devices::Devices;
use risc_machine::{Machine, Output};
use risc_model::{Cpu, Inputs};
use risc_pages::{Page, Pool};
use std::alloc::{AllocError, Global};

/// Where a run from a keyframe ended: the processor, the devices, and the pages that changed, each with its slot.
#[derive(Drop)]
pub(crate) struct Reached {
    pub(crate) cpu: Cpu,
    pub(crate) devices: Devices,
    pub(crate) changed: Vec<(u16, Page)>,
}

/// Runs from a keyframe to a count, and returns the machine there.
pub(crate) fn machine_at<'a>(
    alloc: Global,
    pool: &'a Pool,
    inputs: &Inputs,
    keyframe: &Checkpoint,
    to: u64,
) -> Result<Machine<'a>, AllocError>
    requires named { IsNamed pool.now keyframe.now.table.numbers }
    requires counter { keyframe.now.cpu.pc < COUNTER_END }
    requires stop { keyframe.now.cpu.stop ≤ 4 }
    requires forward { keyframe.now.count ≤ to }
    ensures state { IfOk result (λ machine. machine.state
        ≡ run_of inputs.now keyframe.now.count (to - keyframe.now.count) (state_of pool.now (checkpoint_parts keyframe.now))) }
    ensures base { IfOk result (λ machine. machine.base ≡ table_words pool.now keyframe.now.table.numbers) }
{
    let mut machine = Machine::start(
        alloc,
        pool,
        &keyframe.table,
        keyframe.cpu,
        keyframe.devices.copy(),
    )?;
    let Ok(_) = machine.run_matching(inputs, keyframe.count, to, &[]) else {
        return Err(AllocError);
    };
    Ok(machine)
}

/// Runs from a keyframe to a count, and returns where it ended.
pub(crate) fn reach(
    alloc: Global,
    pool: &Pool,
    inputs: &Inputs,
    keyframe: &Checkpoint,
    to: u64,
) -> Result<Reached, AllocError>
    requires named { IsNamed pool.now keyframe.now.table.numbers }
    requires counter { keyframe.now.cpu.pc < COUNTER_END }
    requires stop { keyframe.now.cpu.stop ≤ 4 }
    requires forward { keyframe.now.count ≤ to }
    ensures { IfOk result (IsReached (state_of pool.now (checkpoint_parts keyframe.now)).words
        (run_of inputs.now keyframe.now.count (to - keyframe.now.count) (state_of pool.now (checkpoint_parts keyframe.now)))) }
{
    closed(machine_at(alloc, pool, inputs, keyframe, to)?)
}

/// Returns where the run of a machine has come. It copies the pages that changed.
pub(crate) fn reached_by(machine: &Machine<'_>) -> Result<Reached, AllocError>
    ensures { IfOk result (IsReached machine.now.base machine.now.state) }
{
    // The contract of `owned` states that a memory has all its words.
    let _owned = machine.memory().owned(0);
    let delta = machine.memory().delta()?;
    Ok(Reached {
        cpu: *machine.cpu(),
        devices: machine.devices().copy(),
        changed: delta.changed,
    })
}

/// Closes a machine, and returns where its run ended.
fn closed(machine: Machine<'_>) -> Result<Reached, AllocError>
    ensures { IfOk result (IsReached machine.entry.base machine.entry.state) }
{
    // The contract of `owned` states that a memory has all its words.
    let _owned = machine.memory().owned(0);
    let (cpu, devices, delta) = machine.close()?;
    Ok(Reached {
        cpu,
        devices,
        changed: delta.changed,
    })
}

/// A run on from a count: where it ended, and the bytes that the machine sent.
#[derive(Drop)]
pub(crate) struct Stretch {
    pub(crate) end: u64,
    pub(crate) sent: Vec<u8>,
}

/// A run on from the end of a past.
#[derive(Drop)]
pub(crate) struct Ran {
    pub(crate) stretch: Stretch,
    /// The next keyframe, if the run came to its count, and there is memory for it.
    pub(crate) next: Option<Reached>,
    /// The machine at the new end, if it is there, and there is memory for it.
    pub(crate) warm: Option<Warm>,
}

/// Runs a machine on, as long as there is room for the bytes that it sends.
///
/// A run that ends early when all room is taken ends before an instruction that sends, or for which memory ran out. A step of that
/// instruction tells the two apart.
pub(crate) fn run_with_room(
    alloc: Global,
    machine: &mut Machine<'_>,
    inputs: &Inputs,
    from: u64,
    to: u64,
    room: usize,
) -> Result<Stretch, AllocError>
    requires { from ≤ to }
    ensures stretch { IfOk result (IsStretch inputs.now from to room machine.old.state) }
    ensures state { IfOk result (λ stretch. stretch.end ≡ to → machine.new.state ≡ run_of inputs.now from (to - from) machine.old.state) }
    ensures base { machine.new.base ≡ machine.old.base }
{
    let mut output = Output {
        bytes: Vec::new(alloc),
        room,
    };
    match machine.run_within(inputs, from, to, &mut output) {
        Ok(()) => Ok(Stretch {
            end: to,
            sent: output.bytes,
        }),
        Err(fault) => {
            if output.bytes.len() < room {
                return Err(AllocError);
            }
            match machine.step() {
                Ok(Some(_)) => Ok(Stretch {
                    end: fault.at,
                    sent: output.bytes,
                }),
                _ => Err(AllocError),
            }
        }
    }
}
