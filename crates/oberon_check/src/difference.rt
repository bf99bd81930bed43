//! The first part in which a machine differs from a checkpoint.
//!
//! This module compares the processor and the devices. `risc_pages` compares the pages, and `risc_machine` the bytes sent,
//! while the machine runs.
ghost use Rattle.std.specs.Prelude.{◌≡◌, ◌↔◌, ◌<◌, IfNone, IsTrue, List, length, ℕ};
ghost use Rattle.risc_pages.specs.Tables.{IsNamed};
ghost use Rattle.risc_model.specs.MachineState.{cpu_state};
ghost use Rattle.oberon_format.specs.CheckpointParts.{checkpoint_parts};
ghost use Rattle.oberon_format.specs.Defined.{claim_of, claimed};
ghost use Rattle.oberon_format.specs.FirstFault.{first_broken};
ghost use Rattle.oberon_check.specs.Difference.{IsDifference, register_parts, control_parts, cpu_parts, device_parts};
ghost use Rattle.oberon_check.specs.inner.Comparing.{IsDifferenceBy};

use crate::part::Part;
use oberon_format::{Checkpoint, Recording};
use risc_devices::Devices;
use risc_machine::Machine;
use risc_model::Cpu;
use risc_pages::Pool;

fn register_difference(a: &[u32; 16], b: &[u32; 16]) -> Option<Part>
    ensures part { result ≡ first_broken (register_parts a.now b.now) }
    ensures same { IfNone result (a.now ≡ b.now) }
{
    for i in 0..16u8 {
        if a[i as usize] != b[i as usize] {
            return Some(Part::R(i));
        }
    }
    None
}

/// Returns the first part after the registers in which two processors differ.
fn control_difference(claimed: &Cpu, cpu: &Cpu) -> Option<Part>
    ensures { result ≡ first_broken (control_parts (cpu_state claimed.now) (cpu_state cpu.now)) }
{
    if claimed.h != cpu.h {
        return Some(Part::H);
    }
    if claimed.pc != cpu.pc {
        return Some(Part::Pc);
    }
    if claimed.flags != cpu.flags {
        return Some(Part::Flags);
    }
    if claimed.stop != cpu.stop {
        return Some(Part::Stop);
    }
    None
}

fn cpu_difference(claimed: &Cpu, cpu: &Cpu) -> Option<Part>
    ensures part { result ≡ first_broken (cpu_parts (cpu_state claimed.now) (cpu_state cpu.now)) }
    ensures same { IfNone result (cpu_state claimed.now ≡ cpu_state cpu.now) }
{
    if let Some(part) = register_difference(&claimed.r, &cpu.r) {
        return Some(part);
    }
    control_difference(claimed, cpu)
}

fn device_difference(claimed: &Devices, devices: &Devices) -> Option<Part>
    ensures { result ≡ first_broken (device_parts claimed.now devices.now) }
{
    if claimed.timer() != devices.timer() {
        return Some(Part::Timer);
    }
    if claimed.rate() != devices.rate() {
        return Some(Part::Rate);
    }
    if claimed.phase() != devices.phase() {
        return Some(Part::Phase);
    }
    if claimed.switches() != devices.switches() {
        return Some(Part::Switches);
    }
    if claimed.leds() != devices.leds() {
        return Some(Part::Leds);
    }
    if claimed.mouse() != devices.mouse() {
        return Some(Part::Mouse);
    }
    if claimed.serial() != devices.serial() {
        return Some(Part::Serial);
    }
    if claimed.keys() != devices.keys() {
        return Some(Part::Keys);
    }
    if claimed.disk() != devices.disk() {
        return Some(Part::Disk);
    }
    None
}

/// Returns the first part in which a checkpoint differs from a machine. `same` says whether the bytes that the machine sent
/// are the checkpoint's. It allocates nothing.
pub(crate) fn first_difference(
    machine: &Machine<'_>,
    same: bool,
    pool: &Pool,
    checkpoint: &Checkpoint,
) -> Option<Part>
    requires { IsNamed pool.now checkpoint.now.table.numbers }
    ensures { IsDifferenceBy same (claim_of pool.now (checkpoint_parts checkpoint.now)) machine.now.state result }
{
    if let Some(part) = cpu_difference(&checkpoint.cpu, machine.cpu()) {
        return Some(part);
    }
    if let Some(part) = device_difference(&checkpoint.devices, machine.devices()) {
        return Some(part);
    }
    if !same {
        return Some(Part::Sent);
    }
    match machine.memory().first_difference(pool, &checkpoint.table) {
        Some(slot) => Some(Part::Page(slot)),
        None => None,
    }
}

/// Returns the first part in which what checkpoint `k` claims differs from a machine. `same` says whether the bytes that the machine sent
/// are those that the checkpoint claims. It allocates nothing.
pub fn claim_difference(
    machine: &Machine<'_>,
    same: bool,
    recording: &Recording,
    k: u32,
) -> Option<Part>
    requires { k < length recording.now.checkpoints }
    ensures { (sent : List ℕ) → (IsTrue same ↔ (sent ≡ (claimed recording.now k).sent))
        → IsDifference (claimed recording.now k) (record { state = machine.now.state; sent = sent }) result }
{
    first_difference(machine, same, recording.pool(), recording.checkpoint(k))
}
