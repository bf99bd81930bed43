//! The fields of a checkpoint that have a range, from a file or from parts, and their rules for both.
//!
//! Nothing here allocates memory.

ghost use Rattle.std.specs.Prelude.{◌≡◌, ◌≤◌, ◌+◌, ◌==◌};
ghost use Rattle.std.specs.List.{list_all};
ghost use Rattle.std.specs.Option.{IfNone};
ghost use Rattle.oberon_format.specs.FirstFault.{first_broken};
ghost use Rattle.oberon_format.specs.CheckpointParts.{key_bytes};
ghost use Rattle.oberon_format.specs.Rules.{field_rules};

use crate::change::change_count;
use crate::checkpoint::Checkpoint;
use crate::fault::Fault;
use crate::layout::{
    CHANGE_COUNT_AT, CHANGES_AT, FIRST_VERSION, FLAGS_AT, KEYS_AT, LEDS_AT, MOUSE_AT, PC_AT,
    PHASE_AT, RATE_AT, SENT_AT, SERIAL_AT, STOP_AT, SWITCHES_AT, WAITING_AT, word_since_2,
};
use crate::number::{u32_at, u64_at};
use crate::ranges::{
    FLAGS_END, LEDS_END, MAX_KEYS, MAX_STOP, SERIAL_END, SWITCHES_END, is_count, is_output,
};
use recording_limits::MAX_OUTPUT;
use risc_core::COUNTER_END;
use risc_devices::{Devices, is_mouse_word, is_phase_at};
use risc_pages::{PAGE_SLOTS, Table};

/// The fields of a checkpoint that have a range. Each may be out of range.
#[derive(Drop)]
pub(crate) struct CheckpointFields {
    /// The number of instructions before the checkpoint.
    pub(crate) count: u64,
    pub(crate) pc: u32,
    /// The number of the flags.
    pub(crate) flags: u32,
    pub(crate) stop: u32,
    pub(crate) switches: u32,
    pub(crate) leds: u32,
    pub(crate) mouse: u32,
    /// The serial byte, with "received" in bit 8.
    pub(crate) serial: u32,
    /// The number of keys.
    pub(crate) waiting: u32,
    pub(crate) keys: [u8; MAX_KEYS],
    /// The length of the output, in bytes.
    pub(crate) output: u64,
    /// The rate of the timer: 0 in a file of version 1.
    pub(crate) rate: u32,
    /// The phase of the timer: 0 in a file of version 1.
    pub(crate) phase: u32,
    /// The number of changes of the table: 0 in a file of version 1, which has the whole table.
    pub(crate) changes: u32,
}

impl CheckpointFields {
    ghost use Rattle.std.specs.Prelude.{◌≡◌, ◌≤◌, ◌+◌, ◌==◌, false, length};
    ghost use Rattle.oberon_format.specs.CheckpointParts.{checkpoint_parts};
    ghost use Rattle.oberon_format.specs.PartFields.{checkpoint_fields};
    ghost use Rattle.oberon_format.specs.Ranges.{in_ranges, are_keys, is_checkpoint};
    ghost use Rattle.oberon_format.specs.ByteFields.{checkpoint_of};

    /// Returns the fields of the checkpoint at an offset of a file. In each version 144 bytes are there, though not all of them
    /// are read.
    pub(crate) fn of_bytes(bytes: &[u8], offset: usize) -> CheckpointFields
        requires { offset + CHANGES_AT ≤ length bytes.now }
        ensures { result ≡ checkpoint_of bytes.now offset }
    {
        let mut keys = [0; MAX_KEYS];
        keys.copy_from_slice(&bytes[offset + KEYS_AT..offset + SENT_AT]);
        CheckpointFields {
            count: u64_at(bytes, offset),
            pc: u32_at(bytes, offset + PC_AT),
            flags: u32_at(bytes, offset + FLAGS_AT),
            stop: u32_at(bytes, offset + STOP_AT),
            switches: u32_at(bytes, offset + SWITCHES_AT),
            leds: u32_at(bytes, offset + LEDS_AT),
            mouse: u32_at(bytes, offset + MOUSE_AT),
            serial: u32_at(bytes, offset + SERIAL_AT),
            waiting: u32_at(bytes, offset + WAITING_AT),
            keys,
            output: u32_at(bytes, offset + SENT_AT) as u64,
            rate: word_since_2(bytes, offset + RATE_AT),
            phase: word_since_2(bytes, offset + PHASE_AT),
            changes: word_since_2(bytes, offset + CHANGE_COUNT_AT),
        }
    }

    /// Returns the fields that a checkpoint has in a version after the first, after a table.
    pub(crate) fn of_parts(
        version: u32,
        before: &Table,
        checkpoint: &Checkpoint,
    ) -> CheckpointFields
        requires { (version == FIRST_VERSION) ≡ false }
        ensures { result ≡ checkpoint_fields version before.now.numbers (checkpoint_parts checkpoint.now) }
    {
        let devices = &checkpoint.devices;
        CheckpointFields {
            count: checkpoint.count,
            pc: checkpoint.cpu.pc,
            flags: checkpoint.cpu.flags.number(),
            stop: checkpoint.cpu.stop as u32,
            switches: devices.switches() as u32,
            leds: devices.leds() as u32,
            mouse: devices.mouse(),
            serial: devices.serial() as u32,
            waiting: devices.keys().len() as u32,
            keys: key_bytes(devices),
            output: checkpoint.sent.len() as u64,
            rate: devices.rate(),
            phase: devices.phase(),
            changes: change_count(before, &checkpoint.table),
        }
    }

    fn in_ranges(&self) -> bool
        ensures { result ≡ in_ranges self.now }
    {
        self.pc < COUNTER_END
            && self.flags < FLAGS_END
            && self.stop <= MAX_STOP
            && is_phase_at(self.rate, self.phase)
            && self.switches < SWITCHES_END
            && self.leds < LEDS_END
            && is_mouse_word(self.mouse)
            && self.serial < SERIAL_END
            && self.changes <= PAGE_SLOTS as u32
    }

    /// Reports whether the keys are at most sixteen, with zeros after them.
    fn are_keys(&self) -> bool
        ensures { result ≡ are_keys self.now }
    {
        self.waiting <= MAX_KEYS as u32 && are_zeros(&self.keys[self.waiting as usize..])
    }

    /// Reports whether these fields may be those of checkpoint k, after the count and the number of output bytes before it.
    fn is_checkpoint(&self, k: usize, before: u64, sent: u64) -> bool
        requires { sent ≤ MAX_OUTPUT }
        ensures { result ≡ is_checkpoint k before sent self.now }
    {
        is_count(k, before, self.count)
            && self.in_ranges()
            && self.are_keys()
            && is_output(k, sent, self.output)
    }
}

/// Returns the sixteen key bytes of devices: their keys, oldest first, and zeros.
pub(crate) fn key_bytes(devices: &Devices) -> [u8; MAX_KEYS]
    ensures { result ≡ key_bytes devices.now }
{
    let keys = devices.keys();
    let mut bytes = [0; MAX_KEYS];
    bytes[..keys.len()].copy_from_slice(keys);
    bytes
}

fn are_zeros(bytes: &[u8]) -> bool
    ensures { result ≡ list_all (λ b. b == 0) bytes.now }
{
    bytes.iter().all(|byte| *byte == 0)
}

/// Returns the first fault of the fields of checkpoint k, which begins at an offset.
pub(crate) fn fields_fault(
    offset: usize,
    k: usize,
    before: u64,
    sent: u64,
    fields: &CheckpointFields,
) -> Option<Fault>
    requires { sent ≤ MAX_OUTPUT }
    ensures fault { result ≡ first_broken (field_rules offset k before sent fields.now) }
    ensures small { IfNone result (sent + fields.now.output ≤ MAX_OUTPUT) }
    ensures few { IfNone result (fields.now.changes ≤ PAGE_SLOTS) }
{
    if fields.is_checkpoint(k, before, sent) {
        None
    } else {
        Some(Fault::Checkpoint(offset as u64))
    }
}
