//! The ranges of fields, tested on numbers, whatever their offsets.
//!
//! A name in `_END` is the first number after a range. Each limit has its one name, which definitions, contracts and code use:
//! here, or in a crate below that other crates share. The limits of whole recordings are in `recording_limits`, `MAX_COUNT` of
//! counts is in `risc_model`, and `COUNTER_END` of program counters in `risc_core`. All are this project's own choice, except the
//! end of program counters.

ghost use Rattle.std.specs.Prelude.{◌≡◌, ◌≤◌};
ghost use Rattle.risc_devices.specs.InputKind.{is_input_with_disk};
ghost use Rattle.oberon_format.specs.Ranges.{has_kind, is_count, is_output};

use crate::layout::VERSION_WITH_DISK;
use recording_limits::{LAST_CHECKPOINT, MAX_OUTPUT};
use risc_devices::Input;
use risc_devices::kinds::DISK;
use risc_model::MAX_COUNT;

/// The largest number of checkpoints, checkpoint 0 among them.
pub(crate) const MAX_CHECKPOINTS: u32 = LAST_CHECKPOINT + 1;

pub(crate) const FLAGS_END: u32 = 16;

pub(crate) const MAX_STOP: u32 = 4;

pub(crate) const SWITCHES_END: u32 = 4_096;

pub(crate) const LEDS_END: u32 = 256;

/// The serial byte with its "received" bit is below this.
pub(crate) const SERIAL_END: u32 = 512;

pub(crate) const MAX_KEYS: usize = 16;

/// Reports whether a number is that of a kind of input that may have the value.
pub(crate) fn is_input_with_disk(kind: u32, value: u32) -> bool
    ensures { result ≡ is_input_with_disk kind value }
{
    kind < 7 && Input::new_with_disk(kind as u8, value).is_ok()
}

/// Reports whether a version has inputs of a kind: only version 3 has inputs of the disk.
pub(crate) fn has_kind(version: u32, kind: u32) -> bool
    ensures { result ≡ has_kind version kind }
{
    version == VERSION_WITH_DISK || kind != DISK as u32
}

/// Reports whether the count of checkpoint k is 0 if k is 0, and otherwise above the count before and at most `MAX_COUNT`.
pub(crate) fn is_count(k: usize, before: u64, count: u64) -> bool
    ensures { result ≡ is_count k before count }
{
    if k == 0 {
        count == 0
    } else {
        before < count && count <= MAX_COUNT
    }
}

/// Reports whether checkpoint k may have `own` bytes of output after `sent` bytes before: at most `MAX_OUTPUT` in all, and none
/// if k is 0.
pub(crate) fn is_output(k: usize, sent: u64, own: u64) -> bool
    requires sent { sent ≤ MAX_OUTPUT }
    ensures { result ≡ is_output k sent own }
{
    (k != 0 || own == 0) && own <= MAX_OUTPUT - sent
}
