//! The state of a machine and its inputs in the memory of a caller: plain numbers in the layout of C.
ghost use Rattle.std.specs.Prelude.{◌≡◌, ◌≤◌, ◌<◌, ◌↔◌, ◌++◌, ◌-◌, IfNone, IfSome, IsSome};
ghost use Rattle.std.specs.Prelude.{length, replicate};
ghost use Rattle.risc_core.specs.declared.branch.TheConstants.{COUNTER_END};
ghost use Rattle.risc_core.specs.Flags.{flags_of};
ghost use Rattle.risc_model.specs.MachineState.{cpu_state};
ghost use Rattle.galluspa.specs.Raw.{AreDevices, IsCpu, IsPadded, IsWhole, cpu_of, devices_of};

use crate::front::copy_to_front;
use oberon_format::words_fit;
use risc_core::COUNTER_END;
use risc_devices::Devices;
use risc_model::{Cpu, Flags};
use risc_pages::MEMORY_WORDS;

/// A machine's state without the words of its memory, and the count of instructions before it: 144 bytes. The fields are those of
/// a recording's checkpoint, and have their ranges.
#[repr(C)]
#[derive(Clone, Copy)]
pub struct RawState {
    /// Instructions executed so far.
    pub count: u64,
    /// R0 to R15.
    pub r: [u32; 16],
    /// The auxiliary register H.
    pub h: u32,
    /// The program counter, in words: below 2^22.
    pub pc: u32,
    /// N is bit 3, Z bit 2, C bit 1, V bit 0: below 16.
    pub flags: u32,
    /// Why the machine stopped, 0 while it runs: at most 4.
    pub stop: u32,
    /// The timer, in milliseconds.
    pub timer: u32,
    /// Instructions in a millisecond, or 0 for a timer that only inputs set.
    pub rate: u32,
    /// Instructions of the current millisecond: below `rate`, or 0 if `rate` is 0.
    pub phase: u32,
    /// Buttons (bits 11 to 8) and switches: below 4,096.
    pub switches: u32,
    /// The LEDs: below 256.
    pub leds: u32,
    /// The mouse word, inside the mask `073FF3FF`.
    pub mouse: u32,
    /// The byte of the serial line, and in bit 8 whether it is new: below 512.
    pub serial: u32,
    /// How many key codes wait: at most 16.
    pub key_count: u32,
    /// The key codes, oldest first. Those from `key_count` on are not read, and are written as 0.
    pub keys: [u8; 16],
    /// What the disk answered last: any word, 255 before its first answer.
    pub disk: u32,
    /// Is not read, and is written as 0.
    pub reserved: u32,
}

/// An input and the count before whose instruction it comes, as an event of a recording: 16 bytes.
#[repr(C)]
#[derive(Clone, Copy)]
pub struct RawInput {
    /// The count before whose instruction it comes: at most 2^40.
    pub count: u64,
    /// 1 timer, 2 switches, 3 mouse, 4 key, 5 serial, 6 disk.
    pub kind: u32,
    /// The value, in the range of its kind.
    pub value: u32,
}

fn cpu_of_parts(r: [u32; 16], h: u32, pc: u32, flags: u32, stop: u8) -> Cpu
    ensures { cpu_state result ≡ record { r = r; h = h; pc = pc; flags = flags_of flags; stop = stop } }
{
    words_fit(&r);
    Cpu {
        r,
        h,
        pc,
        flags: Flags::from_number(flags),
        stop,
    }
}

fn cpu_of(state: &RawState) -> Option<Cpu>
    ensures cpu { IfSome result (λ cpu. cpu_state cpu ≡ cpu_of state.now) }
    ensures counter { IfSome result (λ cpu. cpu.pc < COUNTER_END) }
    ensures stop { IfSome result (λ cpu. cpu.stop ≤ 4) }
    ensures range { IsSome result ↔ IsCpu state.now }
{
    if state.pc >= COUNTER_END || state.flags >= 16 || state.stop > 4 {
        return None;
    }
    Some(cpu_of_parts(state.r, state.h, state.pc, state.flags, state.stop as u8))
}

/// Tests the numbers that are cut to fewer bits before they are cut, and how many keys there are; `Devices::new` tests the phase
/// and the mouse word.
fn devices_of(state: &RawState) -> Option<Devices>
    ensures devices { IfSome result (λ devices. devices ≡ devices_of state.now) }
    ensures range { IsSome result ↔ AreDevices state.now }
{
    if state.switches >= 4_096 || state.leds >= 256 || state.serial >= 512 || state.key_count > 16 {
        return None;
    }
    let (keys, _) = state.keys.split_at(state.key_count as usize);
    match Devices::new(
        state.timer,
        state.rate,
        state.phase,
        state.switches as u16,
        state.leds as u8,
        state.mouse,
        state.serial as u16,
        keys,
    ) {
        Ok(devices) => Some(devices.with_disk(state.disk)),
        Err(_) => None,
    }
}

/// Returns the processor and the devices of a state; or none if a number is out of its range, as the fields of [`RawState`] have
/// them, or `words` is not of 262,144 words. Allocates nothing.
pub fn parts_of(state: &RawState, words: &[u32]) -> Option<(Cpu, Devices)>
    ensures cpu { IfSome result (λ parts. cpu_state parts.0 ≡ cpu_of state.now) }
    ensures devices { IfSome result (λ parts. parts.1 ≡ devices_of state.now) }
    ensures counter { IfSome result (λ parts. parts.0.pc < COUNTER_END) }
    ensures stop { IfSome result (λ parts. parts.0.stop ≤ 4) }
    ensures whole { IfSome result (λ _. IsWhole state.now words.now) }
    ensures range { IfNone result (¬ (IsWhole state.now words.now)) }
{
    if words.len() != MEMORY_WORDS as usize {
        return None;
    }
    let Some(cpu) = cpu_of(state) else {
        return None;
    };
    let Some(devices) = devices_of(state) else {
        return None;
    };
    Some((cpu, devices))
}

/// Pads key codes to the length of the field `keys`.
fn sixteen(codes: &[u8]) -> [u8; 16]
    requires { length codes.now ≤ 16 }
    ensures { result ≡ codes.now ++ replicate (16 - length codes.now) 0 }
{
    let mut keys = [0; 16];
    copy_to_front(codes, &mut keys);
    keys
}

/// Returns the state of a processor and devices at a count, in the layout of C. The bytes after the key codes are 0, and so is the
/// reserved word.
pub fn state_of(count: u64, cpu: &Cpu, devices: &Devices) -> RawState
    requires counter { cpu.now.pc < COUNTER_END }
    requires stop { cpu.now.stop ≤ 4 }
    ensures count { result.count ≡ count }
    ensures cpu { cpu_of result ≡ cpu_state cpu.now }
    ensures devices { devices_of result ≡ devices.now }
    ensures cpu_range { IsCpu result }
    ensures devices_range { AreDevices result }
    ensures padded { IsPadded result }
{
    let codes = devices.keys();
    RawState {
        count,
        r: cpu.r,
        h: cpu.h,
        pc: cpu.pc,
        flags: cpu.flags.number(),
        stop: cpu.stop as u32,
        timer: devices.timer(),
        rate: devices.rate(),
        phase: devices.phase(),
        switches: devices.switches() as u32,
        leds: devices.leds() as u32,
        mouse: devices.mouse(),
        serial: devices.serial() as u32,
        key_count: codes.len() as u32,
        keys: sixteen(codes),
        disk: devices.disk(),
        reserved: 0,
    }
}
