//! The past of a run behind a handle: opened from a recording, or begun with a state, and closed.
ghost use Rattle.std.specs.Prelude.{◌≡◌, ◌≢◌, ◌≤◌, ◌⊎◌, ◌↔◌, [], IfErr, IfNone, IfOk, IfSome, None, OnOk};
ghost use Rattle.oberon_format.specs.ByteFields.{first_fault_with_disk};
ghost use Rattle.risc_model.specs.MachineState.{cpu_state};
ghost use Rattle.oberon_past.specs.Past.{IsExtent, IsOf, IsOpened, IsSpaced};
ghost use Rattle.galluspa.specs.Claim.{IsNoRecording};
ghost use Rattle.galluspa.specs.Past.{HasBegun, HasOpened, Holds, IsClosed, IsSpacing, Keeps, extent_of, spacing_of};
ghost use Rattle.galluspa.specs.Raw.{IsWhole, cpu_of, devices_of, state_of};

use crate::raw::{RawState, parts_of};
use crate::refusal::{
    CLOSED, DONE, NO_RECORDING, NO_ROOM, OUT_OF_MEMORY, OUT_OF_RANGE, RangeOrMemory,
};
use crate::sealed::RawPast;
use oberon_format::{Fault, Recording, read_with_disk};
use oberon_past::{Extent, Past, Steps};
use std::alloc::{AllocError, Global};

/// The fewest instructions between two keyframes that a caller may ask for.
const LEAST_SPACING: u64 = 65_536;

/// The instructions between two keyframes if a caller asks for none.
const OWN_SPACING: u64 = 1_048_576;

/// The counts of a past, and what it keeps: 48 bytes.
#[repr(C)]
#[derive(Clone, Copy)]
pub struct RawExtent {
    /// The first count.
    pub first: u64,
    /// The last count that can be asked about.
    pub end: u64,
    /// The count of the last keyframe.
    pub reached: u64,
    /// The number of keyframes.
    pub keyframes: u64,
    /// The number of pages of the keyframes.
    pub pages: u64,
    /// The number of inputs.
    pub inputs: u64,
}

/// Returns the spacing that a caller asks for, or none if it is out of its range.
fn steps_of(spacing: u64) -> Option<Steps>
    ensures steps { IfSome result (λ steps. steps.count ≡ spacing_of spacing) }
    ensures in_range { IfSome result (λ _. IsSpacing spacing) }
    ensures range { IfNone result (¬ (IsSpacing spacing)) }
{
    if spacing == 0 {
        return Steps::new(OWN_SPACING);
    }
    if spacing < LEAST_SPACING {
        return None;
    }
    Steps::new(spacing)
}

/// Puts a past in a box.
pub(crate) fn boxed(alloc: Global, past: Past) -> Result<Box<Past>, AllocError>
    ensures { IfOk result (λ boxed. boxed.value ≡ past) }
{
    Ok(Box::new(alloc, past)?)
}

/// Opens the past of a recording, in a box.
fn opened(alloc: Global, recording: Recording, spacing: Steps) -> Result<Box<Past>, AllocError>
    ensures opened { IfOk result (λ past. IsOpened recording past.value) }
    ensures spaced { IfOk result (λ past. IsSpaced spacing.count past.value) }
{
    boxed(alloc, Past::open(alloc, recording, spacing)?)
}

/// Begins the past of a machine, in a box. All numbers are tested before memory is asked for.
fn begun(
    alloc: Global,
    state: &RawState,
    words: &[u32],
    spacing: u64,
) -> Result<Box<Past>, RangeOrMemory>
    ensures begun { IfOk result (λ past.
        IsOf (record { start = state.now.count; first = state_of state.now words.now; inputs = [] }) state.now.count past.value) }
    ensures spaced { IfOk result (λ past. IsSpaced (spacing_of spacing) past.value) }
    ensures in_range { OnOk result (IsSpacing spacing × IsWhole state.now words.now) }
    ensures memory { IfErr result (λ refusal.
        refusal ≡ RangeOrMemory.Memory → IsSpacing spacing × IsWhole state.now words.now) }
    ensures range { IfErr result (λ refusal.
        refusal ≡ RangeOrMemory.Range → ¬ (IsSpacing spacing × IsWhole state.now words.now)) }
{
    let Some(spacing) = steps_of(spacing) else {
        return Err(RangeOrMemory::Range);
    };
    let Some((cpu, devices)) = parts_of(state, words) else {
        return Err(RangeOrMemory::Range);
    };
    let past = Past::begin(alloc, state.count, cpu, devices, words, spacing)?;
    Ok(boxed(alloc, past)?)
}

/// Returns an extent in the layout of C.
fn raw_extent(extent: Extent) -> RawExtent
    ensures { extent_of result ≡ extent }
{
    RawExtent {
        first: extent.first,
        end: extent.end,
        reached: extent.reached,
        keyframes: extent.keyframes as u64,
        pages: extent.pages as u64,
        inputs: extent.inputs as u64,
    }
}

/// Opens the past of a recording: its initial state and its inputs, up to the count of its last checkpoint. A past that is open is
/// closed first. Returns 0 (`DONE`). A keyframe is begun each `spacing` instructions, at least 65,536; 0 stands for 1,048,576.
///
/// Otherwise no past is open, and the result is 1 (`OUT_OF_RANGE`) if the spacing is out of its range, 4 (`NO_RECORDING`) if the
/// bytes are not a recording, and 3 (`OUT_OF_MEMORY`) if they are one and memory ran out.
#[unsafe(no_mangle)]
pub extern "C" fn galluspa_past_open(
    alloc: Global,
    past: &mut RawPast,
    recording: &[u8],
    spacing: u64,
) -> u8
    ensures opened { result ≡ DONE → HasOpened recording.now spacing past.new }
    ensures closed { result ≢ DONE → IsClosed past.new }
    ensures in_range { result ≢ OUT_OF_RANGE → IsSpacing spacing }
    ensures range { result ≡ OUT_OF_RANGE → ¬ (IsSpacing spacing) }
    ensures no_recording { result ≡ NO_RECORDING → IsNoRecording recording.now }
    ensures memory { result ≡ OUT_OF_MEMORY → first_fault_with_disk recording.now ≡ None }
    ensures codes { (result ≢ NO_ROOM) × (result ≤ NO_RECORDING) }
{
    past.close(alloc); // first, so that two pasts are never held
    let Some(steps) = steps_of(spacing) else {
        return OUT_OF_RANGE;
    };
    let valid = match read_with_disk(alloc, recording) {
        Ok(valid) => valid,
        Err(Fault::Memory) => return OUT_OF_MEMORY,
        Err(_) => return NO_RECORDING,
    };
    match opened(alloc, valid, steps) {
        Ok(opened) => {
            past.put(opened);
            DONE
        }
        Err(_) => OUT_OF_MEMORY,
    }
}

/// Opens the past of a machine that begins with this state and has no inputs. Its end is the count of the state. A past that is open
/// is closed first. Returns 0 (`DONE`). The spacing is as that of `galluspa_past_open`.
///
/// Otherwise no past is open, and the result is 1 (`OUT_OF_RANGE`) if the spacing or a number of the state is out of its range or
/// `words` is not of 262,144 words, and 3 (`OUT_OF_MEMORY`) if all is in range and memory ran out.
#[unsafe(no_mangle)]
pub extern "C" fn galluspa_past_begin(
    alloc: Global,
    past: &mut RawPast,
    state: &RawState,
    words: &[u32],
    spacing: u64,
) -> u8
    ensures begun { result ≡ DONE → HasBegun state.now words.now spacing past.new }
    ensures closed { result ≢ DONE → IsClosed past.new }
    ensures in_range { result ≢ OUT_OF_RANGE → IsSpacing spacing × IsWhole state.now words.now }
    ensures range { result ≡ OUT_OF_RANGE → ¬ (IsSpacing spacing × IsWhole state.now words.now) }
    ensures codes { (result ≤ OUT_OF_RANGE) ⊎ (result ≡ OUT_OF_MEMORY) }
{
    past.close(alloc);
    match begun(alloc, state, words, spacing) {
        Ok(begun) => {
            past.put(begun);
            DONE
        }
        Err(RangeOrMemory::Range) => OUT_OF_RANGE,
        Err(RangeOrMemory::Memory) => OUT_OF_MEMORY,
    }
}

/// Closes a past, and frees its memory. A handle of no past stays as it is.
#[unsafe(no_mangle)]
pub extern "C" fn galluspa_past_close(alloc: Global, past: &mut RawPast)
    ensures { IsClosed past.new }
{
    past.close(alloc);
}

/// Writes the counts of a past, and what it keeps, and returns 0 (`DONE`). If no past is open, nothing is written, and the result is
/// 13 (`CLOSED`).
#[unsafe(no_mangle)]
pub extern "C" fn galluspa_past_extent(
    alloc: Global,
    past: &mut RawPast,
    extent: &mut RawExtent,
) -> u8
    ensures extent { result ≡ DONE → Holds (λ p. IsExtent p (extent_of extent.new)) past.old }
    ensures unchanged { result ≢ DONE → extent.new ≡ extent.old }
    ensures closed { result ≡ CLOSED ↔ IsClosed past.old }
    ensures kept { Keeps past.old past.new }
    ensures codes { (result ≡ DONE) ⊎ (result ≡ CLOSED) }
{
    let Some(here) = past.take(alloc) else {
        return CLOSED;
    };
    *extent = raw_extent(here.extent());
    past.put(here);
    DONE
}
