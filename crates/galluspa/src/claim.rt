//! What a checkpoint of a recording claims, written to the memory of a caller.
ghost use Rattle.std.specs.Prelude.{◌≡◌, ◌≢◌, ◌<◌, ◌≤◌, None, OnErr, OnOk, length};
ghost use Rattle.oberon_format.specs.Defined.{claimed};
ghost use Rattle.oberon_format.specs.Recording.{count_at};
ghost use Rattle.oberon_format.specs.ByteFields.{first_fault_with_disk};
ghost use Rattle.galluspa.specs.Claim.{HasNoCheckpoint, IsClaim, IsNoRecording};
ghost use Rattle.galluspa.specs.Raw.{IsWritten, state_of};

use crate::raw::{RawState, state_of};
use crate::refusal::{DONE, NO_CHECKPOINT, NO_RECORDING, NO_ROOM, OUT_OF_MEMORY, OUT_OF_RANGE};
use crate::words::copy_words;
use oberon_format::{Fault, Recording, read_with_disk};
use risc_pages::{MEMORY_WORDS, Memory};
use std::alloc::{AllocError, Global};

/// Makes the memory, which alone can be refused, before anything is written.
fn write_claim(
    alloc: Global,
    recording: &Recording,
    at: u32,
    state: &mut RawState,
    words: &mut [u32],
) -> Result<(), AllocError>
    requires there { at < length recording.now.checkpoints }
    requires words { length words.old ≡ MEMORY_WORDS }
    ensures count { OnOk result (state.new.count ≡ count_at recording.now at) }
    ensures claim { OnOk result (state_of state.new words.new ≡ (claimed recording.now at).state) }
    ensures written { OnOk result (IsWritten state.new words.new) }
    ensures unchanged { OnErr result ((state.new ≡ state.old) × (words.new ≡ words.old)) }
{
    let checkpoint = recording.checkpoint(at);
    let memory = Memory::from_table(alloc, recording.pool(), &checkpoint.table)?;
    *state = state_of(checkpoint.count, &checkpoint.cpu, &checkpoint.devices);
    copy_words(&memory, words);
    Ok(())
}

/// Reads what checkpoint `at` of a recording claims, its state and its words, and returns 0 (`DONE`). Whether the claim is true is
/// not tested. Checkpoint 0 is the initial state.
///
/// Otherwise nothing is written, and the result is 1 (`OUT_OF_RANGE`) if `words` is not of 262,144 words, 4 (`NO_RECORDING`) if the
/// bytes are not a recording, 3 (`OUT_OF_MEMORY`) if they are one and memory ran out, and 5 (`NO_CHECKPOINT`) if the recording has
/// no such checkpoint.
#[unsafe(no_mangle)]
pub extern "C" fn galluspa_claim(
    alloc: Global,
    recording: &[u8],
    at: u32,
    state: &mut RawState,
    words: &mut [u32],
) -> u8
    ensures claim { result ≡ DONE → IsClaim recording.now at state.new words.new }
    ensures written { result ≡ DONE → IsWritten state.new words.new }
    ensures unchanged { result ≢ DONE → (state.new ≡ state.old) × (words.new ≡ words.old) }
    ensures in_range { result ≢ OUT_OF_RANGE → length words.old ≡ MEMORY_WORDS }
    ensures range { result ≡ OUT_OF_RANGE → length words.old ≢ MEMORY_WORDS }
    ensures no_recording { result ≡ NO_RECORDING → IsNoRecording recording.now }
    ensures no_checkpoint { result ≡ NO_CHECKPOINT → HasNoCheckpoint recording.now at }
    ensures memory { result ≡ OUT_OF_MEMORY → first_fault_with_disk recording.now ≡ None }
    ensures codes { (result ≢ NO_ROOM) × (result ≤ NO_CHECKPOINT) }
{
    if words.len() != MEMORY_WORDS as usize {
        return OUT_OF_RANGE;
    }
    let valid = match read_with_disk(alloc, recording) {
        Ok(valid) => valid,
        Err(Fault::Memory) => return OUT_OF_MEMORY,
        Err(_) => return NO_RECORDING,
    };
    if at >= valid.count() {
        return NO_CHECKPOINT;
    }
    match write_claim(alloc, &valid, at, state, words) {
        Ok(()) => DONE,
        Err(_) => OUT_OF_MEMORY,
    }
}
