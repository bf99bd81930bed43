//! What all checkpoints of a recording claim, written to the memory of a caller in one reading.
ghost use Rattle.std.specs.Prelude.{◌≡◌, ◌≢◌, ◌<◌, ◌≤◌, ℕ, None, length, slice_index_or};
ghost use Rattle.oberon_format.specs.ByteFields.{first_fault_with_disk};
ghost use Rattle.oberon_format.specs.Recording.{checkpoint_at};
ghost use Rattle.risc_pages.specs.Pages.{page_of};
ghost use Rattle.galluspa.specs.Claim.{AreClaims, IsNoRecording, NeedsClaimRoom};
ghost use Rattle.galluspa.specs.inner.Claiming.{IsRawCheckpoint};

use crate::raw::{RawState, state_of};
use crate::refusal::{DONE, NO_RECORDING, NO_ROOM, OUT_OF_MEMORY, OUT_OF_RANGE};
use oberon_format::{Fault, Recording, read_with_disk};
use risc_pages::Pool;
use std::alloc::Global;

/// A page of memory: 1,024 bytes.
#[repr(C)]
#[derive(Clone, Copy)]
pub struct RawPage {
    /// Its 256 words.
    pub words: [u32; 256],
}

/// What a checkpoint claims, its memory page by page: 4,248 bytes.
#[repr(C)]
#[derive(Clone, Copy)]
pub struct RawCheckpoint {
    /// The state without its memory.
    pub state: RawState,
    /// The number of bytes sent since the checkpoint before.
    pub sent_count: u64,
    /// Which page each 256 words of its memory are: indices of the pages that are written beside the claims.
    pub pages: [u32; 1024],
}

/// Returns what checkpoint `k` claims. A page id is the index of a page, since the page of zeros comes first.
fn raw_checkpoint(recording: &Recording, k: u32) -> RawCheckpoint
    requires { k < length recording.now.checkpoints }
    ensures { IsRawCheckpoint (checkpoint_at recording.now k) result }
{
    let checkpoint = recording.checkpoint(k);
    RawCheckpoint {
        state: state_of(checkpoint.count, &checkpoint.cpu, &checkpoint.devices),
        sent_count: checkpoint.sent.len() as u64,
        pages: checkpoint.table.numbers,
    }
}

fn write_checkpoints(recording: &Recording, checkpoints: &mut [RawCheckpoint])
    requires { length recording.now.checkpoints ≤ length checkpoints.old }
    ensures each { (k : ℕ) (d : RawCheckpoint) → k < length recording.now.checkpoints →
        IsRawCheckpoint (checkpoint_at recording.now k) (slice_index_or checkpoints.new k d) }
    ensures rest { (k : ℕ) (d : RawCheckpoint) → length recording.now.checkpoints ≤ k →
        slice_index_or checkpoints.new k d ≡ slice_index_or checkpoints.old k d }
{
    for k in 0..recording.count() {
        checkpoints[k as usize] = raw_checkpoint(recording, k);
    }
}

/// Writes the page of zeros, and then those of the pool.
fn write_pages(pool: &Pool, pages: &mut [RawPage])
    requires { length pool.now < length pages.old }
    ensures each { (id : ℕ) (d : RawPage) → id ≤ length pool.now → (slice_index_or pages.new id d).words ≡ page_of pool.now id }
    ensures rest { (id : ℕ) (d : RawPage) → length pool.now < id →
        slice_index_or pages.new id d ≡ slice_index_or pages.old id d }
{
    for id in 0..pool.len() + 1 {
        pages[id as usize] = RawPage {
            words: pool.page(id).words,
        };
    }
}

/// Reads what all checkpoints of a recording claim, once: writes them to `checkpoints`, the pages that they name to `pages`, and the
/// numbers of both to the counts. Returns 0 (`DONE`). Page 0 is all zeros. Elements after these stay as they were. Whether a claim is
/// true is not tested.
///
/// Otherwise nothing is written but the counts of what there is, if there is too little room for them, and the result is 2
/// (`NO_ROOM`). It is 4 (`NO_RECORDING`) if the bytes are not a recording, and 3 (`OUT_OF_MEMORY`) if they are one and memory ran out.
#[unsafe(no_mangle)]
pub extern "C" fn galluspa_claims(
    alloc: Global,
    recording: &[u8],
    checkpoints: &mut [RawCheckpoint],
    checkpoints_count: &mut usize,
    pages: &mut [RawPage],
    pages_count: &mut usize,
) -> u8
    ensures claims { result ≡ DONE → AreClaims recording.now checkpoints.new checkpoints_count.new pages.new pages_count.new }
    ensures rest { result ≡ DONE → (k : ℕ) (d : RawCheckpoint) → checkpoints_count.new ≤ k →
        slice_index_or checkpoints.new k d ≡ slice_index_or checkpoints.old k d }
    ensures pages_rest { result ≡ DONE → (id : ℕ) (d : RawPage) → pages_count.new ≤ id →
        slice_index_or pages.new id d ≡ slice_index_or pages.old id d }
    ensures no_room { result ≡ NO_ROOM →
        NeedsClaimRoom recording.now (length checkpoints.old) checkpoints_count.new (length pages.old) pages_count.new }
    ensures unchanged { result ≢ DONE → (checkpoints.new ≡ checkpoints.old) × (pages.new ≡ pages.old) }
    ensures uncounted { result ≢ DONE → result ≢ NO_ROOM →
        (checkpoints_count.new ≡ checkpoints_count.old) × (pages_count.new ≡ pages_count.old) }
    ensures no_recording { result ≡ NO_RECORDING → IsNoRecording recording.now }
    ensures memory { result ≡ OUT_OF_MEMORY → first_fault_with_disk recording.now ≡ None }
    ensures codes { (result ≢ OUT_OF_RANGE) × (result ≤ NO_RECORDING) }
{
    let valid = match read_with_disk(alloc, recording) {
        Ok(valid) => valid,
        Err(Fault::Memory) => return OUT_OF_MEMORY,
        Err(_) => return NO_RECORDING,
    };
    *checkpoints_count = valid.count() as usize;
    *pages_count = valid.pool().len() as usize + 1;
    if *checkpoints_count > checkpoints.len() || *pages_count > pages.len() {
        return NO_ROOM;
    }
    write_checkpoints(&valid, checkpoints);
    write_pages(valid.pool(), pages);
    DONE
}
