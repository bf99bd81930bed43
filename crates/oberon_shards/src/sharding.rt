//! One shard of a check: its segments are replayed one after another, up to the first that fails.
ghost use Rattle.std.specs.Prelude.{◌≡◌, ◌≢◌, ◌+◌, ◌<◌, ◌≤◌, IfOk, MatchOption};
ghost use Rattle.oberon_format.specs.Recording.{last_of};
ghost use Rattle.oberon_shards.specs.Border.{IsIndexed, IsIndexedIn};
ghost use Rattle.oberon_shards.specs.Shard.{Hold, IsShardIn, IsShardOf, byte_of};
ghost use Rattle.oberon_shards.specs.inner.Stretch.{IsFirstFailed, IsStretch, IsFault};

use crate::border::{MAX_SHARDS, border};
use crate::shard::{Finding, Shard};
use oberon_check::{Part, Verdict, Versions, replay_segment};
use oberon_format::{Fault, Recording, one_recording_with_disk_law, refusal};
use sha2::{Digest, Sha256};
use std::alloc::{AllocError, Global};

/// Checks shard `index` of `of` of the bytes of a recording file.
///
/// Its segments are replayed from what the checkpoint at its beginning claims. If that checkpoint is true, what is found is so in the
/// one uninterrupted replay. If the bytes are no recording, each shard answers their first fault. It fails only if memory runs out.
pub fn check_shard(alloc: Global, bytes: &[u8], index: u32, of: u32) -> Result<Shard, AllocError>
    requires { (1 ≤ index) × (index ≤ of) × (of ≤ MAX_SHARDS) }
    ensures shard { IfOk result (IsShardOf bytes.now) }
    ensures indexed { IfOk result (IsIndexed bytes.now index of) }
{
    check_shard_in(alloc, Versions::WithoutDisk, bytes, index, of)
}

/// Checks shard `index` of `of` of the bytes of a recording file in one of these versions, as `check_shard` does for those of versions 1
/// and 2.
pub fn check_shard_in(
    alloc: Global,
    versions: Versions,
    bytes: &[u8],
    index: u32,
    of: u32,
) -> Result<Shard, AllocError>
    requires { (1 ≤ index) × (index ≤ of) × (of ≤ MAX_SHARDS) }
    ensures shard { IfOk result (IsShardIn versions bytes.now) }
    ensures indexed { IfOk result (IsIndexedIn versions bytes.now index of) }
{
    one_recording_with_disk_law();
    let digest = Sha256::digest(bytes);
    match versions.read(alloc, bytes) {
        Ok(r) => {
            let from = border(&r, index - 1, of);
            let end = border(&r, index, of);
            stretch(alloc, digest, &r, from, end)
        }
        Err(Fault::Memory) => Err(AllocError),
        Err(fault) => faulty(alloc, digest, &fault),
    }
}

/// Returns the answer of a shard with the segments from `from` to `end - 1`.
fn stretch(
    alloc: Global,
    digest: [u8; 32],
    r: &Recording,
    from: u32,
    end: u32,
) -> Result<Shard, AllocError>
    requires { (from ≤ end) × (end ≤ last_of r.now) }
    ensures { IfOk result (IsStretch r.now digest from end) }
{
    let last = r.count() - 1;
    match first_failed(alloc, r, from, end)? {
        None => {
            let count = r.checkpoint(last).count;
            let verdict = Verdict::Accepted {
                checkpoints: last,
                steps: count,
            };
            Ok(Shard {
                digest,
                from,
                to: end,
                last,
                finding: Finding::Holds,
                count,
                line: verdict.line(alloc)?,
            })
        }
        Some((segment, part)) => {
            let to = segment + 1;
            let count = r.checkpoint(to).count;
            let verdict = Verdict::FalseAt {
                checkpoint: to,
                count,
                part,
            };
            Ok(Shard {
                digest,
                from,
                to,
                last,
                finding: Finding::Fails,
                count,
                line: verdict.line(alloc)?,
            })
        }
    }
}

/// Replays the segments from `from` to `end - 1` in order, and returns the first that fails, with the first part that differs.
fn first_failed(
    alloc: Global,
    r: &Recording,
    from: u32,
    end: u32,
) -> Result<Option<(u32, Part)>, AllocError>
    requires { (from ≤ end) × (end ≤ last_of r.now) }
    ensures { IfOk result (IsFirstFailed r.now from end) }
{
    for segment in from..end {
        let verdict = replay_segment(alloc, r, segment)?;
        if let Some(part) = verdict.part() {
            return Ok(Some((segment, part)));
        }
    }
    Ok(None)
}

/// Returns the answer of a shard of bytes that are no recording.
fn faulty(alloc: Global, digest: [u8; 32], fault: &Fault) -> Result<Shard, AllocError>
    requires { fault.now ≢ Fault.Memory }
    ensures { IfOk result (IsFault digest fault.now) }
{
    Ok(Shard {
        digest,
        from: 0,
        to: 0,
        last: 0,
        finding: Finding::Refused,
        count: byte_of(fault),
        line: refusal(alloc, fault)?,
    })
}

/// Returns the byte of a fault.
fn byte_of(fault: &Fault) -> u64
    ensures { result ≡ byte_of fault.now }
{
    match *fault {
        Fault::Short(byte) => byte,
        Fault::Magic(byte) => byte,
        Fault::Version(byte) => byte,
        Fault::Limit(byte) => byte,
        Fault::Event(byte) => byte,
        Fault::Checkpoint(byte) => byte,
        Fault::Page(byte) => byte,
        Fault::Trailing(byte) => byte,
        Fault::Memory => 0,
    }
}
