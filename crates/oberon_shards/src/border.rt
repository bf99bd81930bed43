//! Which segments a shard has.
ghost use Rattle.std.specs.Prelude.{◌≤◌, ◌<◌};
ghost use Rattle.oberon_shards.specs.Border.{IsBorder};

use oberon_format::Recording;

/// The largest number of shards: as many as a recording has segments at most.
pub const MAX_SHARDS: u32 = 4096;

/// Returns the border after the first `index` of `of` shards: the first segment that begins at or after that share of all
/// instructions.
pub(crate) fn border(r: &Recording, index: u32, of: u32) -> u32
    requires { (index ≤ of) × (of ≤ MAX_SHARDS) }
    ensures { IsBorder r.now index of result }
{
    let last = r.count() - 1;
    let steps = r.checkpoint(last).count;
    for segment in 0..last {
        if index as u64 * steps <= of as u64 * r.checkpoint(segment).count {
            return segment;
        }
    }
    last
}
