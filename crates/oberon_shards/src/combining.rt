//! The line of a recording from its shards.
ghost use Rattle.std.specs.Prelude.{◌≡◌, ◌<◌, ◌≤◌, ◌↔◌, ℕ, All, IfErr, IfOk, IsTrue, MatchOption, length};
ghost use Rattle.oberon_shards.specs.Combining.{Agree, AgreeAs, AllAgree, AreApart, Decides, IsCombineFault, IsContradiction, IsCovered, IsOneOf, Rise};
ghost use Rattle.oberon_shards.specs.inner.Walking.{AgreesWithAll, IsAt, IsEnd, IsGap, IsGapEnd, IsOneWith, IsStranger};
ghost use Rattle.oberon_shards.specs.declared.shard.Finding.{Finding};

use crate::fault::CombineFault;
use crate::shard::{Finding, Shard};
use oberon_format::{file_or_fault_law, file_or_fault_with_disk_law, one_recording_with_disk_law};

/// No shard has this index.
const NO_SHARD: usize = usize::MAX;

/// Returns the first shard that has this segment.
fn covering<'a>(shards: &'a [Shard], segment: u32) -> Option<&'a Shard>
    ensures { MatchOption result (All (λ s. ¬ ((s.from ≤ segment) × (segment < s.to))) shards.now) (λ s. IsAt shards.now segment s.now) }
{
    for shard in shards {
        if shard.from <= segment && segment < shard.to {
            return Some(shard);
        }
    }
    None
}

/// Returns the first shard with this finding.
fn first_with<'a>(shards: &'a [Shard], finding: Finding) -> Option<&'a Shard>
    ensures { MatchOption result (All (λ s. ¬ (s.finding ≡ finding)) shards.now) (λ s. IsOneWith shards.now finding s.now) }
{
    for shard in shards {
        if shard.finding == finding {
            return Some(shard);
        }
    }
    None
}

/// Returns the index of the first shard of another file.
fn stranger(shards: &[Shard], digest: &[u8; 32]) -> Option<usize>
    ensures { MatchOption result (All (λ s. s.digest ≡ digest.now) shards.now) (IsStranger shards.now digest.now) }
{
    for k in 0..shards.len() {
        if shards[k].digest != *digest {
            return Some(k);
        }
    }
    None
}

/// Returns whether the second of two checkpoints, which is not before the first, can have its count: each is at least one more than that
/// of the checkpoint before.
fn rise(at: u32, count: u64, other_at: u32, other_count: u64) -> bool
    ensures { IsTrue result ↔ Rise at count other_at other_count }
{
    if at == other_at && count != other_count {
        return false;
    }
    count <= other_count && other_at.saturating_sub(at) as u64 <= other_count - count
}

/// Returns whether two shards contradict each other, in this order.
fn contradict(a: &Shard, b: &Shard) -> bool
    ensures apart { IsTrue result → AreApart a.now b.now }
    ensures agree { ¬ (IsTrue result) → Agree a.now b.now }
{
    one_recording_with_disk_law();
    file_or_fault_law();
    file_or_fault_with_disk_law();
    if a.last != b.last {
        return true;
    }
    match a.finding {
        Finding::Holds => match b.finding {
            Finding::Holds => a.line != b.line,
            Finding::Fails => false,
            Finding::Refused => true,
        },
        Finding::Fails => match b.finding {
            Finding::Holds => fails_there(a, b),
            Finding::Fails => fail_apart(a, b),
            Finding::Refused => true,
        },
        Finding::Refused => match b.finding {
            Finding::Refused => a.line != b.line,
            _ => true,
        },
    }
}

/// Returns whether a shard that fails contradicts one that holds: the segment that fails is one of those that hold, or the last count is
/// too low.
fn fails_there(a: &Shard, b: &Shard) -> bool
    requires a { a.now.finding ≡ Finding.Fails }
    requires b { b.now.finding ≡ Finding.Holds }
    requires last { a.now.last ≡ b.now.last }
    ensures apart { IsTrue result → AreApart a.now b.now }
    ensures agree { ¬ (IsTrue result) → AgreeAs Finding.Fails Finding.Holds a.now b.now }
{
    one_recording_with_disk_law();
    if b.from < a.to && a.to <= b.to {
        return true;
    }
    !rise(a.to, a.count, b.last, b.count)
}

/// Returns whether two shards that fail contradict each other, in this order.
fn fail_apart(a: &Shard, b: &Shard) -> bool
    requires a { a.now.finding ≡ Finding.Fails }
    requires b { b.now.finding ≡ Finding.Fails }
    ensures apart { IsTrue result → AreApart a.now b.now }
    ensures agree { ¬ (IsTrue result) → AgreeAs Finding.Fails Finding.Fails a.now b.now }
{
    one_recording_with_disk_law();
    if a.to == b.to {
        return a.line != b.line;
    }
    if b.to < a.to {
        return false;
    }
    if b.from < a.to {
        return true;
    }
    !rise(a.to, a.count, b.to, b.count)
}

/// Returns the index of the first shard that one contradicts.
fn opponent(shards: &[Shard], one: usize) -> Option<usize>
    requires { one < length shards.now }
    ensures { MatchOption result (AgreesWithAll shards.now one) (IsContradiction shards.now one) }
{
    for other in 0..shards.len() {
        if contradict(&shards[one], &shards[other]) {
            return Some(other);
        }
    }
    None
}

/// Returns the indices of two shards that contradict each other.
///
/// The first shard that does not fail stands for all others that do not: they say the same. So only failures cost a comparison with each.
fn contradiction(shards: &[Shard]) -> Option<(usize, usize)>
    ensures { MatchOption result (AllAgree shards.now) (λ p. IsContradiction shards.now p.0 p.1) }
{
    let mut like = NO_SHARD;
    for one in 0..shards.len() {
        let fails = shards[one].finding == Finding::Fails;
        if fails || like == NO_SHARD {
            if let Some(other) = opponent(shards, one) {
                return Some((one, other));
            }
            if !fails {
                like = one;
            }
        }
    }
    None
}

/// Goes from shard to shard as long as they hold. Returns the first that does not, or `None` if those that hold have all segments;
/// and as an error the first segment that no shard has.
fn walk<'a>(shards: &'a [Shard], last: u32) -> Result<Option<&'a Shard>, u32>
    ensures ok { IfOk result (λ found. MatchOption found ((k : ℕ) → k < last → IsCovered shards.now k) (λ s. IsEnd shards.now s.now)) }
    ensures err { IfErr result (IsGap shards.now last) }
{
    let mut at = 0;
    while at < last {
        let Some(shard) = covering(shards, at) else {
            return Err(at);
        };
        if shard.finding != Finding::Holds {
            return Ok(Some(shard));
        }
        at = shard.to;
    }
    Ok(None)
}

/// Returns the last segment of a gap: that before the next shard, or the last of all.
fn gap_end(shards: &[Shard], at: u32, last: u32) -> u32
    requires { at < last }
    ensures { IsGapEnd shards.now at last result }
{
    let mut end = last - 1;
    for shard in shards {
        if at < shard.from && shard.from <= end && shard.from < shard.to {
            end = shard.from - 1;
        }
    }
    end
}

/// Returns the shard whose line and status are those of the whole recording.
///
/// The shards may come in any order, some twice, and those after a false checkpoint may be missing. It allocates nothing.
pub fn combine<'a>(shards: &'a [Shard]) -> Result<&'a Shard, CombineFault>
    ensures one { IfOk result (λ s. IsOneOf shards.now s.now) }
    ensures line { IfOk result (λ s. Decides shards.now s.now) }
    ensures one_file { IfOk result (λ s. All (λ t. t.digest ≡ s.now.digest) shards.now) }
    ensures agree { IfOk result (λ s. AllAgree shards.now) }
    ensures fault { IfErr result (IsCombineFault shards.now) }
{
    one_recording_with_disk_law();
    if shards.is_empty() {
        return Err(CombineFault::Empty);
    }
    let first = &shards[0];
    if let Some(k) = stranger(shards, &first.digest) {
        return Err(CombineFault::OtherFile(k + 1));
    }
    if let Some((k, other)) = contradiction(shards) {
        return Err(CombineFault::Contradiction(k + 1, other + 1));
    }
    if let Some(shard) = first_with(shards, Finding::Refused) {
        return Ok(shard);
    }
    match walk(shards, first.last) {
        Err(at) => Err(CombineFault::Missing(at, gap_end(shards, at, first.last))),
        Ok(Some(shard)) => Ok(shard),
        Ok(None) => match first_with(shards, Finding::Holds) {
            Some(shard) => Ok(shard),
            None => Err(CombineFault::Contradiction(1, 1)),
        },
    }
}
