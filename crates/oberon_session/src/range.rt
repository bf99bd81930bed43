//! Tests of the ranges of a session's numbers, and of the order of its pages and checkpoints. Those of the inputs are in `events`.

ghost use Rattle.std.specs.Prelude.{◌≡◌, ◌<◌, ◌^◌, ◌↔◌, IsTrue};
ghost use Rattle.std.specs.List.{All};
ghost use Rattle.std.specs.List.Sorted.{IsStrictlyIncreasing};
ghost use Rattle.oberon_session.specs.inner.Drafts.{start_view};
ghost use Rattle.oberon_session.specs.inner.Tested.{DraftPagesFit, NumbersFit, NumbersRise, RisesBy, StartFits};
ghost use Rattle.oberon_session.specs.Ranges.{timer_fits};
ghost use Rattle.oberon_session.specs.SessionParts.{CountsFit};

use crate::draft::{Draft, PageDraft, StartDraft};
use oberon_format::{LAST_CHECKPOINT, MAX_COUNT};
use risc_core::COUNTER_END;
use risc_devices::is_phase_at;
use risc_pages::{PAGE_SLOTS, PAGE_WORDS};

/// The most digits of a page: two for each of its bytes, of which a word has four.
const MOST_DIGITS: usize = 8 * PAGE_WORDS as usize;

/// Reports whether the numbers of the initial state, of pages and of checkpoints are in their ranges. `events` tests those of
/// inputs.
pub fn is_in_range(draft: &Draft<'_>) -> bool
    ensures { IsTrue result ↔ NumbersFit draft.now }
{
    start_fits(&draft.start) && pages_fit(&draft.pages) && counts_fit(&draft.checkpoints)
}

/// Reports whether the slots of pages and the counts of checkpoints rise. `events` tests the order of inputs.
pub fn is_rising(draft: &Draft<'_>) -> bool
    ensures { IsTrue result ↔ NumbersRise draft.now }
{
    slots_rise(&draft.pages) && rises(&draft.checkpoints)
}

/// Reports whether registers, H, program counter, flags, the timer's rate and phase, and the disk's answer are in their ranges.
fn start_fits(start: &StartDraft) -> bool
    ensures { IsTrue result ↔ StartFits (start_view start.now) }
{
    registers_fit(&start.registers)
        && start.h < 1 << 32
        && start.pc < COUNTER_END as u64
        && start.flags < 16
        && timer_fits(start.rate, start.phase)
        && start.disk < 1 << 32
}

pub fn timer_fits(rate: u64, phase: u64) -> bool
    ensures { result ≡ timer_fits rate phase }
{
    rate < 1 << 32 && phase < 1 << 32 && is_phase_at(rate as u32, phase as u32)
}

fn registers_fit(registers: &[u64]) -> bool
    ensures { IsTrue result ↔ All (λ register. register < 2 ^ 32) registers.now }
{
    registers.iter().all(|register| *register < 1 << 32)
}

/// Reports whether there are at most 1,024 pages, each in a slot below 1,024 and with at most 2,048 digits.
fn pages_fit(pages: &[PageDraft<'_>]) -> bool
    ensures { IsTrue result ↔ DraftPagesFit pages.now }
{
    pages.len() <= PAGE_SLOTS as usize
        && pages.iter().all(|page| page.at < PAGE_SLOTS as u64 && page.hex.len() <= MOST_DIGITS)
}

/// Reports whether there are at most 4,096 checkpoints, each at a count from 1 to 2^40.
pub fn counts_fit(counts: &[u64]) -> bool
    ensures { IsTrue result ↔ CountsFit counts.now }
{
    counts.len() <= LAST_CHECKPOINT as usize
        && counts
            .iter()
            .all(|count| 1 <= *count && *count <= MAX_COUNT)
}

fn slots_rise(pages: &[PageDraft<'_>]) -> bool
    ensures { IsTrue result ↔ RisesBy (λ page. page.at) pages.now }
{
    pages.windows(2).all(|pair| pair[0].at < pair[1].at)
}

pub fn rises(numbers: &[u64]) -> bool
    ensures { IsTrue result ↔ IsStrictlyIncreasing numbers.now }
{
    numbers.windows(2).all(|pair| pair[0] < pair[1])
}
