//! Tests of the parts of a session, by the rules of sessions. They allocate nothing.

ghost use Rattle.std.specs.Prelude.{◌≡◌, ◌<◌, ◌↔◌, IfNone, IfSome, IsTrue};
ghost use Rattle.std.specs.List.Sorted.{IsStrictlyIncreasing};
ghost use Rattle.risc_core.specs.declared.branch.TheConstants.{COUNTER_END};
ghost use Rattle.risc_devices.specs.declared.disk.TheConstants.{UNANSWERED};
ghost use Rattle.oberon_session.specs.Parts.{BreaksParts, session_of_parts};
ghost use Rattle.oberon_session.specs.SessionParts.{IsLawful};
ghost use Rattle.oberon_session.specs.inner.Tested.{PartsFit, PlacedFit, RisesBy};

use crate::SessionFault;
use crate::digits::PlacedPage;
use crate::events::are_unanswered;
use crate::range::{counts_fit, rises, timer_fits};
use oberon_format::MAX_EVENTS;
use risc_core::COUNTER_END;
use risc_model::{Cpu, Inputs};
use risc_pages::PAGE_SLOTS;

pub fn parts_fault(
    cpu: &Cpu,
    rate: u32,
    phase: u32,
    pages: &[PlacedPage],
    inputs: &Inputs,
    counts: &[u64],
) -> Option<SessionFault>
    ensures some { IfSome result (BreaksParts (session_of_parts cpu.now rate phase UNANSWERED pages.now inputs.now counts.now)) }
    ensures none { IfNone result (IsLawful (session_of_parts cpu.now rate phase UNANSWERED pages.now inputs.now counts.now)) }
{
    if !are_in_range(cpu, rate, phase, pages, inputs, counts) {
        return Some(SessionFault::Range);
    }
    if !are_in_order(pages, counts) {
        return Some(SessionFault::Order);
    }
    // The contract of `events` states that inputs are in order.
    let _events = inputs.events();
    None
}

/// Reports whether numbers are in their ranges, no list is too long, no input is of a disk, and the processor runs.
fn are_in_range(
    cpu: &Cpu,
    rate: u32,
    phase: u32,
    pages: &[PlacedPage],
    inputs: &Inputs,
    counts: &[u64],
) -> bool
    ensures { IsTrue result ↔ PartsFit cpu.now rate phase pages.now inputs.now counts.now }
{
    runs(cpu)
        && timer_fits(rate as u64, phase as u64)
        && pages_fit(pages)
        && inputs.events().len() <= MAX_EVENTS as usize
        && are_unanswered(inputs.events())
        && counts_fit(counts)
}

/// Reports whether the slots of pages and the counts of checkpoints rise.
fn are_in_order(pages: &[PlacedPage], counts: &[u64]) -> bool
    ensures { IsTrue result ↔ (RisesBy (λ page. page.at) pages.now × IsStrictlyIncreasing counts.now) }
{
    slots_rise(pages) && rises(counts)
}

/// Reports whether a session may begin with this processor. Its other numbers are in their ranges by their types.
fn runs(cpu: &Cpu) -> bool
    ensures { IsTrue result ↔ ((cpu.now.pc < COUNTER_END) × (cpu.now.stop ≡ 0)) }
{
    cpu.pc < COUNTER_END && cpu.stop == 0
}

/// Reports whether there are at most 1,024 pages, each in a slot below 1,024.
fn pages_fit(pages: &[PlacedPage]) -> bool
    ensures { IsTrue result ↔ PlacedFit pages.now }
{
    pages.len() <= PAGE_SLOTS as usize && pages.iter().all(|page| page.at < PAGE_SLOTS)
}

fn slots_rise(pages: &[PlacedPage]) -> bool
    ensures { IsTrue result ↔ RisesBy (λ page. page.at) pages.now }
{
    pages.windows(2).all(|pair| pair[0].at < pair[1].at)
}
