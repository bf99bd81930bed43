//! The first fault of the file that encodes the parts of a recording.
//!
//! What the types of the parts guarantee (`AreFormed`) is not tested again: that registers are words, that inputs are in order and
//! their values in the ranges of their kinds, that devices are lawful. Nothing here allocates memory.

ghost use Rattle.std.specs.Prelude.{◌≡◌, ◌≤◌, ◌==◌, [], false, true, length};
ghost use Rattle.std.specs.Option.{IfNone};
ghost use Rattle.oberon_format.specs.FirstFault.{each, first_broken};
ghost use Rattle.oberon_format.specs.PartFields.{answer_rules, fault_in, fields_in, start_in};
ghost use Rattle.oberon_format.specs.Recording.{parts_of, IsLawfulWithDisk};
ghost use Rattle.oberon_format.specs.Ranges.{is_version_with_disk};
ghost use Rattle.oberon_format.specs.Text.{IsPlain};
ghost use Rattle.oberon_format.specs.Rules.{event_rules, header_rules};
ghost use Rattle.oberon_format.specs.inner.Tested.{encoded_change_rules, encoded_checkpoint_rules};

use crate::change::change_count;
use crate::checkpoint::{Checkpoint, table_before};
use crate::fault::Fault;
use crate::fields::{CheckpointFields, fields_fault};
use crate::formed::all_formed_law;
use crate::layout::{
    CHANGE_LEN, CHANGES_AT, FIRST_VERSION, LONGEST_WITH_DISK, VERSION_WITH_DISK, changed_len,
    event_start,
};
use crate::limits::limits_fault;
use crate::ranges::{MAX_CHECKPOINTS, has_kind};
use recording_limits::{MAX_EVENTS_WITH_DISK, MAX_PAGES};
use risc_devices::UNANSWERED;
use risc_model::Inputs;
use risc_pages::{PAGE_SLOTS, Pool, Table};

/// Returns the first fault of these parts in a version after the first.
pub(crate) fn parts_fault(
    version: u32,
    pool: &Pool,
    inputs: &Inputs,
    checkpoints: &[Checkpoint],
) -> Option<Fault>
    requires known { is_version_with_disk version ≡ true }
    requires later { (version == FIRST_VERSION) ≡ false }
    ensures fault { result ≡ fault_in version (parts_of pool.now inputs.now checkpoints.now) }
    ensures lawful { IfNone result (IsLawfulWithDisk (parts_of pool.now inputs.now checkpoints.now)) }
    ensures plain { IfNone result ((version == VERSION_WITH_DISK) ≡ false → IsPlain (parts_of pool.now inputs.now checkpoints.now)) }
{
    // Facts that the types of the parts guarantee.
    all_formed_law(checkpoints);
    let _pages = pool.len();
    let _events = inputs.events();
    if let Some(fault) = counts_fault(version, pool, inputs, checkpoints) {
        return Some(fault);
    }
    if let Some(fault) = events_fault(version, pool, inputs) {
        return Some(fault);
    }
    if let Some(fault) = checkpoints_fault(version, pool, inputs, checkpoints) {
        return Some(fault);
    }
    answers_fault(version, pool, inputs, checkpoints)
}

fn counts_fault(
    version: u32,
    pool: &Pool,
    inputs: &Inputs,
    checkpoints: &[Checkpoint],
) -> Option<Fault>
    requires { is_version_with_disk version ≡ true }
    ensures fault { result ≡ first_broken (header_rules (fields_in version (parts_of pool.now inputs.now checkpoints.now))) }
    ensures pages { IfNone result (length pool.now ≤ MAX_PAGES) }
    ensures events { IfNone result (length inputs.now ≤ MAX_EVENTS_WITH_DISK) }
    ensures few { IfNone result (length checkpoints.now ≤ MAX_CHECKPOINTS) }
{
    limits_fault(
        version,
        pool.len() as usize,
        inputs.events().len(),
        checkpoints.len(),
    )
}

/// Returns the fault of the first input whose kind the version has not: an answer of a disk.
#[tactic(auto, using(crate::proofs::RuleLemmas::each_none))]
fn events_fault(version: u32, pool: &Pool, inputs: &Inputs) -> Option<Fault>
    requires pages { length pool.now ≤ MAX_PAGES }
    requires events { length inputs.now ≤ MAX_EVENTS_WITH_DISK }
    ensures { result ≡ first_broken (each (length inputs.now) (event_rules (fields_in version (parts_of pool.now inputs.now [])))) }
{
    let events = inputs.events();
    for i in 0..events.len() {
        if !has_kind(version, events[i].input.kind() as u32) {
            return Some(Fault::Event(event_start(pool.len(), i) as u64));
        }
    }
    None
}

/// Returns the first fault of the changes from one table to another, in a checkpoint at an offset.
#[tactic(auto, using(crate::proofs::Walk::below_none, crate::proofs::Walk::below_few, crate::proofs::RuleLemmas::each_none))]
fn changes_fault(pages: u32, offset: usize, before: &Table, table: &Table) -> Option<Fault>
    requires { offset ≤ LONGEST_WITH_DISK }
    ensures { result ≡ first_broken (encoded_change_rules pages offset before.now.numbers table.now.numbers) }
{
    let mut change_offset = offset + CHANGES_AT;
    for p in 0..PAGE_SLOTS {
        if before.entry(p) != table.entry(p) {
            if table.entry(p) > pages {
                return Some(Fault::Page(change_offset as u64));
            }
            change_offset += CHANGE_LEN;
        }
    }
    None
}

#[tactic(auto, using(crate::proofs::PartRules::offset_small, crate::proofs::RuleLemmas::each_none, crate::proofs::PartLemmas::start_in_first, crate::proofs::PartLemmas::sent_none))]
fn checkpoints_fault(
    version: u32,
    pool: &Pool,
    inputs: &Inputs,
    checkpoints: &[Checkpoint],
) -> Option<Fault>
    requires later { (version == FIRST_VERSION) ≡ false }
    requires pages { length pool.now ≤ MAX_PAGES }
    requires events { length inputs.now ≤ MAX_EVENTS_WITH_DISK }
    requires few { length checkpoints.now ≤ MAX_CHECKPOINTS }
    ensures { result ≡ first_broken
        (encoded_checkpoint_rules version (length checkpoints.now) (parts_of pool.now inputs.now checkpoints.now)) }
{
    let pages = pool.len();
    let zeros = Table::zeros();
    let mut offset = event_start(pages, inputs.events().len());
    let mut before = 0;
    let mut sent = 0;
    for k in 0..checkpoints.len() {
        let checkpoint = &checkpoints[k];
        let table = table_before(checkpoints, k, &zeros);
        let fields = CheckpointFields::of_parts(version, table, checkpoint);
        if let Some(fault) = fields_fault(offset, k, before, sent, &fields) {
            return Some(fault);
        }
        if let Some(fault) = changes_fault(pages, offset, table, &checkpoint.table) {
            return Some(fault);
        }
        before = fields.count;
        sent += fields.output;
        offset += changed_len(version, fields.changes);
    }
    None
}

/// Returns the fault of the first checkpoint with an answer of a disk, if the version has no field for it.
#[tactic(auto, using(crate::proofs::RuleLemmas::each_none))]
fn answers_fault(
    version: u32,
    pool: &Pool,
    inputs: &Inputs,
    checkpoints: &[Checkpoint],
) -> Option<Fault>
    requires later { (version == FIRST_VERSION) ≡ false }
    requires pages { length pool.now ≤ MAX_PAGES }
    requires events { length inputs.now ≤ MAX_EVENTS_WITH_DISK }
    requires few { length checkpoints.now ≤ MAX_CHECKPOINTS }
    ensures { result ≡ first_broken
        (each (length checkpoints.now) (answer_rules version (parts_of pool.now inputs.now checkpoints.now))) }
{
    if version == VERSION_WITH_DISK {
        return None;
    }
    for k in 0..checkpoints.len() {
        if checkpoints[k].devices.disk() != UNANSWERED {
            let offset = checkpoint_start(version, pool, inputs, checkpoints, k);
            return Some(Fault::Checkpoint(offset as u64));
        }
    }
    None
}

/// Returns the offset of checkpoint k in the file of these parts.
#[tactic(auto, using(crate::proofs::PartRules::offset_small, crate::proofs::PartLemmas::start_in_first))]
fn checkpoint_start(
    version: u32,
    pool: &Pool,
    inputs: &Inputs,
    checkpoints: &[Checkpoint],
    k: usize,
) -> usize
    requires later { (version == FIRST_VERSION) ≡ false }
    requires pages { length pool.now ≤ MAX_PAGES }
    requires events { length inputs.now ≤ MAX_EVENTS_WITH_DISK }
    requires few { length checkpoints.now ≤ MAX_CHECKPOINTS }
    requires below { k ≤ length checkpoints.now }
    ensures { result ≡ start_in version (parts_of pool.now inputs.now checkpoints.now) k }
{
    let zeros = Table::zeros();
    let mut offset = event_start(pool.len(), inputs.events().len());
    for i in 0..k {
        let table = table_before(checkpoints, i, &zeros);
        offset += changed_len(version, change_count(table, &checkpoints[i].table));
    }
    offset
}
