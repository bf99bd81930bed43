//! The rules of a file, tested in their order. Nothing here allocates memory: the tables of versions 2 and 3 are one table, changed in
//! place.

ghost use Rattle.std.specs.Prelude.{◌≡◌, ◌≤◌, ◌<◌, ◌+◌, ◌==◌, false, length, slice_index, Some, None};
ghost use Rattle.std.specs.Option.{IfNone};
ghost use Rattle.oberon_format.specs.FirstFault.{first_broken, each};
ghost use Rattle.oberon_format.specs.Layout.{word_at, page_id_offset, version, pages, events, checkpoints, event_offset};
ghost use Rattle.oberon_format.specs.Layout.{change_offset, start, output_offset};
ghost use Rattle.oberon_format.specs.Fields.{sent_below};
ghost use Rattle.oberon_format.specs.Ranges.{is_event};
ghost use Rattle.oberon_format.specs.Rules.{named_len, header_rules, event_floor, event_rules, page_id_rules, change_rules};
ghost use Rattle.oberon_format.specs.Rules.{count_before, end_rules, version_rules};
ghost use Rattle.oberon_format.specs.inner.Tested.{IsSized, HasPageIds, IsChanged};
ghost use Rattle.oberon_format.specs.inner.Tested.{AreTested, IsChangedTested, IsTested, IsWholeTested};
ghost use Rattle.oberon_format.specs.ByteFields.{fields_of, event_of, change_of, page_id_before};

use crate::change::Change;
use crate::fault::Fault;
use crate::fields::{CheckpointFields, fields_fault};
use crate::layout::{
    CHANGE_LEN, CHANGES_AT, CHECKPOINT_LEN, EVENT_LEN, FIRST_VERSION, HEADER_LEN, KIND_AT, LAST_AT,
    MAGIC, MAGIC_AT, TABLE_AT, VALUE_AT, VERSION, VERSION_AT, VERSION_WITH_DISK, checkpoint_count,
    checkpoint_len, event_count, event_start, first_checkpoint, has_disk, is_first_version,
    page_count,
};
use crate::limits::limits_fault;
use crate::number::{u32_at, u64_at};
use crate::ranges::{MAX_CHECKPOINTS, has_kind, is_input_with_disk};
use recording_limits::{MAX_EVENTS_WITH_DISK, MAX_OUTPUT, MAX_PAGES};
use risc_model::MAX_COUNT;
use risc_pages::{PAGE_SLOTS, Table};

/// Returns the length that the header asks for: in version 1 up to the output, in version 2 up to checkpoint 0.
#[tactic(auto, using(crate::proofs::Room::start_none, crate::proofs::Room::named_first))]
fn named_len(bytes: &[u8]) -> usize
    requires header { HEADER_LEN ≤ length bytes.now }
    requires pages { pages bytes.now ≤ MAX_PAGES }
    requires events { events bytes.now ≤ MAX_EVENTS_WITH_DISK }
    requires checkpoints { checkpoints bytes.now ≤ MAX_CHECKPOINTS }
    ensures { result ≡ named_len (fields_of bytes.now) }
{
    let first = first_checkpoint(bytes);
    if is_first_version(bytes) {
        first + CHECKPOINT_LEN * checkpoint_count(bytes) as usize
    } else {
        first
    }
}

/// Returns the first fault of a file without a disk that comes before all others: with a disk, it is that of the version.
pub(crate) fn version_fault(bytes: &[u8]) -> Option<Fault>
    ensures { result ≡ first_broken (version_rules (fields_of bytes.now)) }
{
    let len = bytes.len();
    if len < HEADER_LEN {
        return Some(Fault::Short(len as u64));
    }
    let magic = u32_at(bytes, MAGIC_AT);
    if magic != MAGIC {
        return Some(Fault::Magic(MAGIC_AT as u64));
    }
    if has_disk(bytes) {
        return Some(Fault::Version(VERSION_AT as u64));
    }
    None
}

/// Returns the first fault of the header, and of the length that it asks for.
fn header_fault(bytes: &[u8]) -> Option<Fault>
    ensures fault { result ≡ first_broken (header_rules (fields_of bytes.now)) }
    ensures sized { IfNone result (IsSized bytes.now) }
{
    let len = bytes.len() as u64;
    if bytes.len() < HEADER_LEN {
        return Some(Fault::Short(len));
    }
    if u32_at(bytes, MAGIC_AT) != MAGIC {
        return Some(Fault::Magic(MAGIC_AT as u64));
    }
    let version = u32_at(bytes, VERSION_AT);
    if version != FIRST_VERSION && version != VERSION && version != VERSION_WITH_DISK {
        return Some(Fault::Version(VERSION_AT as u64));
    }
    let pages = page_count(bytes) as usize;
    let events = event_count(bytes) as usize;
    let checkpoints = checkpoint_count(bytes) as usize;
    if let Some(fault) = limits_fault(version, pages, events, checkpoints) {
        return Some(fault);
    }
    if u32_at(bytes, LAST_AT) != 0 {
        return Some(Fault::Limit(LAST_AT as u64));
    }
    if bytes.len() < named_len(bytes) {
        return Some(Fault::Short(len));
    }
    None
}

/// Returns the count of the event before event i, or 0 for event 0.
fn event_floor(bytes: &[u8], i: usize) -> u64
    requires pages { pages bytes.now ≤ MAX_PAGES }
    requires events { i ≤ MAX_EVENTS_WITH_DISK }
    requires room { event_offset bytes.now i ≤ length bytes.now }
    ensures { result ≡ event_floor (fields_of bytes.now) i }
{
    if i == 0 {
        0
    } else {
        u64_at(bytes, event_start(page_count(bytes), i - 1))
    }
}

/// Reports whether the event at an offset is in its ranges, and its count is at least `floor`.
fn is_event(bytes: &[u8], offset: usize, floor: u64) -> bool
    requires header { HEADER_LEN ≤ offset }
    requires room { offset + EVENT_LEN ≤ length bytes.now }
    ensures { result ≡ is_event (version bytes.now) floor (event_of bytes.now offset) }
{
    let count = u64_at(bytes, offset);
    let kind = u32_at(bytes, offset + KIND_AT);
    floor <= count
        && count <= MAX_COUNT
        && is_input_with_disk(kind, u32_at(bytes, offset + VALUE_AT))
        && has_kind(u32_at(bytes, VERSION_AT), kind)
}

#[tactic(auto, using(crate::proofs::Room::events_there, crate::proofs::RuleLemmas::each_none, crate::proofs::RuleLemmas::each_more))]
fn events_fault(bytes: &[u8]) -> Option<Fault>
    requires { IsSized bytes.now }
    ensures { result ≡ first_broken (each (events bytes.now) (event_rules (fields_of bytes.now))) }
{
    let pages = page_count(bytes);
    for i in 0..event_count(bytes) as usize {
        let offset = event_start(pages, i);
        let floor = event_floor(bytes, i);
        if !is_event(bytes, offset, floor) {
            return Some(Fault::Event(offset as u64));
        }
    }
    None
}

/// Returns the first fault of the page ids of a checkpoint of version 1.
#[tactic(auto, using(crate::proofs::RuleLemmas::each_none, crate::proofs::RuleLemmas::each_more))]
fn page_ids_fault(bytes: &[u8], offset: usize, pages: u32) -> Option<Fault>
    requires { offset + CHECKPOINT_LEN ≤ length bytes.now }
    ensures { result ≡ first_broken
        (each PAGE_SLOTS (page_id_rules pages offset (λ j. word_at bytes.now (page_id_offset offset j)))) }
{
    for j in 0..PAGE_SLOTS as usize {
        let page_id_offset = offset + TABLE_AT + 4 * j;
        if u32_at(bytes, page_id_offset) > pages {
            return Some(Fault::Page(page_id_offset as u64));
        }
    }
    None
}

/// Returns the first fault of the changes of a checkpoint of a later version. Without one, the table before it becomes its own.
#[tactic(auto, using(crate::proofs::ChangeLemmas::after_none, crate::proofs::RuleLemmas::each_none))]
fn changes_fault(
    bytes: &[u8],
    offset: usize,
    count: u32,
    pages: u32,
    table: &mut Table,
) -> Option<Fault>
    requires room { change_offset offset count ≤ length bytes.now }
    requires count { count ≤ PAGE_SLOTS }
    ensures fault { result ≡ first_broken
        (each count (change_rules pages offset (slice_index table.old.numbers) (change_of bytes.now offset))) }
    ensures table { IfNone result (IsChanged bytes.now offset count table.old.numbers table.new.numbers) }
{
    let mut floor = 0;
    for i in 0..count {
        let change_offset = offset + CHANGES_AT + CHANGE_LEN * i as usize;
        let change = Change::of_bytes(bytes, change_offset);
        if !change.is_lawful(pages, floor, table) {
            return Some(Fault::Page(change_offset as u64));
        }
        table.set(change.slot as u16, change.page_id);
        floor = change.slot + 1;
    }
    None
}

/// Returns the fields of checkpoint k of a file of version 1, or its first fault.
fn whole_checkpoint(
    bytes: &[u8],
    k: usize,
    offset: usize,
    before: u64,
    sent: u64,
) -> Result<CheckpointFields, Fault>
    requires version { version bytes.now ≡ FIRST_VERSION }
    requires offset { offset ≡ start bytes.now k }
    requires room { offset + CHECKPOINT_LEN ≤ length bytes.now }
    requires before { before ≡ count_before (fields_of bytes.now) k }
    requires sent { sent ≡ sent_below (fields_of bytes.now) k }
    requires small { sent ≤ MAX_OUTPUT }
    ensures { IsWholeTested bytes.now k offset sent result }
{
    let fields = CheckpointFields::of_bytes(bytes, offset);
    if let Some(fault) = fields_fault(offset, k, before, sent, &fields) {
        return Err(fault);
    }
    match page_ids_fault(bytes, offset, page_count(bytes)) {
        Some(fault) => Err(fault),
        None => Ok(fields),
    }
}

/// Returns the fields of checkpoint k of a file of a later version, or its first fault. The table before it becomes its own.
fn changed_checkpoint(
    bytes: &[u8],
    k: usize,
    offset: usize,
    before: u64,
    sent: u64,
    table: &mut Table,
) -> Result<CheckpointFields, Fault>
    requires version { (version bytes.now == FIRST_VERSION) ≡ false }
    requires offset { offset ≡ start bytes.now k }
    requires room { offset ≤ length bytes.now }
    requires header { HEADER_LEN ≤ length bytes.now }
    requires before { before ≡ count_before (fields_of bytes.now) k }
    requires sent { sent ≡ sent_below (fields_of bytes.now) k }
    requires small { sent ≤ MAX_OUTPUT }
    requires table { HasPageIds table.old.numbers (page_id_before bytes.now k) }
    ensures { IsChangedTested bytes.now k offset sent table.new.numbers result }
{
    let room = bytes.len() - offset;
    if room < CHANGES_AT {
        return Err(Fault::Short(bytes.len() as u64));
    }
    let fields = CheckpointFields::of_bytes(bytes, offset);
    if let Some(fault) = fields_fault(offset, k, before, sent, &fields) {
        return Err(fault);
    }
    if room < checkpoint_len(bytes, fields.changes) {
        return Err(Fault::Short(bytes.len() as u64));
    }
    match changes_fault(bytes, offset, fields.changes, page_count(bytes), table) {
        Some(fault) => Err(fault),
        None => Ok(fields),
    }
}

/// The end of a file's checkpoints: its offset, and the length that the output after it must have.
#[derive(Drop)]
struct End {
    output: usize,
    sent: u64,
}

/// Returns the end of the checkpoints, or their first fault.
#[tactic(auto, using(crate::proofs::Room::whole_room, crate::proofs::Room::events_there, crate::proofs::Room::start_none, crate::proofs::RuleLemmas::each_none, crate::proofs::RuleLemmas::output_below_none, crate::proofs::ReadRules::numbers_none))]
fn checkpoints_end(bytes: &[u8]) -> Result<End, Fault>
    requires { IsSized bytes.now }
    ensures { AreTested bytes.now result }
{
    let is_first = is_first_version(bytes);
    let mut offset = first_checkpoint(bytes);
    let mut before: u64 = 0;
    let mut sent: u64 = 0;
    let mut table = Table::zeros();
    for k in 0..checkpoint_count(bytes) as usize {
        let tested = if is_first {
            whole_checkpoint(bytes, k, offset, before, sent)
        } else {
            changed_checkpoint(bytes, k, offset, before, sent, &mut table)
        };
        match tested {
            Err(fault) => return Err(fault),
            Ok(fields) => {
                before = fields.count;
                sent += fields.output;
                offset += checkpoint_len(bytes, fields.changes);
            }
        }
    }
    Ok(End {
        output: offset,
        sent,
    })
}

/// Returns the first fault of the file's length, from the end of its checkpoints.
fn end_fault(bytes: &[u8], end: &End) -> Option<Fault>
    requires output { end.now.output ≡ output_offset bytes.now }
    requires room { end.now.output ≤ length bytes.now }
    requires sent { end.now.sent ≡ sent_below (fields_of bytes.now) (checkpoints bytes.now) }
    ensures { result ≡ first_broken (end_rules (fields_of bytes.now)) }
{
    let len = bytes.len() as u64;
    let rest = (bytes.len() - end.output) as u64;
    if rest < end.sent {
        Some(Fault::Short(len))
    } else if rest > end.sent {
        Some(Fault::Trailing(end.output as u64 + end.sent))
    } else {
        None
    }
}

/// Returns the offset of the output of a file without a fault, or the first fault of a file.
#[tactic(auto, using(crate::proofs::RuleLemmas::fault_first))]
pub(crate) fn test_file(bytes: &[u8]) -> Result<usize, Fault>
    ensures { IsTested bytes.now result }
{
    if let Some(fault) = header_fault(bytes) {
        return Err(fault);
    }
    if let Some(fault) = events_fault(bytes) {
        return Err(fault);
    }
    let end = checkpoints_end(bytes)?;
    match end_fault(bytes, &end) {
        Some(fault) => Err(fault),
        None => Ok(end.output),
    }
}
