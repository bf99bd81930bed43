//! Reading of a file without a fault.
//!
//! A file is walked twice: `rules` tests all of it first and allocates nothing, and then this module decodes it with no further
//! test. So a faulty file is never answered with out of memory. The first walk ends where the output begins, whose offset it
//! hands to the second.

ghost use Rattle.std.specs.Prelude.{◌≡◌, ◌≤◌, ◌<◌, ◌+◌, ◌*◌, ◌==◌, ℕ, true, false, length, IfOk, map};
ghost use Rattle.oberon_format.specs.CheckpointParts.{checkpoint_parts};
ghost use Rattle.oberon_format.specs.Layout.{word_at, version, pages, events, checkpoints, page_id_offset, change_offset};
ghost use Rattle.oberon_format.specs.Layout.{change_count, checkpoint_len, start, output_offset};
ghost use Rattle.oberon_format.specs.Ranges.{in_ranges, are_keys};
ghost use Rattle.oberon_format.specs.Rules.{prior_page_id};
ghost use Rattle.oberon_format.specs.inner.Tested.{IsSized, Meets, HasPageIds, IsChanged};
ghost use Rattle.oberon_format.specs.Text.{Text, TextWithDisk};
ghost use Rattle.oberon_format.specs.inner.Decoded.{EachAt, IsEvent, IsEventAt, checkpoint_from, checkpoints_at, cpu_at};
ghost use Rattle.oberon_format.specs.inner.Decoded.{devices_at, pages_at, words_from};
ghost use Rattle.oberon_format.specs.ByteFields.{fields_of, checkpoint_of, change_of, page_id_of, AnswersBytes, AnswersBytesWithDisk};
ghost use Rattle.risc_devices.specs.InputKind.{IsInputWithDisk};
ghost use Rattle.risc_model.specs.MachineState.{cpu_state};

use crate::change::Change;
use crate::checkpoint::Checkpoint;
use crate::fault::Fault;
use crate::formed::{all_formed_law, bytes_fit, words_fit};
use crate::layout::{
    CHANGE_COUNT_AT, CHANGE_LEN, CHANGES_AT, CHECKPOINT_LEN, EVENT_LEN, FIRST_VERSION, FLAGS_AT,
    H_AT, HEADER_LEN, KEYS_AT, KIND_AT, LEDS_AT, MOUSE_AT, PC_AT, PHASE_AT, RATE_AT, REGISTERS_AT,
    SENT_AT, SERIAL_AT, STOP_AT, SWITCHES_AT, TABLE_AT, TIMER_AT, VALUE_AT, WAITING_AT,
    checkpoint_count, checkpoint_len, disk_at, event_count, event_start, first_checkpoint,
    is_first_version, page_count, page_offset, word_since_2,
};
use crate::number::{u32_at, u64_at};
use crate::recording::Recording;
use crate::rules::{test_file, version_fault};
use risc_devices::{Devices, Input};
use risc_model::{Cpu, Event, Flags, Inputs};
use risc_pages::{PAGE_SLOTS, Page, Pool, Table};
use std::alloc::{AllocError, Global};

/// Returns the recording of a file without a disk, or its first fault. A file of version 3 is refused for its version.
///
/// Returns `Memory` only for a file without a fault, as `read_with_disk` does.
pub fn read(alloc: Global, bytes: &[u8]) -> Result<Recording, Fault>
    // A file without a fault yields its recording, or an allocation failed; any other yields its first fault.
    ensures { AnswersBytes bytes.now (Text bytes.now) result }
{
    if let Some(fault) = version_fault(bytes) {
        return Err(fault);
    }
    read_with_disk(alloc, bytes)
}

/// Returns the recording of a file of any version, or its first fault.
///
/// Returns `Memory` only for a file without a fault: the whole file is tested before anything is allocated, and the test
/// allocates nothing.
#[tactic(auto, using(crate::proofs::RuleLemmas::none_meets))]
pub fn read_with_disk(alloc: Global, bytes: &[u8]) -> Result<Recording, Fault>
    // A file without a fault yields its recording, or an allocation failed; any other yields its first fault.
    ensures { AnswersBytesWithDisk bytes.now (TextWithDisk bytes.now) result }
{
    let output = test_file(bytes)?;
    match recording_of(alloc, bytes, output) {
        Ok(recording) => Ok(recording),
        Err(_) => Err(Fault::Memory),
    }
}

/// Returns the recording of a file without a fault, whose output begins at `output`.
fn recording_of(alloc: Global, bytes: &[u8], output: usize) -> Result<Recording, AllocError>
    requires meets { Meets bytes.now }
    requires output { output ≡ output_offset bytes.now }
    ensures { IfOk result (λ r. TextWithDisk bytes.now r) }
{
    let pool = pool_of(alloc, bytes)?;
    let inputs = inputs_of(alloc, bytes)?;
    let checkpoints = checkpoints_of(alloc, bytes, output)?;
    // Facts that the types of the bytes and of the parts guarantee.
    bytes_fit(bytes);
    all_formed_law(&checkpoints);
    let _pages = pool.len();
    let _events = inputs.events();
    Ok(Recording::from_lawful(pool, inputs, checkpoints))
}

/// Returns the words of the part at an offset, from an offset in this part on.
fn words_from<const N: usize>(bytes: &[u8], offset: usize, from: usize) -> [u32; N]
    requires { offset + (from + 4 * N) ≤ length bytes.now }
    ensures { result ≡ words_from bytes.now offset from N }
{
    let mut words = [0; N];
    for i in 0..N {
        words[i] = u32_at(bytes, offset + (from + 4 * i));
    }
    words
}

#[tactic(auto, using(crate::proofs::Room::events_there))]
fn pool_of(alloc: Global, bytes: &[u8]) -> Result<Pool, AllocError>
    requires { IsSized bytes.now }
    ensures { IfOk result (λ pool. pool ≡ pages_at bytes.now (pages bytes.now)) }
{
    let mut pool = Pool::with_capacity(alloc, page_count(bytes))?;
    for p in 0..page_count(bytes) as usize {
        let words = words_from(bytes, page_offset(p), 0);
        words_fit(&words);
        pool.push(Page { words })?;
    }
    Ok(pool)
}

#[tactic(auto, using(risc_devices::proofs::InputLemmas::kind_fits))]
fn event_of(bytes: &[u8], offset: usize) -> Event
    requires room { offset + EVENT_LEN ≤ length bytes.now }
    requires input { IsInputWithDisk (word_at bytes.now (offset + KIND_AT)) (word_at bytes.now (offset + VALUE_AT)) }
    ensures { IsEvent bytes.now offset result }
{
    let kind = u32_at(bytes, offset + KIND_AT) as u8;
    let input = Input::new_with_disk(kind, u32_at(bytes, offset + VALUE_AT)).unwrap();
    Event {
        count: u64_at(bytes, offset),
        input,
    }
}

#[tactic(auto, using(crate::proofs::Room::events_there, crate::proofs::RuleLemmas::event_input))]
fn events_of(alloc: Global, bytes: &[u8]) -> Result<Vec<Event>, AllocError>
    requires { Meets bytes.now }
    ensures { IfOk result (λ list. (length list.items ≡ events bytes.now) × EachAt (IsEventAt bytes.now) list.items) }
{
    let pages = page_count(bytes);
    let mut list = Vec::with_capacity(alloc, event_count(bytes) as usize)?;
    for i in 0..event_count(bytes) as usize {
        list.push(event_of(bytes, event_start(pages, i)))?;
    }
    Ok(list)
}

fn inputs_of(alloc: Global, bytes: &[u8]) -> Result<Inputs, AllocError>
    requires { Meets bytes.now }
    ensures { IfOk result (λ inputs. (length inputs ≡ events bytes.now) × EachAt (IsEventAt bytes.now) inputs) }
{
    let list = events_of(alloc, bytes)?;
    match Inputs::new(list) {
        Ok(inputs) => Ok(inputs),
        Err(_) => unreachable!(),
    }
}

/// Returns the processor of the checkpoint at an offset.
fn cpu_of(bytes: &[u8], offset: usize) -> Cpu
    requires room { offset + CHANGES_AT ≤ length bytes.now }
    requires ranges { in_ranges (checkpoint_of bytes.now offset) ≡ true }
    ensures { cpu_state result ≡ cpu_at bytes.now offset }
{
    let r = words_from(bytes, offset, REGISTERS_AT);
    words_fit(&r);
    Cpu {
        r,
        h: u32_at(bytes, offset + H_AT),
        pc: u32_at(bytes, offset + PC_AT),
        flags: Flags::from_number(u32_at(bytes, offset + FLAGS_AT)),
        stop: u32_at(bytes, offset + STOP_AT) as u8,
    }
}

/// Returns the devices of the checkpoint at an offset.
fn devices_of(bytes: &[u8], offset: usize) -> Devices
    requires header { HEADER_LEN ≤ length bytes.now }
    requires room { offset + CHANGES_AT ≤ length bytes.now }
    requires whole { offset + checkpoint_len (version bytes.now) (change_count bytes.now offset) ≤ length bytes.now }
    requires ranges { in_ranges (checkpoint_of bytes.now offset) ≡ true }
    requires keys { are_keys (checkpoint_of bytes.now offset) ≡ true }
    ensures { result ≡ devices_at bytes.now offset }
{
    let waiting = u32_at(bytes, offset + WAITING_AT) as usize;
    Devices::new(
        u32_at(bytes, offset + TIMER_AT),
        word_since_2(bytes, offset + RATE_AT),
        word_since_2(bytes, offset + PHASE_AT),
        u32_at(bytes, offset + SWITCHES_AT) as u16,
        u32_at(bytes, offset + LEDS_AT) as u8,
        u32_at(bytes, offset + MOUSE_AT),
        u32_at(bytes, offset + SERIAL_AT) as u16,
        &bytes[offset + KEYS_AT..offset + KEYS_AT + waiting],
    )
    .unwrap()
    .with_disk(disk_at(bytes, offset))
}

/// Changes a table into that of checkpoint k, which is at an offset. In a later version it has to be the table before.
#[tactic(auto, using(crate::proofs::Room::whole_there, crate::proofs::Room::changes_there, crate::proofs::ReadRules::slots_inside, crate::proofs::RuleLemmas::later_by))]
fn advance_table(bytes: &[u8], k: usize, offset: usize, table: &mut Table)
    requires meets { Meets bytes.now }
    requires below { k < checkpoints bytes.now }
    requires offset { offset ≡ start bytes.now k }
    requires table { HasPageIds table.old.numbers (prior_page_id (fields_of bytes.now) k) }
    ensures { HasPageIds table.new.numbers (page_id_of bytes.now k) }
{
    if is_first_version(bytes) {
        read_table(bytes, offset, table);
    } else {
        change_table(bytes, offset, table);
    }
}

/// Changes a table into that of the checkpoint of version 1 at an offset.
fn read_table(bytes: &[u8], offset: usize, table: &mut Table)
    requires { offset + CHECKPOINT_LEN ≤ length bytes.now }
    ensures { HasPageIds table.new.numbers (λ p. word_at bytes.now (page_id_offset offset p)) }
{
    for p in 0..PAGE_SLOTS {
        table.set(p, u32_at(bytes, offset + TABLE_AT + 4 * p as usize));
    }
}

/// Applies the changes of the checkpoint of a later version at an offset.
#[tactic(auto, using(crate::proofs::ChangeLemmas::after_none))]
fn change_table(bytes: &[u8], offset: usize, table: &mut Table)
    requires header { HEADER_LEN ≤ length bytes.now }
    requires version { (version bytes.now == FIRST_VERSION) ≡ false }
    requires room { change_offset offset (change_count bytes.now offset) ≤ length bytes.now }
    requires slots { (i : ℕ) → i < change_count bytes.now offset → (change_of bytes.now offset i).slot < PAGE_SLOTS }
    ensures { IsChanged bytes.now offset (change_count bytes.now offset) table.old.numbers table.new.numbers }
{
    let count = u32_at(bytes, offset + CHANGE_COUNT_AT) as usize;
    for i in 0..count {
        let change = Change::of_bytes(bytes, offset + CHANGES_AT + CHANGE_LEN * i);
        table.set(change.slot as u16, change.page_id);
    }
}

/// Returns the checkpoint at an offset with its table. Its output begins at `from`.
fn checkpoint_of(
    alloc: Global,
    bytes: &[u8],
    offset: usize,
    from: usize,
    table: &Table,
) -> Result<Checkpoint, AllocError>
    requires header { HEADER_LEN ≤ length bytes.now }
    requires room { offset + CHANGES_AT ≤ length bytes.now }
    requires whole { offset + checkpoint_len (version bytes.now) (change_count bytes.now offset) ≤ length bytes.now }
    requires ranges { in_ranges (checkpoint_of bytes.now offset) ≡ true }
    requires keys { are_keys (checkpoint_of bytes.now offset) ≡ true }
    requires output { from + word_at bytes.now (offset + SENT_AT) ≤ length bytes.now }
    ensures { IfOk result (λ c. checkpoint_parts c ≡ checkpoint_from bytes.now offset from table.now.numbers) }
{
    let len = u32_at(bytes, offset + SENT_AT) as usize;
    let sent = Vec::from_slice(alloc, &bytes[from..from + len])?;
    Ok(Checkpoint {
        count: u64_at(bytes, offset),
        cpu: cpu_of(bytes, offset),
        devices: devices_of(bytes, offset),
        sent,
        table: table.copy(),
    })
}

/// Returns the checkpoints of a file, whose output begins at `output`.
#[tactic(auto, using(crate::proofs::Room::common_there, crate::proofs::Output::output_fits))]
fn checkpoints_of(alloc: Global, bytes: &[u8], output: usize) -> Result<Vec<Checkpoint>, AllocError>
    requires meets { Meets bytes.now }
    requires output { output ≡ output_offset bytes.now }
    ensures { IfOk result (λ list. map checkpoint_parts list.items ≡ checkpoints_at bytes.now (checkpoints bytes.now)) }
{
    let count = checkpoint_count(bytes) as usize;
    let mut list = Vec::with_capacity(alloc, count)?;
    let mut offset = first_checkpoint(bytes);
    let mut from = output;
    let mut table = Table::zeros();
    for k in 0..count {
        advance_table(bytes, k, offset, &mut table);
        list.push(checkpoint_of(alloc, bytes, offset, from, &table)?)?;
        from += u32_at(bytes, offset + SENT_AT) as usize;
        offset += checkpoint_len(bytes, word_since_2(bytes, offset + CHANGE_COUNT_AT));
    }
    Ok(list)
}
