//! Writing of a recording, front to back.

ghost use Rattle.std.specs.Prelude.{◌≡◌, ◌++◌, ◌+◌, ◌≤◌, ◌==◌, ◌↔◌, false, true, length, All, IfOk, IsTrue, OnOk};
ghost use Rattle.std.specs.List.{flat_map};
ghost use Rattle.oberon_format.specs.Changes.{changes};
ghost use Rattle.oberon_format.specs.CheckpointParts.{checkpoint_parts};
ghost use Rattle.oberon_format.specs.PartFields.{start_in};
ghost use Rattle.oberon_format.specs.Ranges.{is_version_with_disk};
ghost use Rattle.oberon_format.specs.Recording.{output_of};
ghost use Rattle.oberon_format.specs.Encoding.{word_bytes, long_bytes, words_bytes, event_bytes, field_words, common_bytes};
ghost use Rattle.oberon_format.specs.Encoding.{change_bytes, checkpoint_bytes, checkpoints_bytes, disk_words, header_bytes};
ghost use Rattle.oberon_format.specs.Text.{IsEncoding, IsPlain};
ghost use Rattle.risc_model.specs.DiskInputs.{IsOfDisk};

use crate::change::change_count;
use crate::checkpoint::{Checkpoint, table_before};
use crate::fields::key_bytes;
use crate::layout::{FIRST_VERSION, MAGIC, VERSION, VERSION_WITH_DISK, changed_len, event_start};
use crate::recording::Recording;
use byteorder::{ByteOrder, LittleEndian};
use recording_limits::{MAX_EVENTS, MAX_OUTPUT};
use risc_devices::kinds::DISK;
use risc_devices::{Devices, UNANSWERED};
use risc_model::Event;
use risc_pages::{PAGE_SLOTS, Pool, Table};
use std::alloc::{AllocError, Global};

/// Returns the file of a recording: in version 2 if that has a field for all that the recording has, and else in version 3.
///
/// Version 2 has no answers of a disk, and at most 1,000,000 inputs.
pub fn write(alloc: Global, r: &Recording) -> Result<Vec<u8>, AllocError>
    ensures plain { IsPlain r.now → IfOk result (λ bytes. IsEncoding VERSION bytes.items r.now) }
    ensures others { ¬ (IsPlain r.now) → IfOk result (λ bytes. IsEncoding VERSION_WITH_DISK bytes.items r.now) }
{
    if is_plain(r) {
        written_in(alloc, VERSION, r)
    } else {
        written_in(alloc, VERSION_WITH_DISK, r)
    }
}

/// Reports whether version 2 has a field for all that a recording has.
fn is_plain(r: &Recording) -> bool
    ensures { IsTrue result ↔ IsPlain r.now }
{
    let events = r.inputs().events();
    events.len() <= MAX_EVENTS as usize && are_no_answers(events) && are_unanswered(r.checkpoints())
}

fn are_no_answers(inputs: &[Event]) -> bool
    ensures { IsTrue result ↔ All (λ e. ¬ (IsOfDisk e)) inputs.now }
{
    inputs.iter().all(|event| event.input.kind() != DISK)
}

fn are_unanswered(checkpoints: &[Checkpoint]) -> bool
    ensures { IsTrue result ↔ All (λ c. c.devices.disk ≡ UNANSWERED) checkpoints.now }
{
    checkpoints
        .iter()
        .all(|checkpoint| checkpoint.devices.disk() == UNANSWERED)
}

/// Returns the one file of a recording in version 3.
pub fn write_with_disk(alloc: Global, r: &Recording) -> Result<Vec<u8>, AllocError>
    ensures { IfOk result (λ bytes. IsEncoding VERSION_WITH_DISK bytes.items r.now) }
{
    written_in(alloc, VERSION_WITH_DISK, r)
}

/// Returns the file of a recording in a version after the first that has a field for all that the recording has. Its capacity is
/// allocated at once.
fn written_in(alloc: Global, version: u32, r: &Recording) -> Result<Vec<u8>, AllocError>
    requires known { is_version_with_disk version ≡ true }
    requires later { (version == FIRST_VERSION) ≡ false }
    requires plain { (version == VERSION_WITH_DISK) ≡ false → IsPlain r.now }
    ensures { IfOk result (λ bytes. IsEncoding version bytes.items r.now) }
{
    let mut out = Vec::with_capacity(alloc, encoded_len(version, r))?;
    push_header(&mut out, version, r)?;
    push_pool(&mut out, r.pool())?;
    push_events(&mut out, r.inputs().events())?;
    push_checkpoints(&mut out, version, r)?;
    push_output(&mut out, r)?;
    Ok(out)
}

#[tactic(auto, using(crate::proofs::ChangeLemmas::changes_few, crate::proofs::PartLemmas::start_in_first, crate::proofs::PartRules::offset_small))]
fn encoded_len(version: u32, r: &Recording) -> usize
    requires { (version == FIRST_VERSION) ≡ false }
    ensures { result ≡ start_in version r.now (length r.now.checkpoints) + length (output_of r.now.checkpoints) }
{
    let zeros = Table::zeros();
    let mut len = event_start(r.pool().len(), r.inputs().events().len());
    for k in 0..r.count() {
        let before = table_before(r.checkpoints(), k as usize, &zeros);
        len += changed_len(version, change_count(before, &r.checkpoint(k).table));
    }
    len + r.output_len()
}

/// Appends the four bytes of a number, the lowest first.
#[tactic(auto, unfolding(crate::specs::Encoding::word_bytes))]
fn push_word(out: &mut Vec<u8>, number: u32) -> Result<(), AllocError>
    ensures { OnOk result (out.new.items ≡ out.old.items ++ word_bytes number) }
{
    let mut bytes = [0; 4];
    LittleEndian::write_u32(&mut bytes, number);
    out.extend_from_slice(&bytes)
}

/// Appends the eight bytes of a number, the lowest first.
#[tactic(auto, unfolding(crate::specs::Encoding::long_bytes))]
fn push_long(out: &mut Vec<u8>, number: u64) -> Result<(), AllocError>
    ensures { OnOk result (out.new.items ≡ out.old.items ++ long_bytes number) }
{
    let mut bytes = [0; 8];
    LittleEndian::write_u64(&mut bytes, number);
    out.extend_from_slice(&bytes)
}

fn push_words(out: &mut Vec<u8>, numbers: &[u32]) -> Result<(), AllocError>
    ensures { OnOk result (out.new.items ≡ out.old.items ++ words_bytes numbers.now) }
{
    for number in numbers {
        push_word(out, *number)?;
    }
    Ok(())
}

#[tactic(auto, unfolding(crate::specs::Encoding::header_bytes))]
fn push_header(out: &mut Vec<u8>, version: u32, r: &Recording) -> Result<(), AllocError>
    ensures { OnOk result (out.new.items ≡ out.old.items ++ header_bytes version r.now) }
{
    let pages = r.pool().len();
    let events = r.inputs().events().len() as u32;
    push_words(out, &[MAGIC, version, pages, events, r.count(), 0])
}

fn push_pool(out: &mut Vec<u8>, pool: &Pool) -> Result<(), AllocError>
    ensures { OnOk result (out.new.items ≡ out.old.items ++ flat_map words_bytes pool.now) }
{
    for p in 0..pool.len() {
        push_words(out, &pool.page(p + 1).words)?;
    }
    Ok(())
}

#[tactic(auto, unfolding(crate::specs::Encoding::event_bytes))]
fn push_event(out: &mut Vec<u8>, event: &Event) -> Result<(), AllocError>
    ensures { OnOk result (out.new.items ≡ out.old.items ++ event_bytes event.now) }
{
    push_long(out, event.count)?;
    push_words(out, &[event.input.kind() as u32, event.input.value()])
}

fn push_events(out: &mut Vec<u8>, events: &[Event]) -> Result<(), AllocError>
    ensures { OnOk result (out.new.items ≡ out.old.items ++ flat_map event_bytes events.now) }
{
    for event in events {
        push_event(out, event)?;
    }
    Ok(())
}

/// Returns the fields of a checkpoint that are one word each, from H to the number of keys.
fn field_words(checkpoint: &Checkpoint) -> [u32; 10]
    ensures { result ≡ field_words (checkpoint_parts checkpoint.now) }
{
    let cpu = &checkpoint.cpu;
    let devices = &checkpoint.devices;
    [
        cpu.h,
        cpu.pc,
        cpu.flags.number(),
        cpu.stop as u32,
        devices.timer(),
        devices.switches() as u32,
        devices.leds() as u32,
        devices.mouse(),
        devices.serial() as u32,
        devices.keys().len() as u32,
    ]
}

/// Appends what a checkpoint has in each version.
#[tactic(auto, unfolding(crate::specs::Encoding::common_bytes))]
fn push_common(out: &mut Vec<u8>, checkpoint: &Checkpoint) -> Result<(), AllocError>
    requires { length checkpoint.now.sent.items ≤ MAX_OUTPUT }
    ensures { OnOk result (out.new.items ≡ out.old.items ++ common_bytes (checkpoint_parts checkpoint.now)) }
{
    push_long(out, checkpoint.count)?;
    push_words(out, &checkpoint.cpu.r)?;
    push_words(out, &field_words(checkpoint))?;
    out.extend_from_slice(&key_bytes(&checkpoint.devices))?;
    push_words(out, &[checkpoint.sent.len() as u32])
}

fn push_changes(out: &mut Vec<u8>, before: &Table, table: &Table) -> Result<(), AllocError>
    ensures { OnOk result (out.new.items ≡ out.old.items ++ flat_map change_bytes (changes before.now.numbers table.now.numbers)) }
{
    for p in 0..PAGE_SLOTS {
        if before.entry(p) != table.entry(p) {
            push_change(out, p as u32, table.entry(p))?;
        }
    }
    Ok(())
}

#[tactic(auto, unfolding(crate::specs::Encoding::change_bytes))]
fn push_change(out: &mut Vec<u8>, slot: u32, page_id: u32) -> Result<(), AllocError>
    ensures { OnOk result (out.new.items ≡ out.old.items ++ change_bytes (record { slot = slot; page_id = page_id })) }
{
    push_words(out, &[slot, page_id])
}

/// Appends a checkpoint after a table, without its output.
fn push_checkpoint(
    out: &mut Vec<u8>,
    version: u32,
    before: &Table,
    checkpoint: &Checkpoint,
) -> Result<(), AllocError>
    requires version { (version == FIRST_VERSION) ≡ false }
    requires sent { length checkpoint.now.sent.items ≤ MAX_OUTPUT }
    ensures { OnOk result (out.new.items
        ≡ out.old.items ++ checkpoint_bytes version before.now.numbers (checkpoint_parts checkpoint.now)) }
{
    let devices = &checkpoint.devices;
    let count = change_count(before, &checkpoint.table);
    push_common(out, checkpoint)?;
    push_words(out, &[devices.rate(), devices.phase(), count])?;
    push_changes(out, before, &checkpoint.table)?;
    push_disk(out, version, devices)
}

/// Appends the disk's answer, if the version has one.
fn push_disk(out: &mut Vec<u8>, version: u32, devices: &Devices) -> Result<(), AllocError>
    ensures { OnOk result (out.new.items ≡ out.old.items ++ words_bytes (disk_words version devices.now)) }
{
    if version == VERSION_WITH_DISK {
        push_words(out, &[devices.disk()])
    } else {
        Ok(())
    }
}

#[tactic(auto, unfolding(crate::specs::Encoding::checkpoints_bytes))]
fn push_checkpoints(out: &mut Vec<u8>, version: u32, r: &Recording) -> Result<(), AllocError>
    requires { (version == FIRST_VERSION) ≡ false }
    ensures { OnOk result (out.new.items
        ≡ out.old.items ++ checkpoints_bytes version r.now.checkpoints (length r.now.checkpoints)) }
{
    let zeros = Table::zeros();
    for k in 0..r.count() {
        push_checkpoint(
            out,
            version,
            table_before(r.checkpoints(), k as usize, &zeros),
            r.checkpoint(k),
        )?;
    }
    Ok(())
}

fn push_output(out: &mut Vec<u8>, r: &Recording) -> Result<(), AllocError>
    ensures { OnOk result (out.new.items ≡ out.old.items ++ output_of r.now.checkpoints) }
{
    for k in 0..r.count() {
        out.extend_from_slice(&r.checkpoint(k).sent)?;
    }
    Ok(())
}
