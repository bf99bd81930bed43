//! The claim of a checkpoint.

ghost use Rattle.std.specs.Prelude.{◌≡◌, ◌++◌, ◌+◌, ◌<◌, ◌≤◌, IfOk, OnOk, slice_index_or, vec_len};
ghost use Rattle.recording_texts.specs.Bytes.{padded};
ghost use Rattle.recording_texts.specs.Claims.{change_at, changes_below, device_bytes, disk_bytes, fields_bytes, first_bytes};
ghost use Rattle.recording_texts.specs.Claims.{key_bytes, later_bytes, page_ids, processor_bytes};

use crate::bytes::{number_of, push_long, push_word, push_words, set_numbers};
use std::alloc::{AllocError, Global};

/// The claim of a checkpoint. A file of version 1 has no fields for the timer's rate and phase, and one of version 1 or 2 none for
/// the disk's answer: they leave them out.
#[derive(Clone, Copy)]
pub struct Claim<'a> {
    pub count: u64,
    /// The registers that are not 0, by their numbers.
    pub registers: &'a [(u16, u32)],
    pub h: u32,
    pub pc: u32,
    pub flags: u32,
    pub stop: u32,
    pub timer: u32,
    pub rate: u32,
    pub phase: u32,
    pub switches: u32,
    pub leds: u32,
    pub mouse: u32,
    pub serial: u32,
    /// The disk's answer: 255 before the first.
    pub disk: u32,
    /// The waiting keys, oldest first.
    pub keys: &'a [u8],
    /// The page ids that are not 0, by their slots.
    pub table: &'a [(u16, u32)],
    /// The output since the checkpoint before.
    pub sent: &'a [u8],
}

/// All zeros at count 0: no page, no key, no answer, no output.
pub const ZEROS: Claim<'static> = Claim {
    count: 0,
    registers: &[],
    h: 0,
    pc: 0,
    flags: 0,
    stop: 0,
    timer: 0,
    rate: 0,
    phase: 0,
    switches: 0,
    leds: 0,
    mouse: 0,
    serial: 0,
    disk: 255,
    keys: &[],
    table: &[],
    sent: &[],
};

/// All zeros at count 0, except the pool's first page in slot 0 of the memory, where programs begin.
pub const FIRST_PAGE: Claim<'static> = Claim {
    table: &[(0, 1)],
    ..ZEROS
};

impl Claim<'_> {
    /// Returns the checkpoint in version 1, with its whole table.
    #[tactic(auto, unfolding(crate::specs::Claims::first_bytes))]
    pub(crate) fn first(&self, alloc: Global) -> Result<Vec<u8>, AllocError>
        ensures { IfOk result (λ bytes. bytes.items ≡ first_bytes self.now) }
    {
        let mut bytes = self.fields(alloc)?;
        push_words(&mut bytes, &self.page_ids())?;
        Ok(bytes)
    }

    /// Returns the checkpoint in version 2 or 3, with the changes from the table before it.
    #[tactic(auto, unfolding(crate::specs::Claims::later_bytes))]
    pub(crate) fn later(
        &self,
        alloc: Global,
        version: u32,
        before: &[u32; 1024],
    ) -> Result<Vec<u8>, AllocError>
        ensures { IfOk result (λ bytes. bytes.items ≡ later_bytes version before.now self.now) }
    {
        let mut changes = changes(alloc, before, &self.page_ids())?;
        let mut bytes = self.fields(alloc)?;
        push_words(
            &mut bytes,
            &[self.rate, self.phase, (changes.len() / 8) as u32],
        )?;
        bytes.append(&mut changes)?;
        push_disk(&mut bytes, version, self.disk)?;
        Ok(bytes)
    }

    /// Returns the 132 bytes that begin a checkpoint in each version.
    #[tactic(auto, unfolding(crate::specs::Claims::fields_bytes))]
    fn fields(&self, alloc: Global) -> Result<Vec<u8>, AllocError>
        ensures { IfOk result (λ bytes. bytes.items ≡ fields_bytes self.now) }
    {
        let mut bytes = Vec::new(alloc);
        push_long(&mut bytes, self.count)?;
        self.push_processor(&mut bytes)?;
        self.push_devices(&mut bytes)?;
        push_word(&mut bytes, number_of(self.sent.len()))?;
        Ok(bytes)
    }

    /// Appends the registers, H, the program counter, the flags and the stop.
    #[tactic(auto, unfolding(crate::specs::Claims::processor_bytes))]
    fn push_processor(&self, bytes: &mut Vec<u8>) -> Result<(), AllocError>
        ensures { OnOk result (bytes.new.items ≡ bytes.old.items ++ processor_bytes self.now) }
    {
        let mut registers = [0; 16];
        set_numbers(&mut registers, self.registers);
        push_words(bytes, &registers)?;
        push_words(bytes, &[self.h, self.pc, self.flags, self.stop])
    }

    /// Appends the devices, except the timer's rate and phase.
    #[tactic(auto, unfolding(crate::specs::Claims::device_bytes))]
    fn push_devices(&self, bytes: &mut Vec<u8>) -> Result<(), AllocError>
        ensures { OnOk result (bytes.new.items ≡ bytes.old.items ++ device_bytes self.now) }
    {
        let words = [
            self.timer,
            self.switches,
            self.leds,
            self.mouse,
            self.serial,
        ];
        push_words(bytes, &words)?;
        push_keys(bytes, self.keys)
    }

    pub(crate) fn page_ids(&self) -> [u32; 1024]
        ensures { result ≡ page_ids self.now }
    {
        let mut numbers = [0; 1024];
        set_numbers(&mut numbers, self.table);
        numbers
    }
}

/// Appends the disk's answer in version 3.
fn push_disk(bytes: &mut Vec<u8>, version: u32, disk: u32) -> Result<(), AllocError>
    ensures { OnOk result (bytes.new.items ≡ bytes.old.items ++ disk_bytes version disk) }
{
    if version == 3 {
        push_word(bytes, disk)
    } else {
        Ok(())
    }
}

/// Appends the number of waiting keys, and 16 keys, zeros after the waiting ones.
#[tactic(auto, unfolding(crate::specs::Claims::key_bytes))]
fn push_keys(bytes: &mut Vec<u8>, keys: &[u8]) -> Result<(), AllocError>
    ensures { OnOk result (bytes.new.items ≡ bytes.old.items ++ key_bytes keys.now) }
{
    push_word(bytes, number_of(keys.len()))?;
    push_sixteen(bytes, keys)
}

fn push_sixteen(bytes: &mut Vec<u8>, keys: &[u8]) -> Result<(), AllocError>
    ensures { OnOk result (bytes.new.items ≡ bytes.old.items ++ padded keys.now 16) }
{
    for i in 0..16 {
        bytes.push(key_at(keys, i))?;
    }
    Ok(())
}

fn key_at(keys: &[u8], i: usize) -> u8
    ensures { result ≡ slice_index_or keys.now i 0 }
{
    if i < keys.len() { keys[i] } else { 0 }
}

/// Returns the slots in which two tables differ, each with its new page id.
fn changes(alloc: Global, before: &[u32; 1024], after: &[u32; 1024]) -> Result<Vec<u8>, AllocError>
    ensures changes { IfOk result (λ changes. changes.items ≡ changes_below before.now after.now 1024) }
    ensures len { IfOk result (λ changes. vec_len changes ≤ 8192) }
{
    let mut changes = Vec::new(alloc);
    for slot in 0..1024 {
        push_change(&mut changes, before, after, slot)?;
    }
    Ok(changes)
}

/// Appends a slot with its new page id, if two tables differ there.
fn push_change(
    changes: &mut Vec<u8>,
    before: &[u32; 1024],
    after: &[u32; 1024],
    slot: usize,
) -> Result<(), AllocError>
    requires { slot < 1024 }
    ensures change { OnOk result (changes.new.items ≡ changes.old.items ++ change_at before.now after.now slot) }
    ensures len { OnOk result (vec_len changes.new ≤ vec_len changes.old + 8) }
{
    if before[slot] == after[slot] {
        return Ok(());
    }
    push_words(changes, &[slot as u32, after[slot]])
}
