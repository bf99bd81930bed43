//! Offsets of the parts of a file and of their fields, and the counts in its header.
//!
//! Each offset and each length has its one name here, which definitions, contracts and code use. All are in bytes.

ghost use Rattle.std.specs.Prelude.{◌≡◌, ◌≤◌, ◌+◌, ◌==◌, false, length};
ghost use Rattle.oberon_format.specs.Layout.{page_offset, event_start, checkpoint_len, disk_len, version, pages, events, checkpoints, start};
ghost use Rattle.oberon_format.specs.Layout.{word_since_2, disk_at, change_offset, change_count};
ghost use Rattle.oberon_format.specs.Ranges.{max_events};

use crate::number::u32_at;
use recording_limits::{MAX_EVENTS, MAX_EVENTS_WITH_DISK, MAX_PAGES};
use risc_devices::UNANSWERED;
use risc_pages::{PAGE_SLOTS, PAGE_WORDS};

/// `ORSR`, the four bytes that begin each file, as a number.
pub(crate) const MAGIC: u32 = 0x5253_524F;

/// The first version, whose checkpoints have their whole tables. It is read, and no longer written.
pub(crate) const FIRST_VERSION: u32 = 1;

/// The current version of a recording without a disk: a checkpoint has the changes from the table before it.
pub const VERSION: u32 = 2;

/// The version of a recording with a disk: a checkpoint also has the disk's answer.
pub const VERSION_WITH_DISK: u32 = 3;

pub(crate) const HEADER_LEN: usize = 24;

pub(crate) const PAGE_LEN: usize = 4 * PAGE_WORDS as usize;

pub(crate) const EVENT_LEN: usize = 16;

/// The length of a checkpoint of version 1: its common fields, and the table.
pub(crate) const CHECKPOINT_LEN: usize = 4228;

/// The length of a change of a later version.
pub(crate) const CHANGE_LEN: usize = 8;

/// The length of the disk's answer, which ends a checkpoint of version 3.
pub(crate) const DISK_LEN: usize = 4;

/// The length of the longest file without a disk and without a fault: that of version 2 of a recording at all limits, in which
/// each table differs from the one before in all slots.
pub const LONGEST_RECORDING: usize = 118_310_056;

/// The length of the longest file of any version without a fault: that of version 3 of such a recording with a disk.
pub const LONGEST_WITH_DISK: usize = 166_326_444;

// Offsets of the numbers of a header.

pub(crate) const MAGIC_AT: usize = 0;

pub(crate) const VERSION_AT: usize = 4;

pub(crate) const PAGES_AT: usize = 8;

pub(crate) const EVENTS_AT: usize = 12;

pub(crate) const CHECKPOINTS_AT: usize = 16;

/// The last number of a header, which is 0.
pub(crate) const LAST_AT: usize = 20;

// Offsets of the fields of an event, from its start. Its count begins it.

pub(crate) const KIND_AT: usize = 8;

pub(crate) const VALUE_AT: usize = 12;

// Offsets of the fields of a checkpoint, from its start. Its count begins it. The fields up to the length of the output are
// common to all versions.

/// R0 to R15.
pub(crate) const REGISTERS_AT: usize = 8;

/// H.
pub(crate) const H_AT: usize = 72;

pub(crate) const PC_AT: usize = 76;

pub(crate) const FLAGS_AT: usize = 80;

pub(crate) const STOP_AT: usize = 84;

pub(crate) const TIMER_AT: usize = 88;

pub(crate) const SWITCHES_AT: usize = 92;

pub(crate) const LEDS_AT: usize = 96;

pub(crate) const MOUSE_AT: usize = 100;

/// The serial byte, and whether it was received.
pub(crate) const SERIAL_AT: usize = 104;

/// The number of keys.
pub(crate) const WAITING_AT: usize = 108;

/// The sixteen key bytes.
pub(crate) const KEYS_AT: usize = 112;

/// The length of the output.
pub(crate) const SENT_AT: usize = 128;

/// The end of the common fields.
pub(crate) const COMMON_LEN: usize = 132;

// In version 1 the table follows the common fields.

pub(crate) const TABLE_AT: usize = 132;

// In later versions these numbers and the changes follow them, and in version 3 the disk's answer.

pub(crate) const RATE_AT: usize = 132;

pub(crate) const PHASE_AT: usize = 136;

pub(crate) const CHANGE_COUNT_AT: usize = 140;

pub(crate) const CHANGES_AT: usize = 144;

// Offsets of the fields of a change, from its start. Its slot begins it.

pub(crate) const PAGE_ID_AT: usize = 4;

#[inline]
pub(crate) fn page_offset(p: usize) -> usize
    requires { p ≤ MAX_PAGES }
    ensures { result ≡ page_offset p }
{
    HEADER_LEN + PAGE_LEN * p
}

/// Returns the offset of event i, after a number of pages. Checkpoint 0 begins where an event after the last would.
#[inline]
pub(crate) fn event_start(pages: u32, i: usize) -> usize
    requires pages { pages ≤ MAX_PAGES }
    requires events { i ≤ MAX_EVENTS_WITH_DISK }
    ensures { result ≡ event_start pages i }
{
    page_offset(pages as usize) + EVENT_LEN * i
}

/// Returns the length of a checkpoint of a version after the first, from its number of changes.
#[inline]
pub(crate) fn changed_len(version: u32, changes: u32) -> usize
    requires version { (version == FIRST_VERSION) ≡ false }
    requires changes { changes ≤ PAGE_SLOTS }
    ensures { result ≡ checkpoint_len version changes }
{
    CHANGES_AT + CHANGE_LEN * changes as usize + disk_len(version)
}

#[inline]
pub(crate) fn is_first_version(bytes: &[u8]) -> bool
    requires { HEADER_LEN ≤ length bytes.now }
    ensures { result ≡ (version bytes.now == FIRST_VERSION) }
{
    u32_at(bytes, VERSION_AT) == FIRST_VERSION
}

#[inline]
pub(crate) fn has_disk(bytes: &[u8]) -> bool
    requires { HEADER_LEN ≤ length bytes.now }
    ensures { result ≡ (version bytes.now == VERSION_WITH_DISK) }
{
    u32_at(bytes, VERSION_AT) == VERSION_WITH_DISK
}

/// Returns the most events of a file of a version.
pub(crate) fn max_events(version: u32) -> u32
    ensures value { result ≡ max_events version }
    ensures within { result ≤ MAX_EVENTS_WITH_DISK }
{
    if version == VERSION_WITH_DISK {
        MAX_EVENTS_WITH_DISK
    } else {
        MAX_EVENTS
    }
}

/// Returns the length of the disk's answer in a checkpoint of a version.
#[inline]
fn disk_len(version: u32) -> usize
    ensures { result ≡ disk_len version }
{
    if version == VERSION_WITH_DISK {
        DISK_LEN
    } else {
        0
    }
}

/// Returns the disk's answer in the checkpoint at an offset; 255 before version 3.
pub(crate) fn disk_at(bytes: &[u8], offset: usize) -> u32
    requires header { HEADER_LEN ≤ length bytes.now }
    requires room { offset + checkpoint_len (version bytes.now) (change_count bytes.now offset) ≤ length bytes.now }
    requires few { change_count bytes.now offset ≤ PAGE_SLOTS }
    requires common { offset + CHANGES_AT ≤ length bytes.now }
    ensures { result ≡ disk_at bytes.now offset }
{
    if has_disk(bytes) {
        let changes = word_since_2(bytes, offset + CHANGE_COUNT_AT) as usize;
        u32_at(bytes, offset + CHANGES_AT + CHANGE_LEN * changes)
    } else {
        UNANSWERED
    }
}

#[inline]
pub(crate) fn page_count(bytes: &[u8]) -> u32
    requires { HEADER_LEN ≤ length bytes.now }
    ensures { result ≡ pages bytes.now }
{
    u32_at(bytes, PAGES_AT)
}

#[inline]
pub(crate) fn event_count(bytes: &[u8]) -> u32
    requires { HEADER_LEN ≤ length bytes.now }
    ensures { result ≡ events bytes.now }
{
    u32_at(bytes, EVENTS_AT)
}

#[inline]
pub(crate) fn checkpoint_count(bytes: &[u8]) -> u32
    requires { HEADER_LEN ≤ length bytes.now }
    ensures { result ≡ checkpoints bytes.now }
{
    u32_at(bytes, CHECKPOINTS_AT)
}

#[tactic(auto, using(crate::proofs::Room::start_none))]
#[inline]
pub(crate) fn first_checkpoint(bytes: &[u8]) -> usize
    requires header { HEADER_LEN ≤ length bytes.now }
    requires pages { pages bytes.now ≤ MAX_PAGES }
    requires events { events bytes.now ≤ MAX_EVENTS_WITH_DISK }
    ensures { result ≡ start bytes.now 0 }
{
    event_start(page_count(bytes), event_count(bytes) as usize)
}

/// Returns the length of a checkpoint of a file, from its number of changes.
#[inline]
pub(crate) fn checkpoint_len(bytes: &[u8], changes: u32) -> usize
    requires header { HEADER_LEN ≤ length bytes.now }
    requires changes { changes ≤ PAGE_SLOTS }
    ensures { result ≡ checkpoint_len (version bytes.now) changes }
{
    if is_first_version(bytes) {
        CHECKPOINT_LEN
    } else {
        changed_len(u32_at(bytes, VERSION_AT), changes)
    }
}

/// Returns a word after the common fields of a checkpoint of a later version, by its offset; 0 in a file of version 1, which has no
/// such word.
#[inline]
pub(crate) fn word_since_2(bytes: &[u8], offset: usize) -> u32
    requires header { HEADER_LEN ≤ length bytes.now }
    requires room { offset + 4 ≤ length bytes.now }
    ensures { result ≡ word_since_2 bytes.now offset }
{
    if is_first_version(bytes) {
        0
    } else {
        u32_at(bytes, offset)
    }
}
