//! Files that are migrated to version 2, or to version 3.

use crate::tests::files::{check_rows, cut_file, file_of};
use oberon_format::{Fault, migrate, migrate_with_disk};
use recording_texts::STORED_RUN;
use std::alloc::Global;

/// Returns the migration of the file of the stored run in this version, with a disk to version 3.
fn migrated_file(alloc: Global, version: u32, with_disk: bool) -> Option<Vec<u8>> {
    let bytes = file_of(alloc, version, &STORED_RUN).ok()?;
    if with_disk {
        migrate_with_disk(alloc, &bytes).ok()
    } else {
        migrate(alloc, &bytes).ok()
    }
}

/// Reports whether that is the file of its recording in the version that it is migrated to.
fn is_migrated(alloc: Global, version: u32, with_disk: bool) -> bool {
    let Some(migrated) = migrated_file(alloc, version, with_disk) else {
        return false;
    };
    match file_of(alloc, if with_disk { 3 } else { 2 }, &STORED_RUN) {
        Ok(file) => migrated.as_slice() == file.as_slice(),
        Err(_) => false,
    }
}

/// Versions, and whether they are migrated with a disk. A file in the version that it is migrated to is its own migration.
const MIGRATED: [(u32, bool); 5] = [(1, false), (2, false), (1, true), (2, true), (3, true)];

/// Returns the first row that is migrated to another file, if there is one.
fn row_of_another_file(alloc: Global) -> Option<usize> {
    for (row, (version, with_disk)) in MIGRATED.iter().enumerate() {
        if !is_migrated(alloc, *version, *with_disk) {
            return Some(row);
        }
    }
    None
}

#[test]
fn migrates_a_file_to_the_file_of_its_recording(rt: HostRuntime) {
    check_rows(&rt, row_of_another_file(rt.alloc()));
}

/// Returns the fault of the file of the stored run in version 3, if it is migrated without a disk.
fn fault_without_disk(alloc: Global) -> Option<Fault> {
    let bytes = STORED_RUN.third_file(alloc).ok()?;
    migrate(alloc, &bytes).err()
}

#[test]
fn migrates_no_file_of_version_3_without_a_disk(rt: HostRuntime) {
    assert!(rt; fault_without_disk(rt.alloc()) == Some(Fault::Version(4)));
}

/// Reports whether migrating the file of the stored run, cut at this length, is refused because the file is short.
fn is_short(alloc: Global, version: u32, len: usize) -> bool {
    match cut_file(alloc, version, len) {
        Ok(bytes) => migrate(alloc, &bytes).err() == Some(Fault::Short(len as u64)),
        Err(_) => false,
    }
}

/// Versions, and lengths at which the file of the stored run is cut.
const CUTS: [(u32, usize); 3] = [(1, 9503), (2, 1199), (2, 0)];

/// Returns the first cut at which the file is not refused so, if there is one.
fn row_that_is_migrated(alloc: Global) -> Option<usize> {
    for (row, (version, len)) in CUTS.iter().enumerate() {
        if !is_short(alloc, *version, *len) {
            return Some(row);
        }
    }
    None
}

#[test]
fn migrates_no_file_with_a_fault(rt: HostRuntime) {
    check_rows(&rt, row_that_is_migrated(rt.alloc()));
}
