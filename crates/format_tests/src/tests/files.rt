//! Bytes and words of a file that are replaced, and the faults of files.

use oberon_format::{Fault, read, read_with_disk, refusal};
use recording_texts::{STORED_RUN, Sketch};
use std::alloc::{AllocError, Global};
use std::process::Abort;

/// Words to replace, each at its offset, and the first fault of the file after that.
pub(crate) type Turned = (&'static [(u16, u32)], Fault);

/// Sets one byte of a file, if it is there.
pub(crate) fn put_byte(bytes: &mut Vec<u8>, offset: usize, byte: u8) {
    if offset < bytes.len() {
        bytes[offset] = byte;
    }
}

/// Sets the four bytes of a word, lowest first.
pub(crate) fn put_word(bytes: &mut Vec<u8>, offset: u16, word: u32) {
    let offset = offset as usize;
    put_byte(bytes, offset, (word & 0xFF) as u8);
    put_byte(bytes, offset + 1, (word >> 8 & 0xFF) as u8);
    put_byte(bytes, offset + 2, (word >> 16 & 0xFF) as u8);
    put_byte(bytes, offset + 3, (word >> 24 & 0xFF) as u8);
}

/// Sets words of a file, each at its offset.
pub(crate) fn put_words(bytes: &mut Vec<u8>, words: &[(u16, u32)]) {
    for (offset, word) in words {
        put_word(bytes, *offset, *word);
    }
}

/// Returns the file of a sketch in a version.
pub(crate) fn file_of(
    alloc: Global,
    version: u32,
    sketch: &Sketch<'_>,
) -> Result<Vec<u8>, AllocError> {
    match version {
        1 => sketch.first_file(alloc),
        2 => sketch.second_file(alloc),
        _ => sketch.third_file(alloc),
    }
}

/// Reports whether this is the first fault of a file: in versions 1 and 2 without a disk, and in version 3 with one.
pub(crate) fn is_fault_of(alloc: Global, version: u32, bytes: &[u8], fault: Fault) -> bool {
    let read = if version == 3 {
        read_with_disk(alloc, bytes)
    } else {
        read(alloc, bytes)
    };
    read.err() == Some(fault)
}

/// Reports whether this is the first fault of the file of a sketch with these words at their offsets.
pub(crate) fn is_refused(
    alloc: Global,
    version: u32,
    sketch: &Sketch<'_>,
    words: &[(u16, u32)],
    fault: Fault,
) -> bool {
    match file_of(alloc, version, sketch) {
        Ok(mut bytes) => {
            put_words(&mut bytes, words);
            is_fault_of(alloc, version, &bytes, fault)
        }
        Err(_) => false,
    }
}

/// Returns the first row whose words give the file of a sketch another first fault, if there is one.
pub(crate) fn row_of_another_fault(
    alloc: Global,
    version: u32,
    sketch: &Sketch<'_>,
    rows: &[Turned],
) -> Option<usize> {
    for (row, (words, fault)) in rows.iter().enumerate() {
        if !is_refused(alloc, version, sketch, words, *fault) {
            return Some(row);
        }
    }
    None
}

/// Reports whether this is the first fault of the file of the stored run with a byte after it.
pub(crate) fn is_refused_with_a_byte_more(alloc: Global, version: u32, fault: Fault) -> bool {
    match file_of(alloc, version, &STORED_RUN) {
        Ok(mut bytes) => bytes.push(0).is_ok() && is_fault_of(alloc, version, &bytes, fault),
        Err(_) => false,
    }
}

/// Returns the first bytes of the file of the stored run.
pub(crate) fn cut_file(alloc: Global, version: u32, len: usize) -> Result<Vec<u8>, AllocError> {
    let mut bytes = file_of(alloc, version, &STORED_RUN)?;
    bytes.truncate(len);
    Ok(bytes)
}

/// Reports whether this is the line of a fault.
pub(crate) fn is_line(alloc: Global, fault: Fault, line: &str) -> bool {
    if let Fault::Memory = fault {
        return false;
    }
    match refusal(alloc, &fault) {
        Ok(written) => written.as_slice() == line.as_bytes(),
        Err(_) => false,
    }
}

/// Asserts that no row is wrong.
pub(crate) fn check_rows(rt: &impl Abort, wrong: Option<usize>) {
    if let Some(row) = wrong {
        panic!(rt; "row {row}");
    }
}

/// Asserts that no part is wrong.
pub(crate) fn check_parts(rt: &impl Abort, wrong: Option<&'static str>) {
    if let Some(part) = wrong {
        panic!(rt; "another {part}");
    }
}
