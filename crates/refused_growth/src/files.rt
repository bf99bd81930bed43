//! Files without a fault, and files with a fault, which have that fault however much memory there is.

use oberon_format::read;
use std::io;

/// The length of a file of version 1 with one page, one event and one checkpoint.
const LENGTH: usize = 5_292;

/// The length of such a file of version 2, whose checkpoint has one change.
const CHANGED_LENGTH: usize = 1_216;

/// Returns a file of version 1 with a page of zeros, a timer's event at count 0 and a checkpoint that is all zeros, and one byte
/// more.
fn sound_file() -> [u8; LENGTH + 1] {
    let mut file = [0; LENGTH + 1];
    file[0] = b'O';
    file[1] = b'R';
    file[2] = b'S';
    file[3] = b'R';
    file[4] = 1;
    file[8] = 1;
    file[12] = 1;
    file[16] = 1;
    file[1_056] = 1;
    file
}

/// Returns a file of version 2 with that page, which its checkpoint has in slot 0, and that event.
fn changed_file() -> [u8; CHANGED_LENGTH] {
    let mut file = [0; CHANGED_LENGTH];
    file[0] = b'O';
    file[1] = b'R';
    file[2] = b'S';
    file[3] = b'R';
    file[4] = 2;
    file[8] = 1;
    file[12] = 1;
    file[16] = 1;
    file[1_056] = 1;
    file[1_204] = 1;
    file[1_212] = 1;
    file
}

/// The length of a file of version 2 with one checkpoint more, which has no change.
const STEPPING_LENGTH: usize = CHANGED_LENGTH + 144;

/// Returns that file with a checkpoint at count 1: its first instruction is a zero, which moves R0 to itself and sets Z.
pub(crate) fn stepping_file() -> [u8; STEPPING_LENGTH] {
    let mut file = [0; STEPPING_LENGTH];
    for (there, byte) in file.iter_mut().zip(changed_file()) {
        *there = byte;
    }
    file[16] = 2;
    // the count, the program counter and the flags
    file[CHANGED_LENGTH] = 1;
    file[CHANGED_LENGTH + 76] = 1;
    file[CHANGED_LENGTH + 80] = 4;
    file
}

/// A file that is cut at a length and has another byte at an offset: the length, the offset, the byte. (`b'O'` at offset 0 leaves
/// the byte as it is.)
type Broken = (usize, usize, u8);

/// Files of version 1 with a fault.
const FIRST: [Broken; 14] = [
    (0, 0, b'O'),
    (24, 0, b'O'),
    (LENGTH - 1, 0, b'O'),
    // the magic, the version, and each number of the header
    (LENGTH, 0, b'o'),
    (LENGTH, 4, 3),
    (LENGTH, 11, 1),
    (LENGTH, 15, 1),
    (LENGTH, 16, 0),
    (LENGTH, 20, 1),
    // the kind of the event, the count of the checkpoint, and its first and its last page id
    (LENGTH, 1_056, 6),
    (LENGTH, 1_064, 1),
    (LENGTH, 1_196, 2),
    (LENGTH, 5_288, 2),
    // the byte after the end
    (LENGTH + 1, 0, b'O'),
];

/// Files of version 2 with a fault.
const SECOND: [Broken; 7] = [
    // a file that ends inside its checkpoint and inside its change
    (1_207, 0, b'O'),
    (CHANGED_LENGTH - 1, 0, b'O'),
    // the phase, which is 0 at rate 0, and the number of changes
    (CHANGED_LENGTH, 1_200, 1),
    (CHANGED_LENGTH, 1_205, 5),
    // a change past the last slot, to a page that is not in the pool, and to the page that was there
    (CHANGED_LENGTH, 1_209, 4),
    (CHANGED_LENGTH, 1_212, 2),
    (CHANGED_LENGTH, 1_212, 0),
];

/// Returns the first bytes of a file, or all that it has.
fn first_bytes(file: &[u8], length: usize) -> &[u8] {
    &file[..length.min(file.len())]
}

/// Reads a file without a fault of each version, and files with each of the eight faults, and prints the result of each.
pub(crate) fn files<H: AllocGlobal + Print>(rt: &H) -> io::Result<()> {
    show(rt, "sound", first_bytes(&sound_file(), LENGTH))?;
    show(rt, "changed", &changed_file())?;
    for broken in FIRST {
        show_broken(rt, &mut sound_file(), broken)?;
    }
    for broken in SECOND {
        show_broken(rt, &mut changed_file(), broken)?;
    }
    Ok(())
}

/// Prints the result of a file with one of these faults.
fn show_broken<H: AllocGlobal + Print>(
    rt: &H,
    file: &mut [u8],
    (length, offset, byte): Broken,
) -> io::Result<()> {
    if let Some(there) = file.get_mut(offset) {
        *there = byte;
    }
    show(rt, "broken", first_bytes(file, length))
}

/// Prints the fault of a file under a name.
fn show<H: AllocGlobal + Print>(rt: &H, name: &str, file: &[u8]) -> io::Result<()> {
    match read(rt.alloc(), file) {
        Ok(_) => println!(rt; "{name}: read"),
        Err(fault) => println!(rt; "{name}: {fault}"),
    }
}
