//! Recordings of a jump to itself, with true or with false claims, and the verdicts on them.
ghost use Rattle.std.specs.Prelude.{◌≤◌, ◌^◌};

use oberon_check::{Part, Verdict};
use oberon_format::{Recording, read};
use recording_texts::{JUMPS, Sketch};
use std::alloc::{AllocError, Global};
use std::test::Fail;

/// A false claim: the number of a checkpoint, and the offset in it of a byte that becomes 1.
pub(crate) type Change = (u16, u16);

/// The offset of H in a checkpoint.
const H: u16 = 72;

/// The offset of the LEDs in a checkpoint.
pub(crate) const LEDS: u16 = 96;

/// Claims at checkpoints 2 and 3 of an H that no instruction wrote.
pub(crate) const GIVEN_H: [Change; 2] = [(2, H), (3, H)];

/// Claims at checkpoints 3 and 7 of LEDs that no instruction lit.
pub(crate) const LIT_LEDS: [Change; 2] = [(3, LEDS), (7, LEDS)];

/// The verdict on the claims of H.
pub(crate) const FALSE_H: Verdict = Verdict::FalseAt {
    checkpoint: 2,
    count: 20,
    part: Part::H,
};

/// The verdict on the claims of LEDs.
pub(crate) const FALSE_LEDS: Verdict = Verdict::FalseAt {
    checkpoint: 3,
    count: 30,
    part: Part::Leds,
};

/// A recording with false claims, and the version of the format to encode it in. Its pool has one page, and there are no inputs.
#[derive(Clone, Copy)]
pub(crate) struct Written<'a> {
    pub recording: Sketch<'a>,
    pub changes: &'a [Change],
    /// The version, 1 or 2.
    pub version: u32,
}

impl Written<'_> {
    /// Returns the file.
    pub(crate) fn bytes(&self, alloc: Global) -> Result<Vec<u8>, AllocError> {
        let mut file = if self.version == 1 {
            self.recording.first_file(alloc)?
        } else {
            self.recording.second_file(alloc)?
        };
        change(&mut file, self.version, self.changes);
        Ok(file)
    }

    /// Returns the recording that `read` decodes from the file.
    pub(crate) fn recording(&self, alloc: Global) -> Result<Recording, Fail> {
        let bytes = self.bytes(alloc)?;
        Ok(read(alloc, bytes.as_slice())?)
    }
}

/// Makes false claims in a file.
fn change(file: &mut [u8], version: u32, changes: &[Change]) {
    for (checkpoint, offset) in changes {
        let at = start_of(version, *checkpoint) + u32::from(*offset);
        if let Some(byte) = file.get_mut(at as usize) {
            *byte = 1;
        }
    }
}

/// Returns where a checkpoint begins. Only checkpoint 0 has a change of the table in version 2.
fn start_of(version: u32, checkpoint: u16) -> u32
    ensures { result ≤ 2 ^ 30 }
{
    let number = u32::from(checkpoint);
    match version {
        1 => 1_048 + 4_228 * number,
        _ => 1_056 + 144 * number,
    }
}

/// Returns the recording of a jump to itself with this number of segments, at most ten.
pub(crate) fn jumps(segments: usize) -> Sketch<'static> {
    JUMPS.up_to(segments)
}

/// Returns the recording of a jump to itself, decoded from its file of version 1 with false claims.
pub(crate) fn jump_recording(
    alloc: Global,
    segments: usize,
    changes: &[Change],
) -> Result<Recording, Fail> {
    let written = Written {
        recording: jumps(segments),
        changes,
        version: 1,
    };
    written.recording(alloc)
}
