//! The claim of a new checkpoint of a recording.

use risc_devices::Devices;
use risc_model::Cpu;

/// A claim: the state of a machine at a count, the words of its memory, and the bytes that it sent since the previous checkpoint.
#[derive(Drop)]
pub struct Claim<'a> {
    /// The number of instructions done before it.
    pub count: u64,
    pub cpu: Cpu,
    pub devices: Devices,
    /// The 262,144 words of the memory.
    pub words: &'a [u32],
    /// The bytes sent since the previous checkpoint.
    pub sent: &'a [u8],
}
