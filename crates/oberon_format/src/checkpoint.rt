//! Checkpoints: the state that a recording claims at a count. Ordered lists of them are in `recording`.

ghost use Rattle.std.specs.Prelude.{◌≡◌, ◌≤◌, length, map};
ghost use Rattle.risc_pages.specs.Tables.{zero_numbers};
ghost use Rattle.oberon_format.specs.CheckpointParts.{checkpoint_parts};
ghost use Rattle.oberon_format.specs.Recording.{table_before};

use risc_devices::Devices;
use risc_model::Cpu;
use risc_pages::Table;

/// The state of the machine that is claimed at a count, before the inputs of that count, and its output since the checkpoint
/// before.
///
/// `Recording::from_parts_with_disk` says which checkpoints a recording may have.
#[derive(Drop)]
pub struct Checkpoint {
    /// The number of instructions before it.
    pub count: u64,
    pub cpu: Cpu,
    pub devices: Devices,
    /// The bytes sent since the checkpoint before.
    pub sent: Vec<u8>,
    /// The memory: the page id of each of its 1,024 slots, over the recording's pool.
    pub table: Table,
}

/// Returns the table before checkpoint k: the given zeros, or that of the checkpoint before.
pub(crate) fn table_before<'a>(
    checkpoints: &'a [Checkpoint],
    k: usize,
    zeros: &'a Table,
) -> &'a Table
    requires below { k ≤ length checkpoints.now }
    requires zeros { zeros.now.numbers ≡ zero_numbers }
    ensures { result.now.numbers ≡ table_before (map checkpoint_parts checkpoints.now) k }
{
    if k == 0 {
        zeros
    } else {
        &checkpoints[k - 1].table
    }
}
