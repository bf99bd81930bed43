//! Facts that the types of bytes, of words and of a checkpoint's parts guarantee. Each function here only reads.

ghost use Rattle.std.specs.Prelude.{◌<◌, ◌^◌, ℕ, All, map, slice_index};
ghost use Rattle.oberon_format.specs.CheckpointParts.{checkpoint_parts};
ghost use Rattle.oberon_format.specs.Formed.{IsFormed, AreFormed};

use crate::checkpoint::Checkpoint;

/// States that the parts of a checkpoint are as their types guarantee.
pub(crate) fn formed_law(checkpoint: &Checkpoint)
    ensures { IsFormed (checkpoint_parts checkpoint.now) }
{
    let _cpu = &checkpoint.cpu;
    let _timer = checkpoint.devices.timer();
    bytes_fit(&checkpoint.sent);
}

/// States that the parts of all checkpoints are as their types guarantee.
pub(crate) fn all_formed_law(checkpoints: &[Checkpoint])
    ensures { AreFormed (map checkpoint_parts checkpoints.now) }
{
    for checkpoint in checkpoints {
        formed_law(checkpoint);
    }
}

/// States that each byte is below 256, which its type ensures.
pub fn bytes_fit(bytes: &[u8])
    ensures { All (λ byte. byte < 2 ^ 8) bytes.now }
{}

/// States that each word is below 2^32, which its type ensures.
pub fn words_fit(words: &[u32])
    ensures all { All (λ word. word < 2 ^ 32) words.now }
    ensures each { (i : ℕ) → slice_index words.now i < 2 ^ 32 }
{}
