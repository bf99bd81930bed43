//! Numbers as the bytes of a file, lowest byte first.

ghost use Rattle.std.specs.Prelude.{◌≡◌, ◌++◌, OnOk, slice_set};
ghost use Rattle.recording_texts.specs.Bytes.{length_number, long_bytes, set_numbers, word_bytes, words_bytes};

use std::alloc::AllocError;

/// Appends a number of four bytes.
pub(crate) fn push_word(file: &mut Vec<u8>, word: u32) -> Result<(), AllocError>
    ensures { OnOk result (file.new.items ≡ file.old.items ++ word_bytes word) }
{
    file.extend_from_slice(&word.to_le_bytes())
}

pub(crate) fn push_words(file: &mut Vec<u8>, words: &[u32]) -> Result<(), AllocError>
    ensures { OnOk result (file.new.items ≡ file.old.items ++ words_bytes words.now) }
{
    for word in words {
        push_word(file, *word)?;
    }
    Ok(())
}

/// Appends a number of eight bytes.
pub(crate) fn push_long(file: &mut Vec<u8>, number: u64) -> Result<(), AllocError>
    ensures { OnOk result (file.new.items ≡ file.old.items ++ long_bytes number) }
{
    file.extend_from_slice(&number.to_le_bytes())
}

/// Returns a length, capped to the greatest number of four bytes.
pub(crate) fn number_of(length: usize) -> u32
    ensures { result ≡ length_number length }
{
    u32::try_from(length).unwrap_or(u32::MAX)
}

/// Sets words by their indices, if there are such indices.
#[tactic(auto, using(crate::proofs::Lists::one_more))]
pub(crate) fn set_numbers(words: &mut [u32], numbers: &[(u16, u32)])
    ensures { words.new ≡ set_numbers words.old numbers.now }
{
    for (index, number) in numbers {
        set_number(words, usize::from(*index), *number);
    }
}

/// Sets a word, if there is such an index.
#[tactic(auto, using(crate::proofs::Lists::past))]
fn set_number(words: &mut [u32], index: usize, number: u32)
    ensures { words.new ≡ slice_set words.old index number }
{
    if index < words.len() {
        words[index] = number;
    }
}
