//! The picture of a display, as a binary PBM. The address of the display's words is not known here.

ghost use Rattle.std.specs.Prelude.{◌≡◌, ℕ, ◌+◌, ◌*◌, ◌/◌, ◌%◌, ◌<◌, length, slice_index, IfOk};
ghost use Rattle.risc_devices.specs.Picture.{HasDots, IsPicture};

use std::alloc::{AllocError, Global};

/// The first bytes of every picture.
const HEAD: [u8; 12] = *b"P4\n1024 768\n";

/// The number of bytes of a picture's dots: 768 rows of 128.
const DOTS: usize = 98_304;

/// Returns the picture of a display of 1,024 by 768 dots. `words` are the words of the display: 32 a line, line 0 lowest, and bit
/// 0 of a word its leftmost dot ("Project Oberon" 2013, the hardware chapters).
///
/// The 98,316 bytes are a binary PBM (this project's own choice): the twelve bytes `P4`, line feed, `1024 768`, line feed, and
/// then 768 rows from the top down, 128 bytes each, eight dots a byte, the leftmost in the highest bit; a set bit of the display
/// is a set bit of the picture. Fails only if memory runs out.
pub fn picture(alloc: Global, words: &[u32]) -> Result<Vec<u8>, AllocError>
    requires { length words.now ≡ 24576 }
    ensures { IfOk result (λ bytes. IsPicture words.now bytes.items) }
{
    let mut bytes = blank(alloc, HEAD.len() + DOTS)?;
    draw(&mut bytes, words);
    Ok(bytes)
}

/// Returns as many bytes, to be overwritten.
fn blank(alloc: Global, len: usize) -> Result<Vec<u8>, AllocError>
    ensures { IfOk result (λ bytes. length bytes.items ≡ len) }
{
    let bytes = vec![in alloc; 0; len]?;
    Ok(bytes)
}

/// Writes the whole picture.
fn draw(bytes: &mut [u8], words: &[u32])
    requires room { length bytes.old ≡ 98316 }
    requires display { length words.now ≡ 24576 }
    ensures { IsPicture words.now bytes.new }
{
    let (head, dots) = bytes.split_at_mut(HEAD.len());
    head.copy_from_slice(&HEAD);
    draw_dots(dots, words);
}

/// Writes the dots, eight a byte, from the top row down.
fn draw_dots(dots: &mut [u8], words: &[u32])
    requires room { length dots.old ≡ 98304 }
    requires display { length words.now ≡ 24576 }
    ensures { (at : ℕ) → at < 98304 → HasDots words.now (at / 128) (at % 128) (slice_index dots.new at) }
{
    for at in 0..DOTS {
        dots[at] = dots_at(words, at);
    }
}

/// Returns the byte at a position of a picture's dots, counted from the first.
#[inline]
fn dots_at(words: &[u32], at: usize) -> u8
    requires display { length words.now ≡ 24576 }
    requires place { at < 98304 }
    ensures { HasDots words.now (at / 128) (at % 128) result }
{
    let y = 767 - at / 128;
    let col = at % 128;
    let dots = words[32 * y + col / 4] >> (8 * (col % 4));
    let eight = (dots % 256) as u8;
    eight.reverse_bits()
}
