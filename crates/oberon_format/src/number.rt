//! The numbers of a file, by their offsets. The lowest byte comes first.

ghost use Rattle.std.specs.Prelude.{◌≡◌, ◌≤◌, ◌+◌, length};
ghost use Rattle.oberon_format.specs.Layout.{word_at, long_at};

use byteorder::{ByteOrder, LittleEndian};

#[inline]
pub(crate) fn u32_at(bytes: &[u8], offset: usize) -> u32
    requires { offset + 4 ≤ length bytes.now }
    ensures { result ≡ word_at bytes.now offset }
{
    LittleEndian::read_u32(&bytes[offset..])
}

#[inline]
pub(crate) fn u64_at(bytes: &[u8], offset: usize) -> u64
    requires { offset + 8 ≤ length bytes.now }
    ensures { result ≡ long_at bytes.now offset }
{
    LittleEndian::read_u64(&bytes[offset..])
}
