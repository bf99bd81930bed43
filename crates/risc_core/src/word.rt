//! Bits and fields of a word.
ghost use Rattle.std.specs.Prelude.{◌≡◌, ◌<◌};
ghost use Rattle.risc_core.specs.Word.{field, bit, signed_field, IsSignedBelow};

#[inline(always)]
pub(crate) const fn nibble(word: u32, low: u32) -> u8
    requires { low < 32 }
    ensures { result ≡ field word low 4 }
{
    (word >> low & 0xF) as u8
}

/// Reports whether a bit of a word is set.
#[inline(always)]
pub const fn is_set(word: u32, index: u32) -> bool
    requires { index < 32 }
    ensures { result ≡ bit word index }
{
    word >> index & 1 == 1
}

#[inline(always)]
pub(crate) const fn signed_20(word: u32) -> i32
    ensures value { result ≡ signed_field word 20 }
    ensures range { IsSignedBelow 19 result }
{
    (word << 12).cast_signed() >> 12
}

#[inline(always)]
pub(crate) const fn signed_22(word: u32) -> i32
    ensures value { result ≡ signed_field word 22 }
    ensures range { IsSignedBelow 21 result }
{
    (word << 10).cast_signed() >> 10
}
