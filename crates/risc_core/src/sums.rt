//! Sums and differences of words, with their carry and overflow: operations 8 and 9 of formats F0 and F1.
ghost use Rattle.std.specs.Prelude.{◌≡◌, ◌&&◌, not, ◌≤ℤ◌, ◌^◌, ◌-◌, ◌+◌, ◌%◌, pos, negsuc};
ghost use Rattle.risc_core.specs.Word.{bit, differ, one_if, signed};
ghost use Rattle.risc_core.specs.Arithmetic.{overflows, sum_with, difference_with};

use crate::word::is_set;

/// The number of values of a word, 2^32.
const WORD_VALUES: u64 = 1 << 32;

/// Half the number of values of a word: signed values are from minus this number to one below it.
const HALF: i64 = 1 << 31;

/// The result of a sum or a difference.
#[derive(Clone, Copy, Debug, PartialEq, Eq)]
pub struct Sum {
    /// The value for the register R.a.
    pub value: u32,
    /// C: the carry of a sum, or the borrow of a difference (this project's own choice).
    pub carry: bool,
    /// V: whether the sum or the difference of the signed values is not a signed value of 32 bits (this project's own choice).
    pub overflow: bool,
}

/// Returns the signed value of a word, in a type with room for sums and products.
#[inline(always)]
pub(crate) const fn signed(word: u32) -> i64
    ensures value { result ≡ signed word }
    ensures lower_bound { negsuc (2 ^ 31 - 1) ≤ℤ result }
    ensures upper_bound { result ≤ℤ pos (2 ^ 31 - 1) }
{
    word.cast_signed() as i64
}

/// Reports whether a number from -2^33 to 2^33 - 1 is not the signed value of any word.
#[inline(always)]
#[tactic(auto, unfolding(crate::specs::Arithmetic::overflows))]
const fn overflows(number: i64) -> bool
    requires low { negsuc (2 ^ 33 - 1) ≤ℤ number }
    requires high { number ≤ℤ pos (2 ^ 33 - 1) }
    ensures { result ≡ overflows number }
{
    (number + HALF).cast_unsigned() >= WORD_VALUES
}

#[inline(always)]
const fn plain_sum(b: u32, c: u32) -> Sum
    ensures { result ≡ sum_with 0 b c }
{
    let value = b.wrapping_add(c);
    Sum {
        value,
        carry: value < b,
        overflow: overflows(signed(b) + signed(c)),
    }
}

/// Reports whether a sum of two words overflows, if this is its value: the two have one sign, and the value has the other.
#[inline(always)]
const fn sum_overflows(b: u32, c: u32, value: u32) -> bool
    ensures { result ≡ (not (differ (bit b 31) (bit c 31)) && differ (bit b 31) (bit value 31)) }
{
    let negative = is_set(b, 31);
    negative == is_set(c, 31) && negative != is_set(value, 31)
}

/// Returns the sum of two words and a carry.
#[inline(always)]
const fn carried_sum(b: u32, c: u32, carry: bool) -> Sum
    ensures { result ≡ sum_with (one_if carry) b c }
{
    let (value, carried) = b.carrying_add(c, carry);
    Sum {
        value,
        carry: carried,
        overflow: sum_overflows(b, c, value),
    }
}

/// Computes ADD, operation 8: the sum of two words, and of the carry if `u` is set.
#[inline(always)]
pub const fn add(u: bool, b: u32, c: u32, carry: bool) -> Sum
    ensures { result ≡ sum_with (one_if (u && carry)) b c }
{
    if u {
        carried_sum(b, c, carry)
    } else {
        plain_sum(b, c)
    }
}

/// Reports whether a difference of two words overflows, if this is its value: the signs of the two differ, and the value's sign
/// is not that of the first.
#[inline(always)]
const fn difference_overflows(b: u32, c: u32, value: u32) -> bool
    ensures { result ≡ (differ (bit b 31) (bit c 31) && differ (bit b 31) (bit value 31)) }
{
    let negative = is_set(b, 31);
    negative != is_set(c, 31) && negative != is_set(value, 31)
}

/// Reports whether a difference of two words overflows, if this is its value: exactly one of "the value is below 0" and "the
/// first word is below the other" holds. This takes one machine instruction less than a test of the signs.
#[inline(always)]
const fn plain_difference_overflows(b: u32, c: u32, value: u32) -> bool
    requires { value ≡ (b + (2 ^ 32 - c)) % 2 ^ 32 }
    ensures { result ≡ (differ (bit b 31) (bit c 31) && differ (bit b 31) (bit value 31)) }
{
    (b.cast_signed() < c.cast_signed()) != (value.cast_signed() < 0)
}

#[inline(always)]
const fn plain_difference(b: u32, c: u32) -> Sum
    ensures { result ≡ difference_with 0 b c }
{
    let value = b.wrapping_sub(c);
    Sum {
        value,
        carry: b < c,
        overflow: plain_difference_overflows(b, c, value),
    }
}

/// Returns the difference of two words, less a borrow.
#[inline(always)]
const fn borrowed_difference(b: u32, c: u32, borrow: bool) -> Sum
    ensures { result ≡ difference_with (one_if borrow) b c }
{
    let (value, borrowed) = b.borrowing_sub(c, borrow);
    Sum {
        value,
        carry: borrowed,
        overflow: difference_overflows(b, c, value),
    }
}

/// Computes SUB, operation 9: the difference of two words, less the carry if `u` is set.
#[inline(always)]
pub const fn subtract(u: bool, b: u32, c: u32, carry: bool) -> Sum
    ensures { result ≡ difference_with (one_if (u && carry)) b c }
{
    if u {
        borrowed_difference(b, c, carry)
    } else {
        plain_difference(b, c)
    }
}
