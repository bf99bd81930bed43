//! Inputs from outside. What they do to the devices is in `devices`.

ghost use Rattle.risc_devices.specs.InputKind.{IsInput, IsInputWithDisk, kind_number};

use crate::fault::RangeFault;
use crate::kind::Kind;
use crate::kinds::DISK;

/// An input: a change from outside, of a kind and with a value in that kind's range.
///
/// | number | kind | value | what it does |
/// |---|---|---|---|
/// | 1 | timer | any word, in milliseconds | sets the timer |
/// | 2 | switches | below 4,096 | sets the buttons (bits 11..8) and the switches (bits 7..0) |
/// | 3 | mouse | inside the mask `073FF3FF` | sets the mouse word: x in bits 0..9, y in bits 12..21, keys in bits 24..26 |
/// | 4 | key | below 256 | joins the end of the key queue, or is dropped if sixteen wait |
/// | 5 | serial | below 256 | replaces the serial line's byte, which is then "received" |
/// | 6 | disk | any word | sets the disk's answer |
///
/// The numbers of the kinds, the layout of the mouse word, the length of the key queue, that a byte of the serial line replaces the
/// one before, and that the disk's answers are inputs are this project's own choice.
#[derive(Clone, Copy, Debug, PartialEq, Eq)]
pub struct Input {
    pub(crate) kind: Kind,
    pub(crate) value: u32,
    pub ghost lawful: { IsInputWithDisk (kind_number kind) value },
}

impl Input {
    ghost use Rattle.std.specs.Prelude.{◌≡◌, ◌↔◌, IsOk, IfOk};
    ghost use Rattle.risc_devices.specs.Input.{kind_of, value_of};

    /// Makes the input of a machine without a disk: of a kind's number from 1 to 5, and a value. Refuses exactly if there is no
    /// such kind, or if the value is out of the kind's range.
    pub fn new(kind: u8, value: u32) -> Result<Input, RangeFault>
        ensures lawful { IsOk result ↔ IsInput kind value }
        ensures kind { IfOk result (λ i. kind_of i ≡ kind) }
        ensures value { IfOk result (λ i. value_of i ≡ value) }
    {
        if kind == DISK {
            return Err(RangeFault);
        }
        Input::new_with_disk(kind, value)
    }

    /// Makes the input of a kind's number from 1 to 6, and a value. Refuses exactly if there is no such kind, or if the value is out
    /// of the kind's range.
    pub fn new_with_disk(kind: u8, value: u32) -> Result<Input, RangeFault>
        ensures lawful { IsOk result ↔ IsInputWithDisk kind value }
        ensures kind { IfOk result (λ i. kind_of i ≡ kind) }
        ensures value { IfOk result (λ i. value_of i ≡ value) }
    {
        match Kind::from_number(kind) {
            Some(kind) if kind.takes(value) => Ok(Input { kind, value }),
            _ => Err(RangeFault),
        }
    }

    /// Returns the number of the input's kind, from 1 to 6.
    #[inline]
    pub fn kind(self) -> u8
        ensures { result ≡ kind_of self }
    {
        self.kind.number()
    }

    /// Returns the input's value, in the range of its kind.
    #[inline]
    pub fn value(self) -> u32
        ensures value { result ≡ value_of self }
        ensures lawful { IsInputWithDisk (kind_of self) result }
    {
        self.value
    }
}
