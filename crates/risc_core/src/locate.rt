//! The address of a base and an offset, and its target (Project Oberon 2013, hardware chapters).
ghost use Rattle.std.specs.Prelude.{◌≡◌, ◌<◌};
ghost use Rattle.risc_core.specs.Place.{address_of, target_of, lane_of, IsInside};

use crate::address::Place;

/// Masks an address, which has 24 bits.
const ADDRESS_MASK: u32 = 0xFF_FFFF;

/// The address after RAM, which is 1 MiB.
pub const RAM_END: u32 = 0x10_0000;

/// The address of the first device word.
pub const DEVICES: u32 = 0xFF_FFC0;

/// Returns the target of the address `(base + off) mod 2^24`, and the address's lane in its word, from 0 (bits 7 to 0) to 3.
///
/// Words of RAM are numbered from 0 to 262,143, and device words from 0 to 15 (Project Oberon 2013, hardware chapters).
#[inline(always)]
#[tactic(auto, unfolding(crate::specs::Place::address_of, crate::specs::Place::target_of, crate::specs::Place::lane_of))]
pub const fn place(base: u32, off: i32) -> (Place, u8)
    ensures place { result.0 ≡ target_of (address_of base off) }
    ensures lane { result.1 ≡ lane_of (address_of base off) }
    ensures place_inside { IsInside result.0 }
    ensures lane_inside { result.1 < 4 }
{
    let sum = base.wrapping_add(off.cast_unsigned());
    let lane = (sum & 3) as u8;
    if sum < RAM_END {
        return (Place::Ram(sum >> 2), lane);
    }
    let address = sum & ADDRESS_MASK;
    if address < RAM_END {
        (Place::Ram(address >> 2), lane)
    } else if address >= DEVICES {
        (Place::Device((address - DEVICES >> 2) as u8), lane)
    } else {
        (Place::Nowhere, lane)
    }
}
