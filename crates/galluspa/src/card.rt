//! An SD card in the memory of a caller.
ghost use Rattle.std.specs.Prelude.{◌≡◌};
ghost use Rattle.oberon_card.specs.CardState.{card_of};
ghost use Rattle.oberon_card.specs.Transfer.{answer_of, transferred};

use oberon_card::Card;
use std::alloc::Global;

/// Does what a write of `value` to device word 4 does to an SD card, after one of `control` to device word 5, and returns what
/// word 4 reads from then on.
///
/// Any bytes are a card; all zeros but for `first` and `blocks` are one that was just powered. What the card asks of the caller is
/// in its fields: if `write_wanted` is not 0, to write `block` to the block `write_number` of the image, and after that, if
/// `read_wanted` is not 0, to read the block `read_number` of the image into `block`, both before the next call.
#[unsafe(no_mangle)]
pub extern "C" fn galluspa_card_transfer(
    _alloc: Global,
    card: &mut Card,
    control: u32,
    value: u32,
) -> u32
    ensures after { card_of card.new ≡ transferred control value (card_of card.old) }
    ensures answer { result ≡ answer_of control value (card_of card.old) }
{
    card.transfer(control, value)
}
