//! What the card asks of its caller.
ghost use Rattle.std.specs.Prelude.{◌≡◌};
ghost use Rattle.oberon_card.specs.CardState.{card_of};
ghost use Rattle.oberon_card.specs.Wants.{wanted};

use crate::card::Card;

/// What the caller of a card is to do before the next transfer.
#[derive(Clone, Copy)]
pub enum Wants {
    /// Nothing.
    Nothing,
    /// Read the block of this number into the card's `block`.
    Read(u32),
    /// Write the card's `block` to the block of this number.
    Write(u32),
    /// Write the card's `block` to the first of these blocks, and then read the second one into it.
    WriteThenRead(u32, u32),
}

impl Card {
    /// Returns what the last transfer asks of the caller.
    pub fn wants(&self) -> Wants
        ensures { result ≡ wanted (card_of self.now).write (card_of self.now).read }
    {
        match (self.write_wanted != 0, self.read_wanted != 0) {
            (false, false) => Wants::Nothing,
            (false, true) => Wants::Read(self.read_number),
            (true, false) => Wants::Write(self.write_number),
            (true, true) => Wants::WriteThenRead(self.write_number, self.read_number),
        }
    }
}
