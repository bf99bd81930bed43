//! A transfer by device word 4.
ghost use Rattle.std.specs.Prelude.{◌≡◌};
ghost use Rattle.oberon_card.specs.CardState.{card_of};
ghost use Rattle.oberon_card.specs.Transfer.{is_selected, is_fast, transferred, answer_of};

use crate::card::Card;
use crate::commands::IDLE;

/// Reports whether a control word selects the card, by bit 0.
fn is_selected(control: u32) -> bool
    ensures { result ≡ is_selected control }
{
    control % 2 == 1
}

/// Reports whether a control word makes a transfer one of four bytes, by bit 2.
fn is_fast(control: u32) -> bool
    ensures { result ≡ is_fast control }
{
    control / 4 % 2 == 1
}

impl Card {
    /// Does what a write of `value` to device word 4 does, after one of `control` to device word 5, and returns what word 4 reads
    /// from then on.
    ///
    /// Any number is taken for either. The caller has done what the card asked for after the transfer before ([`Card::wants`]);
    /// else a block that is read is what `block` has, and one that was to be written is lost.
    pub fn transfer(&mut self, control: u32, value: u32) -> u32
        ensures after { card_of self.new ≡ transferred control value (card_of self.old) }
        ensures answer { result ≡ answer_of control value (card_of self.old) }
    {
        self.write_wanted = 0;
        self.read_wanted = 0;
        if !is_selected(control) {
            self.command_count = 0;
            return IDLE as u32;
        }
        let [first, second, third, fourth] = value.to_le_bytes();
        if !is_fast(control) {
            return self.exchange(first) as u32;
        }
        u32::from_le_bytes([
            self.exchange(first),
            self.exchange(second),
            self.exchange(third),
            self.exchange(fourth),
        ])
    }
}
