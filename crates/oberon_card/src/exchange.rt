//! One exchange of bytes: the card says one, and hears one.
ghost use Rattle.std.specs.Prelude.{◌≡◌, ◌<◌, ◌++◌, ◌∷◌, [], ◌-◌, take, min};
ghost use Rattle.oberon_card.specs.CardState.{card_of};
ghost use Rattle.oberon_card.specs.Exchange.{said, spoken, commanded, packed, is_token, is_of_command, heard, exchanged};

use crate::card::{BLOCK_BYTES, COMMAND_BYTES, Card, PACKET_BYTES};
use crate::commands::{IDLE, START};

/// What the card says once a block came to be written: that it took it, and one byte of being busy.
const TAKEN: u8 = 5;

impl Card {
    /// Says the next byte of the reply, or of the block after it.
    fn say(&mut self) -> u8
        ensures value { result ≡ said (card_of self.old) }
        ensures after { card_of self.new ≡ spoken (card_of self.old) }
    {
        let left = self.reply_left.min(6);
        if left > 0 {
            self.reply_left = left - 1;
            return self.reply[COMMAND_BYTES - left as usize];
        }
        let left = self.block_left.min(512);
        if left > 0 {
            self.block_left = left - 1;
            return self.block[BLOCK_BYTES - left as usize];
        }
        IDLE
    }

    /// Takes a byte of a command.
    fn take_command(&mut self, byte: u8)
        ensures { card_of self.new ≡ commanded ((card_of self.old).command ++ byte ∷ []) (card_of self.old) }
    {
        let count = self.command_count.min(5);
        self.command[count as usize] = byte;
        if count < 5 {
            self.command_count = count + 1;
        } else {
            self.obey_command();
        }
    }

    /// Takes a byte of a block to be written, or of its checksum.
    fn take_packet(&mut self, byte: u8)
        requires { 0 < self.old.packet_left }
        ensures { card_of self.new ≡ packed (take (514 - self.old.packet_left) self.old.packet ++ byte ∷ []) (card_of self.old) }
    {
        let left = self.packet_left.min(514);
        self.packet[PACKET_BYTES - left as usize] = byte;
        self.packet_left = left - 1;
        if left == 1 {
            self.finish_packet();
        }
    }

    /// Has the caller write the block that came, and says so.
    fn finish_packet(&mut self)
        ensures { card_of self.new ≡ packed self.old.packet (card_of self.old) }
    {
        self.packet_left = 0;
        self.block.copy_from_slice(&self.packet[..BLOCK_BYTES]);
        self.reply = [0, 0, 0, 0, TAKEN, 0];
        self.reply_left = 2;
        self.block_left = 0;
        self.write_wanted = 1;
        self.write_number = self.target;
    }

    /// Reports whether a byte is the token that the card waits for.
    fn is_token(&self, byte: u8) -> bool
        ensures { result ≡ is_token byte (card_of self.now) }
    {
        self.awaited != 0 && byte == START
    }

    /// Reports whether a byte is one of a command.
    fn is_of_command(&self, byte: u8) -> bool
        ensures { result ≡ is_of_command byte (card_of self.now) }
    {
        self.command_count > 0 || byte / 64 == 1
    }

    /// Hears a byte, and does what it does.
    fn hear(&mut self, byte: u8)
        ensures { card_of self.new ≡ heard byte (card_of self.old) }
    {
        if self.packet_left > 0 {
            return self.take_packet(byte);
        }
        if self.is_token(byte) {
            self.awaited = 0;
            self.packet_left = PACKET_BYTES as u32;
        } else if self.is_of_command(byte) {
            self.take_command(byte);
        }
    }

    /// Exchanges a byte, and returns the one that the card says.
    pub(crate) fn exchange(&mut self, byte: u8) -> u8
        ensures value { result ≡ said (card_of self.old) }
        ensures after { card_of self.new ≡ exchanged byte (card_of self.old) }
    {
        let answer = self.say();
        self.hear(byte);
        answer
    }
}
