//! What the card replies to a command, and does at it.
ghost use Rattle.std.specs.Prelude.{◌≡◌, ◌≤◌, ◌-◌, drop, length, get_or, ◌%◌, ◌^◌, if◌then◌else◌};
ghost use Rattle.oberon_card.specs.CardState.{card_of, has_block};
ghost use Rattle.oberon_card.specs.Commands.{replied, stated, reading, writing, obeyed};
ghost use Rattle.oberon_card.specs.Exchange.{argument_of};

use crate::card::{BLOCK_BYTES, Card};

/// What a card says that has nothing to say.
pub(crate) const IDLE: u8 = 255;

/// The token before the bytes of a block.
pub(crate) const START: u8 = 254;

/// The status of a card that is ready.
const READY: u8 = 0;

/// The status of a card that is not started.
const RESET: u8 = 1;

/// The status after a command that the card does not know.
const UNKNOWN: u8 = 4;

/// The status after a command for a block that the image does not have.
const NO_BLOCK: u8 = 0x40;

impl Card {
    /// Begins a reply, which is the last `count` of these bytes.
    fn reply(&mut self, bytes: [u8; 6], count: u32)
        requires few { count ≤ 6 }
        requires whole { length bytes ≡ 6 }
        ensures { card_of self.new ≡ replied (drop (6 - count) bytes) (card_of self.old) }
    {
        self.command_count = 0;
        self.application = 0;
        self.block_left = 0;
        self.reply = bytes;
        self.reply_left = count;
    }

    /// Begins a reply that is a status.
    fn state(&mut self, status: u8)
        ensures { card_of self.new ≡ stated status (card_of self.old) }
    {
        self.reply([0, 0, 0, 0, IDLE, status], 2);
    }

    /// Reports whether the image has a block.
    fn has_block(&self, number: u32) -> bool
        ensures { result ≡ has_block number (card_of self.now) }
    {
        number >= self.first && (number as u64) < self.first as u64 + self.blocks as u64
    }

    fn begin_reading(&mut self, number: u32)
        ensures { card_of self.new ≡ reading number (card_of self.old) }
    {
        if !self.has_block(number) {
            return self.state(NO_BLOCK);
        }
        self.reply([0, 0, IDLE, READY, IDLE, START], 4);
        self.block_left = BLOCK_BYTES as u32;
        self.read_wanted = 1;
        self.read_number = number;
    }

    fn begin_writing(&mut self, number: u32)
        ensures { card_of self.new ≡ writing number (card_of self.old) }
    {
        if !self.has_block(number) {
            return self.state(NO_BLOCK);
        }
        self.state(READY);
        self.awaited = 1;
        self.target = number;
    }

    /// Starts the card, if command 55 came just before.
    fn start(&mut self)
        ensures { card_of self.new ≡ stated (if (card_of self.old).application then 0 else 4) (card_of self.old) }
    {
        if self.application != 0 {
            self.state(READY)
        } else {
            self.state(UNKNOWN)
        }
    }

    /// Obeys a command.
    fn obey(&mut self, number: u8, argument: u32)
        ensures { card_of self.new ≡ obeyed number argument (card_of self.old) }
    {
        match number {
            0 => self.state(RESET),
            8 => self.reply(
                [
                    IDLE,
                    RESET,
                    0,
                    0,
                    (argument / 256 % 16) as u8,
                    (argument % 256) as u8,
                ],
                6,
            ),
            16 => self.state(READY),
            17 => self.begin_reading(argument),
            24 => self.begin_writing(argument),
            41 => self.start(),
            55 => {
                self.state(READY);
                self.application = 1;
            }
            58 => self.reply([IDLE, READY, 0xC0, 0xFF, 0, 0], 6),
            _ => self.state(UNKNOWN),
        }
    }

    /// Obeys the command whose six bytes came.
    pub(crate) fn obey_command(&mut self)
        ensures { card_of self.new ≡
            obeyed (get_or self.old.command 0 0 % 2 ^ 6) (argument_of self.old.command) (card_of self.old) }
    {
        let [first, a, b, c, d, _] = self.command;
        self.obey(first % 64, u32::from_be_bytes([a, b, c, d]));
    }
}
