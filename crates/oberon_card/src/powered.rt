//! A card that was just powered.
ghost use Rattle.std.specs.Prelude.{◌≡◌, [], false, None, replicate};
ghost use Rattle.oberon_card.specs.CardState.{card_of};

use crate::card::{BLOCK_BYTES, COMMAND_BYTES, Card, PACKET_BYTES};

impl Card {
    /// Returns a card that was just powered, over an image of `blocks` blocks, the first of which has the number `first`.
    pub fn new(first: u32, blocks: u32) -> Card
        ensures { card_of result ≡ record {
          first = first;
          blocks = blocks;
          command = [];
          application = false;
          reply = [];
          sending = [];
          awaited = false;
          target = 0;
          packet = None;
          block = replicate 512 0;
          write = None;
          read = None;
        } }
    {
        Card {
            first,
            blocks,
            write_wanted: 0,
            write_number: 0,
            read_wanted: 0,
            read_number: 0,
            block: [0; BLOCK_BYTES],
            command_count: 0,
            application: 0,
            reply_left: 0,
            block_left: 0,
            awaited: 0,
            target: 0,
            packet_left: 0,
            command: [0; COMMAND_BYTES],
            reply: [0; COMMAND_BYTES],
            packet: [0; PACKET_BYTES],
        }
    }
}
