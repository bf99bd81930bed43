//! What is known of a shard: which segments were replayed, and what was found.
ghost use Rattle.std.specs.Prelude.{◌≡◌};
ghost use Rattle.oberon_shards.specs.Shard.{finding_word, finding_status};

use hex::encode;
use std::alloc::{AllocError, Global};

/// What the replay of a shard's segments found.
#[derive(Clone, Copy, Debug, PartialEq, Eq)]
pub enum Finding {
    /// All of them hold.
    Holds,
    /// The last one fails, and those before it hold.
    Fails,
    /// The bytes are no recording.
    Refused,
}

impl Finding {
    /// Returns the exit status: 0 holds, 1 fails, 2 refused.
    pub fn status(self) -> u8
        ensures { result ≡ finding_status self }
    {
        match self {
            Finding::Holds => 0,
            Finding::Fails => 1,
            Finding::Refused => 2,
        }
    }

    /// Returns the word of the finding in a shard's line.
    pub fn word(self) -> &'static str
        ensures { result.now ≡ finding_word self }
    {
        match self {
            Finding::Holds => "holds",
            Finding::Fails => "fails",
            Finding::Refused => "refused",
        }
    }
}

/// The answer of a shard.
#[derive(Debug, Drop)]
pub struct Shard {
    /// The SHA-256 digest of the bytes of the file, which names it.
    pub digest: [u8; 32],
    /// The first segment that was replayed.
    pub from: u32,
    /// The segment after the last that was replayed. If the shard fails, the number of the checkpoint that is false if checkpoint
    /// `from` is true.
    pub to: u32,
    /// The number of segments of the recording.
    pub last: u32,
    /// What was found.
    pub finding: Finding,
    /// The count of the last checkpoint, if the shard holds; that of the false one, if it fails; or the byte of the fault.
    pub count: u64,
    /// The line of the whole recording, if this shard decides it.
    pub line: Vec<u8>,
}

impl Shard {
    ghost use Rattle.std.specs.Prelude.{◌≡◌, IfOk};
    ghost use Rattle.oberon_shards.specs.Shard.{shard_line};

    /// Returns the shard's line, ended by a line feed.
    pub fn text(&self, alloc: Global) -> Result<Vec<u8>, AllocError>
        ensures { IfOk result (λ bytes. bytes.items ≡ shard_line self.now) }
    {
        let digest = encode(alloc, &self.digest[..])?;
        let from = self.from;
        let to = self.to;
        let last = self.last;
        let finding = self.finding.word();
        let head = format!(in alloc; "shard {digest} {from} {to} {last} {finding}: ")?;
        let mut bytes = head.into_bytes();
        bytes.extend_from_slice(&self.line)?;
        Ok(bytes)
    }
}
