//! Why shards combine to no line, and what is printed then.

use std::alloc::{AllocError, Global};

/// The longest text of shards' lines: room for five lines of each shard of a recording with the most segments.
pub const LONGEST_SHARDS: usize = 4 << 20;

/// Why shards combine to no line. Lines of a text are counted from 1.
#[derive(Clone, Copy, Debug, PartialEq, Eq)]
pub enum CombineFault {
    /// The text has more than `LONGEST_SHARDS` bytes.
    Long,
    /// This line is not one of a shard, or it is cut.
    Syntax(usize),
    /// There is no shard.
    Empty,
    /// The shard of this line is of another file than the first.
    OtherFile(usize),
    /// The shards of these two lines are not both true of any file.
    Contradiction(usize, usize),
    /// No shard has any of the segments from the first number to the last, and those before them hold.
    Missing(u32, u32),
}

impl CombineFault {
    ghost use Rattle.std.specs.Prelude.{◌≡◌, IfOk};
    ghost use Rattle.oberon_shards.specs.Combination.{combine_fault_line};

    /// Returns the line of the fault, ended by a line feed.
    pub fn line(self, alloc: Global) -> Result<Vec<u8>, AllocError>
        ensures { IfOk result (λ bytes. bytes.items ≡ combine_fault_line self) }
    {
        let line = match self {
            CombineFault::Long => format!(in alloc; "shards refused 1 long\n")?,
            CombineFault::Syntax(line) => {
                format!(in alloc; "shards refused 2 syntax at line {line}\n")?
            }
            CombineFault::Empty => format!(in alloc; "shards refused 3 empty\n")?,
            CombineFault::OtherFile(line) => {
                format!(in alloc; "shards refused 4 file at line {line}\n")?
            }
            CombineFault::Contradiction(one, other) => {
                format!(in alloc; "shards refused 5 contradiction of lines {one} and {other}\n")?
            }
            CombineFault::Missing(first, last) => {
                format!(in alloc; "shards refused 6 missing segments {first} to {last}\n")?
            }
        };
        Ok(line.into_bytes())
    }
}
