//! The check of a recording in shards: each shard is a stretch of segments, checked on any machine, and the answers of all shards
//! combine to the line of one uninterrupted replay.
//!
//! Nothing here reads, writes, waits or starts a thread. A job scheduler carries recordings and answers between machines.
#![tactic(auto)]

mod border;
mod combining;
mod fault;
mod laws;
mod reading;
mod report;
mod said;
mod shard;
mod sharding;

pub use border::MAX_SHARDS;
pub use combining::combine;
pub use fault::{CombineFault, LONGEST_SHARDS};
pub use laws::{complete_law, one_file_law, reading_law, shard_limits_law};
pub use report::{combine_lines, shard_line, shard_line_in};
pub use shard::{Finding, Shard};
pub use sharding::{check_shard, check_shard_in};
