//! Which shard the option `--shard` asks for.
ghost use Rattle.std.specs.Prelude.{◌≡◌, ◌≤◌, ◌^◌, ◌<◌, IfSome};
ghost use Rattle.oberon_cli.specs.Asked.{whole_number};

use oberon_shards::MAX_SHARDS;
use std::str::FromStr;

/// Shard `index` of `of`, counted from 1: `2/3` is the second of three.
#[derive(Clone, Copy)]
pub struct ShardChoice {
    pub index: u32,
    pub of: u32,
}

/// The text chooses no shard.
#[derive(Clone, Copy, Debug)]
pub struct NoShard;

impl FromStr for ShardChoice {
    ghost use Rattle.oberon_cli.specs.inner.Requests.{IsChoice};

    type Err = NoShard;

    ghost from_str_gives = { λ text r. IsChoice text r };

    fn from_str(text: &str) -> Result<ShardChoice, NoShard> {
        let Some((index, of)) = text.split_once('/') else {
            return Err(NoShard);
        };
        let Some(of) = number_to(of, MAX_SHARDS) else {
            return Err(NoShard);
        };
        let Some(index) = number_to(index, of) else {
            return Err(NoShard);
        };
        Ok(ShardChoice { index, of })
    }
}

/// Returns the number that a text has in decimal digits, if it is from 1 to `high`.
fn number_to(text: &str, high: u32) -> Option<u32>
    ensures value { result ≡ whole_number 1 high text.now }
    ensures limits { IfSome result (λ number. (1 ≤ number) × (number ≤ high)) }
{
    match text.parse::<u32>() {
        Ok(number) => {
            if 1 <= number && number <= high {
                Some(number)
            } else {
                None
            }
        }
        Err(_) => None,
    }
}
