//! What the arguments of the command line ask for. The command line itself is in `command`.
ghost use Rattle.std.specs.Prelude.{◌≡◌, ◌+◌, ◌≤◌, ◌<◌, Some, IfSome, length, map, IfOk, IfErr, option_and_then};
ghost use Rattle.clap.specs.Words.{found_of, kind_of, rows_of, subcommand_rows_of};
ghost use Rattle.oberon_cli.specs.inner.Requests.{IsWithinLimits, RefusedBy, refusal_by};
ghost use Rattle.oberon_cli.specs.Answer.{longest_in};
ghost use Rattle.oberon_cli.specs.Asked.{check_of, request_in, number_at, request_of, versions_in, whole_check_of};

use crate::choice::ShardChoice;
use crate::command::program;
use clap::error::ErrorKind;
use clap::{ArgMatches, Error};
use oberon_check::Versions;
use oberon_claims::MAX_WORKERS;
use oberon_format::{LAST_CHECKPOINT, LONGEST_RECORDING, LONGEST_WITH_DISK};
use oberon_session::LONGEST_SESSION;
use oberon_shards::LONGEST_SHARDS;
use std::alloc::{AllocError, Global};

/// One byte more than the longest recording file. A longer input has a fault within these bytes, and no rule looks at a later
/// byte.
const RECORDING_LIMIT: usize = LONGEST_RECORDING + 1;

/// One byte more than the longest recording file with a disk.
const RECORDING_LIMIT_WITH_DISK: usize = LONGEST_WITH_DISK + 1;

/// One byte more than the longest file of a session. A longer input is refused for its length alone.
const SESSION_LIMIT: usize = LONGEST_SESSION + 1;

/// One byte more than the longest text of shards' lines. A longer input is refused for its length alone.
const SHARDS_LIMIT: usize = LONGEST_SHARDS + 1;

/// What the program is to do, in which versions of the file format.
#[derive(Clone, Copy)]
pub enum Request {
    /// Check the recording that is read: with 1 to 64 workers, in jobs of 1 to 4,096 consecutive segments.
    Check {
        versions: Versions,
        workers: u32,
        cut: u32,
    },
    /// Check a shard of the recording that is read: shard `index` of `of`, from 1, of 4,096 at most.
    Shard {
        versions: Versions,
        index: u32,
        of: u32,
    },
    /// Combine the lines of shards that are read.
    Combine,
    /// Record the session that is read.
    Record {
        versions: Versions,
    },
    /// Show the screen that a checkpoint of the recording that is read claims: checkpoint `at`, from 0 to 4,096.
    Screen {
        versions: Versions,
        at: u32,
    },
    /// Write the recording that is read in the last of the versions.
    Migrate {
        versions: Versions,
    },
}

impl Request {
    ghost use Rattle.std.specs.Prelude.{◌≡◌};
    ghost use Rattle.oberon_cli.specs.Answer.{limit_of};

    /// Returns the most bytes that the command reads.
    pub fn limit(self) -> usize
        ensures { result ≡ limit_of self }
    {
        match self {
            Request::Check { versions, .. }
            | Request::Shard { versions, .. }
            | Request::Screen { versions, .. }
            | Request::Migrate { versions } => recording_limit(versions),
            Request::Record { .. } => SESSION_LIMIT,
            Request::Combine => SHARDS_LIMIT,
        }
    }
}

/// Returns the most bytes that are read of a recording file in these versions.
fn recording_limit(versions: Versions) -> usize
    ensures { result ≡ longest_in versions + 1 }
{
    match versions {
        Versions::WithoutDisk => RECORDING_LIMIT,
        Versions::WithDisk => RECORDING_LIMIT_WITH_DISK,
    }
}

/// Why the arguments ask for none of these.
#[derive(Drop)]
pub enum Refusal {
    /// They ask for help; the error has the help text.
    Help(Error),
    /// The program does not know them.
    Words,
    /// Memory ran out while they were parsed.
    Memory,
}

impl From<AllocError> for Refusal {
    ghost use Rattle.oberon_cli.specs.declared.arguments.Refusal.{Refusal};

    ghost from_gives = { λ _ refusal. refusal ≡ Refusal.Memory };

    fn from(_error: AllocError) -> Refusal {
        Refusal::Memory
    }
}

/// Returns what the arguments ask for. No arguments ask for what `check` alone asks for.
pub fn request_in<'a>(alloc: Global, arguments: &'a [&'a str]) -> Result<Request, Refusal>
    ensures ok { IfOk result (λ request.
        request_in (map (λ argument. argument.now) arguments.entry.now) ≡ Some request) }
    ensures limits { IfOk result IsWithinLimits }
    ensures err { IfErr result (RefusedBy (map (λ argument. argument.now) arguments.entry.now)) }
{
    if arguments.is_empty() {
        return parsed(alloc, &["check"]);
    }
    parsed(alloc, arguments)
}

/// Returns what arguments ask for, from what `clap` reads.
fn parsed<'a>(alloc: Global, arguments: &'a [&'a str]) -> Result<Request, Refusal>
    requires { 0 < length arguments.now }
    ensures ok { IfOk result (λ request.
        request_in (map (λ argument. argument.now) arguments.entry.now) ≡ Some request) }
    ensures limits { IfOk result IsWithinLimits }
    ensures err { IfErr result (RefusedBy (map (λ argument. argument.now) arguments.entry.now)) }
{
    match program(alloc)?.try_get_matches_from(arguments) {
        Ok(matches) => request_of(&matches).ok_or(Refusal::Words),
        Err(error) => Err(refusal_of(error)),
    }
}

fn refusal_of(error: Error) -> Refusal
    ensures { result ≡ refusal_by (kind_of error) error }
{
    match error.kind() {
        ErrorKind::DisplayHelp => Refusal::Help(error),
        ErrorKind::OutOfMemory => Refusal::Memory,
        _ => Refusal::Words,
    }
}

fn request_of(matches: &ArgMatches<'_>) -> Option<Request>
    ensures value { result
        ≡ option_and_then (λ found. request_of found.0 found.1) (subcommand_rows_of matches.now) }
    ensures limits { IfSome result IsWithinLimits }
{
    let (name, inner) = matches.subcommand()?;
    match name {
        "check" => check_of(inner),
        "combine" => Some(Request::Combine),
        "record" => Some(Request::Record {
            versions: versions_in(inner),
        }),
        "screen" => Some(Request::Screen {
            versions: versions_in(inner),
            at: whole_number(inner, "at", 0, LAST_CHECKPOINT)?,
        }),
        "migrate" => Some(Request::Migrate {
            versions: versions_in(inner),
        }),
        _ => None,
    }
}

/// Returns the versions that a command takes: version 3 only with `--disk`.
fn versions_in(matches: &ArgMatches<'_>) -> Versions
    ensures { result ≡ versions_in (rows_of (found_of matches.now)) }
{
    let disk = matches.get_one::<bool>("disk").unwrap_or(false);
    if disk {
        Versions::WithDisk
    } else {
        Versions::WithoutDisk
    }
}

/// Returns what `check` with these options asks for. The numbers of workers and of segments in a job say nothing of a shard.
fn check_of(matches: &ArgMatches<'_>) -> Option<Request>
    ensures value { result ≡ check_of (rows_of (found_of matches.now)) }
    ensures limits { IfSome result IsWithinLimits }
{
    match matches.try_get_one::<ShardChoice>("shard") {
        Ok(Some(choice)) => Some(Request::Shard {
            versions: versions_in(matches),
            index: choice.index,
            of: choice.of,
        }),
        Ok(None) => whole_check_of(matches),
        Err(_) => None,
    }
}

/// Returns a check of the whole recording, with these options.
fn whole_check_of(matches: &ArgMatches<'_>) -> Option<Request>
    ensures value { result ≡ whole_check_of (rows_of (found_of matches.now)) }
    ensures limits { IfSome result IsWithinLimits }
{
    Some(Request::Check {
        versions: versions_in(matches),
        workers: whole_number(matches, "workers", 1, MAX_WORKERS)?,
        cut: whole_number(matches, "cut", 1, LAST_CHECKPOINT)?,
    })
}

/// Tests the range of a number again, which `clap` has tested: `number_at` speaks of any rows.
fn whole_number(matches: &ArgMatches<'_>, id: &str, low: u32, high: u32) -> Option<u32>
    ensures value { result ≡ number_at low high id.now (rows_of (found_of matches.now)) }
    ensures limits { IfSome result (λ number. (low ≤ number) × (number ≤ high)) }
{
    let number = matches.get_one::<u32>(id)?;
    if low <= number && number <= high {
        Some(number)
    } else {
        None
    }
}
