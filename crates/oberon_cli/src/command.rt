//! The command line as `clap` reads it: the commands, their options with ranges and defaults, and the help texts. What the
//! arguments of a run ask for is in `arguments`.
ghost use Rattle.std.specs.Prelude.{◌≡◌, IfOk, false};
ghost use Rattle.clap.specs.Simple.{new_app};
ghost use Rattle.clap.specs.Words.{app_of, rule_of};
ghost use Rattle.oberon_cli.specs.Program.{at_rule, cut_rule, disk_rule, number_rule, workers_rule};
ghost use Rattle.oberon_cli.specs.Program.{check_app, combine_app, migrate_app, program_app, record_app, screen_app};
ghost use Rattle.clap.specs.declared.builder.command.Command.TheViews.{out-Command as fields_of};

use clap::{Arg, ArgAction, Command, value_parser};
use oberon_claims::MAX_WORKERS;
use oberon_format::LAST_CHECKPOINT;
use std::alloc::{AllocError, Global};

/// Returns the command line of the program: one of five commands, with no program name before it.
pub fn program<'a>(alloc: Global) -> Result<Command<'a>, AllocError>
    ensures app { IfOk result (λ command. app_of command ≡ program_app) }
{
    let check = check(alloc)?;
    let record = record(alloc)?;
    let screen = screen(alloc)?;
    let migrate = migrate(alloc)?;
    Command::new(alloc, "oberon_replay")
        .bin_name("oberon_replay")?
        .about(
            "Records sessions of a Project Oberon workstation, checks and migrates recordings, and shows their screens",
        )
        .after_help("Example:\n  oberon_replay <face.orsr")
        .no_binary_name(true)
        .subcommand_required(true)
        .subcommand(check)?
        .subcommand(combine(alloc))?
        .subcommand(record)?
        .subcommand(screen)?
        .subcommand(migrate)
}

fn check<'a>(alloc: Global) -> Result<Command<'a>, AllocError>
    ensures app { IfOk result (λ command. app_of command ≡ check_app) }
    ensures local { IfOk result (λ command. (fields_of command).has_globals ≡ false) }
{
    command(
        alloc,
        "check",
        "Replays the recording on standard input and prints its verdict; this is the command if no arguments are given",
        "Example:\n  oberon_replay check --workers 4 <face.orsr",
    )
    .arg(workers(alloc))?
    .arg(cut(alloc))?
    .arg(number(
        alloc,
        "shard",
        "K/N",
        "Replay only shard K of N, with one worker, and print its line for combine",
    ))?
    .arg(disk(alloc))
}

fn combine<'a>(alloc: Global) -> Command<'a>
    ensures app { app_of result ≡ combine_app }
    ensures local { (fields_of result).has_globals ≡ false }
{
    command(
        alloc,
        "combine",
        "Reads the lines of the shards of a recording, in any order, and prints its verdict",
        "Example:\n  for k in 1 2 3; do oberon_replay check --shard $k/3 <face.orsr; done | oberon_replay combine",
    )
}

fn record<'a>(alloc: Global) -> Result<Command<'a>, AllocError>
    ensures app { IfOk result (λ command. app_of command ≡ record_app) }
    ensures local { IfOk result (λ command. (fields_of command).has_globals ≡ false) }
{
    command(
        alloc,
        "record",
        "Runs the session on standard input, in JSON, and prints its recording, whose check is accepted",
        "Example:\n  oberon_replay record <face.json >face.orsr",
    )
    .arg(disk(alloc))
}

fn screen<'a>(alloc: Global) -> Result<Command<'a>, AllocError>
    ensures app { IfOk result (λ command. app_of command ≡ screen_app) }
    ensures local { IfOk result (λ command. (fields_of command).has_globals ≡ false) }
{
    command(
        alloc,
        "screen",
        "Prints the screen that a checkpoint of the recording on standard input claims, as a PBM picture",
        "Example:\n  oberon_replay screen --at 1 <face.orsr >face.pbm",
    )
    .arg(at(alloc))?
    .arg(disk(alloc))
}

fn migrate<'a>(alloc: Global) -> Result<Command<'a>, AllocError>
    ensures app { IfOk result (λ command. app_of command ≡ migrate_app) }
    ensures local { IfOk result (λ command. (fields_of command).has_globals ≡ false) }
{
    command(
        alloc,
        "migrate",
        "Prints the recording on standard input in version 2 of the file format, or in version 3 with --disk",
        "Example:\n  oberon_replay migrate <old.orsr >new.orsr",
    )
    .arg(disk(alloc))
}

/// Returns a command without options. No contract says anything about help texts.
fn command<'a>(alloc: Global, name: &'a str, about: &'a str, example: &'a str) -> Command<'a>
    ensures app { app_of result ≡ new_app name.entry.now }
    ensures local { (fields_of result).has_globals ≡ false }
{
    Command::new(alloc, name).about(about).after_help(example)
}

fn workers<'a>(alloc: Global) -> Arg<'a>
    ensures rule { rule_of result ≡ workers_rule }
    ensures local { result.global ≡ false }
{
    number(
        alloc,
        "workers",
        "N",
        "How many threads replay segments, from 1 to 64",
    )
    .default_value("2")
    .value_parser(value_parser!(u32).range(1..=MAX_WORKERS as i64))
}

fn cut<'a>(alloc: Global) -> Arg<'a>
    ensures rule { rule_of result ≡ cut_rule }
    ensures local { result.global ≡ false }
{
    number(
        alloc,
        "cut",
        "N",
        "How many segments in a row a thread takes at once, from 1 to 4096",
    )
    .default_value("1")
    .value_parser(value_parser!(u32).range(1..=LAST_CHECKPOINT as i64))
}

fn at<'a>(alloc: Global) -> Arg<'a>
    ensures rule { rule_of result ≡ at_rule }
    ensures local { result.global ≡ false }
{
    number(
        alloc,
        "at",
        "K",
        "The number of the checkpoint, from 0 to 4096",
    )
    .required(true)
    .value_parser(value_parser!(u32).range(0..=LAST_CHECKPOINT as i64))
}

fn disk<'a>(alloc: Global) -> Arg<'a>
    ensures rule { rule_of result ≡ disk_rule }
    ensures local { result.global ≡ false }
{
    Arg::new(alloc, "disk")
        .long("disk")
        .help("Take version 3 of the format too, of a machine with a disk")
        .action(ArgAction::SetTrue)
}

/// Returns an option that takes one value, with its help text; no range is set yet.
fn number<'a>(alloc: Global, name: &'a str, value_name: &'a str, help: &'a str) -> Arg<'a>
    ensures rule { rule_of result ≡ number_rule name.entry.now }
    ensures local { result.global ≡ false }
{
    Arg::new(alloc, name)
        .long(name)
        .value_name(value_name)
        .help(help)
        .action(ArgAction::Set)
}
