//! The program in its process: its arguments, and its exit status. The program itself is `serve`.
ghost use Rattle.std.specs.Prelude.{◌≡◌, ◌≢◌, IfOk, drop, map, string_bytes};
ghost use Rattle.std.specs.Process.{exit_status};
ghost use Rattle.oberon_cli.specs.Answer.{limit_for};
ghost use Rattle.oberon_cli.specs.Asked.{request_in};
ghost use Rattle.oberon_cli.specs.Reply.{AnswersAll, IsSentText, IsThreeForFaults, Replies, failure_line, failure_status};
ghost use Rattle.oberon_cli.specs.Transfer.{TakesAtMost};

use crate::failure::Failure;
use crate::service::{refuse, serve};
use crate::sink::Sink;
use crate::source::Source;
use std::alloc::{AllocError, Global};
use std::env;
use std::io::ErrorKind;
use std::process::ExitCode;
use std::rt::Env;
use std::sync::Wait;
use std::thread::Threads;

/// Returns the arguments of the process. By convention the first is the program's name, whatever starts it; a process that is
/// started with no arguments at all has none. No contract can say which these are, since the kit's `env::args` has none:
/// `tests/run programs` runs the built program with the arguments of each command.
pub fn process_arguments<H: AllocGlobal + Env>(rt: &H) -> Result<Vec<String>, Failure> {
    Ok(
        env::args(rt)
            .map_err(|error| failure_of(error.kind()))?
            .collect(rt.alloc())?,
    )
}

/// Returns why the process has no arguments: an allocation failed; or anything else, for example an argument that is not UTF-8,
/// which refuses the arguments.
fn failure_of(kind: ErrorKind) -> Failure
    ensures memory { kind ≡ ErrorKind.OutOfMemory → result ≡ Failure.Memory }
    ensures arguments { kind ≢ ErrorKind.OutOfMemory → result ≡ Failure.Words }
{
    match kind {
        ErrorKind::OutOfMemory => Failure::Memory,
        _ => Failure::Words,
    }
}

/// Borrows each argument as a `&str`, in order. Fails only if memory runs out.
pub fn texts<'a>(alloc: Global, arguments: &'a [String]) -> Result<Vec<&'a str>, AllocError>
    ensures { IfOk result (λ texts. map (λ text. text.now) texts.items ≡ map string_bytes arguments.now) }
{
    let mut texts = Vec::new(alloc);
    for argument in arguments {
        texts.push(argument.as_str())?;
    }
    Ok(texts)
}

/// Serves the arguments after the first, whatever that is, and returns the exit status: the first is the program's name by
/// convention. Without any argument it serves none, as if the name alone was there.
pub fn run<'a, H: Threads + Wait + Sync, R: Source, W: Sink>(
    rt: &H,
    alloc: Global,
    arguments: &'a [&'a str],
    input: &mut R,
    output: &mut W,
) -> ExitCode
    ensures replies { Replies (map (λ argument. argument.now) (drop 1 arguments.entry.now)) (R.known input.old) (R.known input.new)
        (W.known output.old) (W.known output.new) (exit_status result) }
    ensures answers { AnswersAll (map (λ argument. argument.now) (drop 1 arguments.entry.now)) (R.known input.old)
        (W.known output.old) (W.known output.new) (exit_status result) }
    ensures three { IsThreeForFaults (R.known input.old) (R.known input.new) (W.known output.old) (W.known output.new)
        (exit_status result) }
    ensures reads { TakesAtMost (limit_for (request_in (map (λ argument. argument.now) (drop 1 arguments.entry.now))))
        (R.known input.old) (R.known input.new) }
{
    ExitCode::from(serve(rt, alloc, after_name(arguments), input, output))
}

fn after_name<'a>(arguments: &'a [&'a str]) -> &'a [&'a str]
    ensures { result.now ≡ drop 1 arguments.now }
{
    &arguments[arguments.len().min(1)..]
}

/// Writes the line of a failure, and returns the exit status: 4 for refused arguments, 3 for the others or after a write fault.
/// Allocates nothing.
pub fn fail<W: Sink>(output: &mut W, failure: Failure) -> ExitCode
    ensures { IsSentText (failure_line failure) (failure_status failure) (W.known output.old) (W.known output.new)
        (exit_status result) }
{
    ExitCode::from(refuse(output, failure))
}
