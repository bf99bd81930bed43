//! The program as a function: from arguments, a reader and a writer to a status.
ghost use Rattle.std.specs.Prelude.{map, IfOk, IfErr};
ghost use Rattle.oberon_cli.specs.Answer.{limit_for};
ghost use Rattle.oberon_cli.specs.Asked.{request_in};
ghost use Rattle.oberon_cli.specs.Reply.{AnswersAll, IsSentText, IsThreeForFaults, MayFail, Replies, failure_line, failure_status};
ghost use Rattle.oberon_cli.specs.inner.Requests.{IsReply};
ghost use Rattle.oberon_cli.specs.Transfer.{TakesAtMost};

use crate::answer::answer;
use crate::arguments::{Refusal, request_in};
use crate::failure::Failure;
use crate::sink::{Sink, WriteFault, write_whole};
use crate::source::{Source, read_up_to};
use oberon_answers::Answer;
use std::alloc::Global;
use std::sync::Wait;
use std::thread::Threads;

/// Does the command of the arguments, and returns the exit status.
///
/// | arguments | what is written | status |
/// |---|---|---|
/// | none, or `check` with its options | the line of the check | 0 accepted, 1 false, 2 refused |
/// | `check --shard K/N` | the line of shard K of N | 0, whatever it found |
/// | `combine` | the line that lines of shards combine to; or the line of their first fault | that of `check`; 2 |
/// | `record` | the session's recording; the line of a fault of the session; or the line of the recorder's fault | 0; 2; 2 |
/// | `screen --at k` | the picture of the screen that checkpoint k claims; the line of a fault; or `no checkpoint k` | 0; 2; 2 |
/// | `migrate` | the same recording in version 2; or the line of a fault | 0; 2 |
/// | a request for help | `clap`'s text | 0 |
/// | others | `words refused` | 4 |
///
/// With `--disk` all but `combine` take version 3 of the file and of sessions, too, and `record` and `migrate` write version 3.
///
/// `rt` is the runtime whose threads a check uses; the program waits for nothing else. The arguments are read before the input.
/// Of the input no more than one byte beyond the longest file that the command takes is read.
///
/// If a read fails, for any cause, only `read fault` is written; if memory runs out, only `no memory`. In both cases the
/// status is 3. If a write fails, or takes nothing, a prefix of the reply was written, nothing else is written, and the status is
/// 3. It is 3 in no other case.
pub fn serve<'a, H: Threads + Wait + Sync, R: Source, W: Sink>(
    rt: &H,
    alloc: Global,
    arguments: &'a [&'a str],
    input: &mut R,
    output: &mut W,
) -> u8
    // Whatever the reader and the writer do, some reply to the arguments is written: an answer to bytes that were read up to the
    // end or to the limit, help, or the line of a failure alone. After a failed write it is a prefix of the reply.
    ensures replies { Replies (map (λ argument. argument.now) arguments.entry.now) (R.known input.old) (R.known input.new)
        (W.known output.old) (W.known output.new) result }
    // If nothing fails it is the answer to the whole input.
    ensures answers { AnswersAll (map (λ argument. argument.now) arguments.entry.now) (R.known input.old) (W.known output.old)
        (W.known output.new) result }
    ensures three { IsThreeForFaults (R.known input.old) (R.known input.new) (W.known output.old) (W.known output.new)
        result }
    ensures reads { TakesAtMost (limit_for (request_in (map (λ argument. argument.now) arguments.entry.now)))
        (R.known input.old) (R.known input.new) }
{
    match reply(rt, alloc, arguments, input) {
        Ok(answer) => send(output, &answer.bytes, answer.status),
        Err(failure) => refuse(output, failure),
    }
}

/// Writes the line of a failure, and returns its status: 4 for refused arguments, 3 for the others or after a write fault.
/// Allocates nothing.
pub fn refuse<W: Sink>(output: &mut W, failure: Failure) -> u8
    ensures { IsSentText (failure_line failure) (failure_status failure) (W.known output.old)
        (W.known output.new) result }
{
    send(output, failure.line().as_bytes(), failure.status())
}

fn send<W: Sink>(output: &mut W, bytes: &[u8], status: u8) -> u8
    ensures { IsSentText bytes.now status (W.known output.old) (W.known output.new) result }
{
    match write_whole(output, bytes) {
        Ok(()) => status,
        Err(WriteFault) => 3,
    }
}

/// Reads the input only if the arguments ask for a command.
fn reply<'a, H: Threads + Wait + Sync, R: Source>(
    rt: &H,
    alloc: Global,
    arguments: &'a [&'a str],
    input: &mut R,
) -> Result<Answer, Failure>
    ensures ok { IfOk result
        (IsReply (map (λ argument. argument.now) arguments.entry.now) (R.known input.old) (R.known input.new)) }
    ensures err { IfErr result (MayFail (map (λ argument. argument.now) arguments.entry.now) (R.known input.old)
        (R.known input.new)) }
    ensures reads { TakesAtMost (limit_for (request_in (map (λ argument. argument.now) arguments.entry.now)))
        (R.known input.old) (R.known input.new) }
{
    match request_in(alloc, arguments) {
        Ok(request) => {
            let bytes = read_up_to(alloc, input, request.limit())?;
            Ok(answer(rt, alloc, request, &bytes)?)
        }
        Err(Refusal::Help(error)) => Ok(Answer {
            bytes: error.to_string(alloc)?.into_bytes(),
            status: 0,
        }),
        Err(Refusal::Words) => Err(Failure::Words),
        Err(Refusal::Memory) => Err(Failure::Memory),
    }
}
