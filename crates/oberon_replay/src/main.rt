//! The program `oberon_replay`: records sessions of a Project Oberon workstation, checks and migrates recordings, and shows their
//! screens.
//! It reads standard input, writes standard output and nothing on standard error, and exits with the status of `oberon_cli::run`.
//! That is the whole program as a function over any reader and writer; this file only passes the process to it.
#![tactic(auto)]

use oberon_cli::{Failure, fail, process_arguments, run, texts};
use std::io;
use std::process::ExitCode;

fn main(rt: HostRuntime) -> ExitCode {
    let output = &mut io::writer(&rt);
    let arguments = match process_arguments(&rt) {
        Ok(arguments) => arguments,
        Err(failure) => return fail(output, failure),
    };
    match texts(rt.alloc(), &arguments) {
        Ok(texts) => run(&rt, rt.alloc(), &texts, &mut rt.stdin(), output),
        Err(error) => fail(output, Failure::from(error)),
    }
}
