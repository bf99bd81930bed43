//! The program `refused_growth`: the state after an allocation was refused.
//!
//! It runs two small machines, reads files with faults, checks a recording and records a session, and prints what it found. With
//! ample memory nothing is refused, and it then prints what is in the file `stdout`. `tests/refused-growth` runs it with each
//! allocation refused in turn. This crate is a test: it specifies nothing beyond what the libraries answer.
#![tactic(auto)]

mod checks;
mod files;
mod trial;

use checks::checks;
use files::files;
use std::io;
use trial::Trial;

/// A jump to itself.
const JUMP: u32 = 0xE7FF_FFFF;

/// Sends one byte, 41 hexadecimal: the growth that can be refused is that of the output.
const SENDER: Trial = Trial {
    name: "sender",
    program: [0x5100_FFC8, 0x4000_0041, 0xA010_0000, JUMP],
};

/// Stores 5 in word 256, which is in another page: the growth that can be refused is that page's copy.
const WRITER: Trial = Trial {
    name: "writer",
    program: [0x4000_0005, 0xA010_0400, JUMP, 0],
};

fn main(rt: HostRuntime) -> io::Result<()> {
    SENDER.run(&rt)?;
    WRITER.run(&rt)?;
    files(&rt)?;
    checks(&rt)
}
