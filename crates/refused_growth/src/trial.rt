//! A machine that runs a program for four instructions, and continues after a refusal.

ghost use Rattle.std.specs.Prelude.{◌≡◌, ◌≤◌, ◌<◌, All, IfOk, length};

use risc_devices::Devices;
use risc_machine::{Machine, RunFault};
use risc_model::{Cpu, Flags, Inputs};
use risc_pages::{PAGE_WORDS, Page, Pool, Table};
use std::alloc::{AllocError, Global};
use std::io;

/// The number of instructions that a trial runs.
const STEPS: u64 = 4;

/// The instructions in a millisecond of the timer: a refused instruction is counted once, when it is done.
const RATE: u32 = 3;

/// A program from word 0 on, in a memory that is zero elsewhere.
#[derive(Clone, Copy)]
pub(crate) struct Trial {
    pub name: &'static str,
    pub program: [u32; 4],
}

impl Trial {
    /// Runs the program, prints what was refused and the state then, continues from there, and prints the state that it reaches.
    pub(crate) fn run<H: AllocGlobal + Print>(&self, rt: &H) -> io::Result<()> {
        let alloc = rt.alloc();
        let mut output = Vec::new(alloc);
        let Ok(pool) = self.pool(alloc) else {
            return println!(rt; "{}: no room to begin", self.name);
        };
        let Ok(inputs) = Inputs::new(Vec::new(alloc)) else {
            return println!(rt; "{}: no inputs are out of order", self.name);
        };
        let Ok(mut machine) = start(alloc, &pool) else {
            return println!(rt; "{}: no room to begin", self.name);
        };
        match machine.run(&inputs, 0, STEPS, &mut output) {
            Ok(()) => println!(rt; "{}: not refused", self.name)?,
            Err(fault) => {
                println!(rt; "{}: refused at {}", self.name, fault.at)?;
                self.show(rt, &machine, &output)?;
                let went_on = go_on(&mut machine, &inputs, fault, &mut output);
                if went_on.is_err() {
                    return println!(rt; "{}: refused again", self.name);
                }
            }
        }
        self.show(rt, &machine, &output)
    }

    /// Returns the pool with the one page of the program.
    fn pool(&self, alloc: Global) -> Result<Pool, AllocError>
        ensures { IfOk result (λ pool. length pool ≡ 1) }
    {
        let mut pool = Pool::new(alloc);
        let mut page = *pool.page(0);
        write(&mut page, 0, self.program[0]);
        write(&mut page, 1, self.program[1]);
        write(&mut page, 2, self.program[2]);
        write(&mut page, 3, self.program[3]);
        pool.push(page)?;
        Ok(pool)
    }

    /// Prints the parts of the machine that its program changes, and its output.
    fn show<H: Print>(&self, rt: &H, machine: &Machine, output: &[u8]) -> io::Result<()> {
        let cpu = machine.cpu();
        let devices = machine.devices();
        let memory = machine.memory();
        println!(rt;
            "{}: R0 {:08X}, PC {}, timer {}, phase {}, word 256 {:08X}, slot 1 owned {}, sent {:?}",
            self.name,
            cpu.r[0],
            cpu.pc,
            devices.timer(),
            devices.phase(),
            memory.read(256),
            memory.owned(1),
            output
        )
    }
}

/// Writes a word of a page.
fn write(page: &mut Page, index: usize, word: u32)
    requires { index < PAGE_WORDS }
{
    page.words[index] = word;
}

/// Returns the table with the pool's first page in slot 0 and zeros elsewhere.
fn first_slot() -> Table
    ensures { All (λ n. n ≤ 1) result.numbers }
{
    let mut table = Table::zeros();
    table.set(0, 1);
    table
}

/// Returns the machine with all zeros, except the page of the program in slot 0 and the timer's rate.
fn start(alloc: Global, pool: &Pool) -> Result<Machine<'_>, AllocError>
    requires { length pool.now ≡ 1 }
{
    let Ok(devices) = Devices::with_timer(0, RATE, 0) else {
        return Err(AllocError);
    };
    let flags = Flags {
        n: false,
        z: false,
        c: false,
        v: false,
    };
    let cpu = Cpu {
        r: [0; 16],
        h: 0,
        pc: 0,
        flags,
        stop: 0,
    };
    Machine::start(alloc, pool, &first_slot(), cpu, devices)
}

/// Continues after a refusal: does the instruction that was refused, whose inputs were taken, and runs on from the next.
fn go_on(
    machine: &mut Machine,
    inputs: &Inputs,
    fault: RunFault,
    output: &mut Vec<u8>,
) -> Result<(), AllocError>
    requires { fault.at < 4 }
{
    if let Some(byte) = machine.step()? {
        output.push(byte)?;
    }
    match machine.run(inputs, fault.at + 1, STEPS, output) {
        Ok(()) => Ok(()),
        Err(_) => Err(AllocError),
    }
}
