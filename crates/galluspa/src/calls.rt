//! The calls of a run of a machine in the memory of a caller.
ghost use Rattle.std.specs.Prelude.{◌≡◌, ◌≢◌, ◌≤◌, ◌<◌, ◌-◌, ◌⊎◌, ◌↔◌, [], length, map, take, drop};
ghost use Rattle.std.specs.Prelude.{All, IfErr, IfOk, IsTrue, OnErr, OnOk};
ghost use Rattle.risc_machine.specs.CallLogs.{HasRoom, IsReserved};
ghost use Rattle.risc_model.specs.MachineState.{cpu_state};
ghost use Rattle.risc_pages.specs.declared.sizes.TheConstants.{MEMORY_WORDS};
ghost use Rattle.galluspa.specs.Calls.{AreLeftOpen, HasFollowed, IsInCallsRange, IsPossible, raw_turn};
ghost use Rattle.galluspa.specs.Raw.{IsWhole, IsWritten, cpu_of, devices_of, state_of};
ghost use Rattle.galluspa.specs.inner.Following.{IsAsDeep, IsFollowedRun};

use crate::advance::{are_in_order, inputs_of};
use crate::raw::{RawInput, RawState, parts_of, state_of};
use crate::refusal::{DONE, OUT_OF_MEMORY, OUT_OF_RANGE, RangeOrMemory};
use crate::words::{paged, write_delta};
use risc_devices::Devices;
use risc_machine::{CallLog, Machine};
use risc_model::{Call, Cpu, Inputs, Turn};
use risc_pages::MEMORY_WORDS;
use std::alloc::{AllocError, Global};

/// What `at` of a turn is where no call is made.
const NO_CALL: u32 = u32::MAX;

/// A count at which the open calls change, and the call that is made: 32 bytes.
#[repr(C)]
#[derive(Clone, Copy)]
pub struct RawTurn {
    /// The count.
    pub count: u64,
    /// How many of the open calls stay open, the oldest ones.
    pub stay: u64,
    /// The word of the branch that makes a call, or 2^32 - 1 if none is made; then the three others are 0.
    pub at: u32,
    /// The word that it goes to.
    pub to: u32,
    /// The word after the branch, to which the call returns.
    pub back: u32,
    /// R14, the stack pointer.
    pub sp: u32,
}

fn raw_turn(turn: &Turn) -> RawTurn
    ensures { result ≡ raw_turn turn.now }
{
    let count = turn.count;
    let stay = turn.stay;
    match turn.call {
        Some(call) => RawTurn {
            count,
            stay,
            at: call.at,
            to: call.to,
            back: call.back,
            sp: call.sp,
        },
        None => RawTurn {
            count,
            stay,
            at: NO_CALL,
            to: 0,
            back: 0,
            sp: 0,
        },
    }
}

/// Writes turns to the front of `out`, which has room for them. What is after them stays as it was.
fn write_turns(turns: &[Turn], out: &mut [RawTurn])
    requires { length turns.now ≤ length out.old }
    ensures front { take (length turns.now) out.new ≡ map raw_turn turns.now }
    ensures rest { drop (length turns.now) out.new ≡ drop (length turns.now) out.old }
{
    for index in 0..turns.len() {
        out[index] = raw_turn(&turns[index]);
    }
}

/// Writes calls to the front of `out`, which has room for them. What is after them stays as it was.
fn write_calls(calls: &[Call], out: &mut [Call])
    requires { length calls.now ≤ length out.old }
    ensures front { take (length calls.now) out.new ≡ calls.now }
    ensures rest { drop (length calls.now) out.new ≡ drop (length calls.now) out.old }
{
    let (front, _) = out.split_at_mut(calls.len());
    front.copy_from_slice(calls);
}

/// Writes the open calls and the turns of a log to the front of two lists, which have room for them, and their numbers.
pub(crate) fn write_log(
    log: &CallLog,
    calls: &mut [Call],
    calls_count: &mut usize,
    turns: &mut [RawTurn],
    turns_count: &mut usize,
)
    requires calls { length log.now.calls.items ≤ length calls.old }
    requires turns { length log.now.turns.items ≤ length turns.old }
    ensures calls { take calls_count.new calls.new ≡ log.now.calls.items }
    ensures turns { take turns_count.new turns.new ≡ map raw_turn log.now.turns.items }
    ensures calls_rest { drop calls_count.new calls.new ≡ drop calls_count.new calls.old }
    ensures turns_rest { drop turns_count.new turns.new ≡ drop turns_count.new turns.old }
    ensures calls_count { calls_count.new ≡ length log.now.calls.items }
    ensures turns_count { turns_count.new ≡ length log.now.turns.items }
{
    write_calls(&log.calls, calls);
    *calls_count = log.calls.len();
    write_turns(&log.turns, turns);
    *turns_count = log.turns.len();
}

/// Reports whether a run up to a count can have left these calls open: each branch is in memory and returns to the next word, their
/// counts rise and are below the count, and R14 falls along those whose R14 is at most `limit`.
pub(crate) fn are_open(calls: &[Call], limit: u32, count: u64) -> bool
    ensures { IsTrue result ↔ AreLeftOpen limit count calls.now }
{
    // Of the calls from `next` on: the least count, and the highest R14 of the stack.
    let mut least = count;
    let mut highest = 0;
    let mut next = calls.len();
    while next > 0 {
        let index = next - 1;
        let call = &calls[index];
        if !comes_before(call, least, highest) {
            return false;
        }
        least = call.count;
        highest = higher(call, limit, highest);
        next = index;
    }
    true
}

/// Reports whether a call is possible, was made before all counts from `least` on, and has R14 at `highest` or above.
fn comes_before(call: &Call, least: u64, highest: u32) -> bool
    ensures { IsTrue result ↔ ((call.now.count < least) × (highest ≤ call.now.sp) × IsPossible call.now) }
{
    call.count < least && highest <= call.sp && call.at < MEMORY_WORDS && call.back == call.at + 1
}

/// Returns R14 of a call, if it is at most `limit`, or else what was the highest before.
fn higher(call: &Call, limit: u32, highest: u32) -> u32
    requires { highest ≤ call.now.sp }
    ensures { IsAsDeep limit call.now.sp highest result }
{
    if call.sp <= limit { call.sp } else { highest }
}

/// Writes nothing before the machine is closed, the last step that can be refused.
fn follow_machine(
    mut machine: Machine<'_>,
    state: &mut RawState,
    words: &mut [u32],
    inputs: &Inputs,
    to: u64,
    log: &mut CallLog,
) -> Result<(), AllocError>
    requires state { machine.state ≡ state_of state.old words.old }
    requires base { machine.base ≡ words.old }
    requires words { length words.old ≡ MEMORY_WORDS }
    requires forward { state.old.count ≤ to }
    requires room { HasRoom log.old }
    requires reserved { IsReserved log.old }
    requires fresh { log.old.turns.items ≡ [] }
    requires are_open { AreLeftOpen log.old.limit state.old.count log.old.calls.items }
    ensures run { OnOk result (IsFollowedRun inputs.now to state.old words.old state.new words.new log.old log.new) }
    ensures unchanged { OnErr result ((state.new ≡ state.old) × (words.new ≡ words.old)) }
{
    let Ok(reached) = machine.follow_calls(inputs, state.count, to, log) else {
        return Err(AllocError);
    };
    // The contract of `owned` states that a memory has all its words.
    let _owned = machine.memory().owned(0);
    let (cpu, devices, delta) = machine.close()?;
    *state = state_of(reached, &cpu, &devices);
    write_delta(&delta, words);
    Ok(())
}

/// Copies the words into pages, starts a machine on these with `parts`, and follows its calls as `follow_machine` does.
fn follow_parts(
    alloc: Global,
    parts: (Cpu, Devices),
    state: &mut RawState,
    words: &mut [u32],
    inputs: &Inputs,
    to: u64,
    log: &mut CallLog,
) -> Result<(), AllocError>
    requires cpu { cpu_state parts.0 ≡ cpu_of state.old }
    requires devices { parts.1 ≡ devices_of state.old }
    requires whole { IsWhole state.old words.old }
    requires forward { state.old.count ≤ to }
    requires room { HasRoom log.old }
    requires reserved { IsReserved log.old }
    requires fresh { log.old.turns.items ≡ [] }
    requires are_open { AreLeftOpen log.old.limit state.old.count log.old.calls.items }
    ensures run { OnOk result (IsFollowedRun inputs.now to state.old words.old state.new words.new log.old log.new) }
    ensures unchanged { OnErr result ((state.new ≡ state.old) × (words.new ≡ words.old)) }
{
    let (pool, table) = paged(alloc, words)?;
    let (cpu, devices) = parts;
    let machine = Machine::start(alloc, &pool, &table, cpu, devices)?;
    follow_machine(machine, state, words, inputs, to, log)
}

/// Tests all numbers before it allocates. Returns the log, with what a caller gets.
fn follow(
    alloc: Global,
    state: &mut RawState,
    words: &mut [u32],
    inputs: &[RawInput],
    to: u64,
    limit: u32,
    calls: &[Call],
    count: usize,
    room: usize,
) -> Result<CallLog, RangeOrMemory>
    ensures followed { IfOk result (λ log. HasFollowed inputs.now to limit state.old words.old (take count calls.now) room (length calls.now)
        state.new words.new log.calls.items (map raw_turn log.turns.items)) }
    ensures written { OnOk result (IsWritten state.new words.new) }
    ensures again { IfOk result (λ log. AreLeftOpen limit state.new.count log.calls.items) }
    ensures held { IfOk result (λ log. (length log.calls.items ≤ length calls.now) × (length log.turns.items ≤ room)) }
    ensures in_range { OnOk result (IsInCallsRange inputs.now to limit state.old words.old calls.now count room) }
    ensures unchanged { OnErr result ((state.new ≡ state.old) × (words.new ≡ words.old)) }
    ensures memory { IfErr result (λ refusal.
        refusal ≢ RangeOrMemory.Range → IsInCallsRange inputs.now to limit state.old words.old calls.now count room) }
    ensures range { IfErr result (λ refusal.
        refusal ≡ RangeOrMemory.Range → ¬ (IsInCallsRange inputs.now to limit state.old words.old calls.now count room)) }
{
    if to < state.count || count >= calls.len() || room == 0 {
        return Err(RangeOrMemory::Range);
    }
    let present = &calls[..count];
    if !are_in_order(inputs) || !are_open(present, limit, state.count) {
        return Err(RangeOrMemory::Range);
    }
    let Some(parts) = parts_of(state, words) else {
        return Err(RangeOrMemory::Range);
    };
    let inputs = inputs_of(alloc, inputs)?;
    let mut log = CallLog::new(alloc, present, limit, calls.len(), room)?;
    follow_parts(alloc, parts, state, words, &inputs, to, &mut log)?;
    Ok(log)
}

/// Runs a machine from the count of its state up to the count `to`, or to the first count at which `calls` or `turns` is full, with
/// the inputs of these counts, and follows its calls. The bytes that it sends are dropped. Returns 0 (`DONE`).
///
/// The first `calls_count` of `calls` are those that are open at the state's count, oldest first. It writes there those that are open at the
/// count that it reached, which is the state's then, and to `turns` the counts at which they changed; and the numbers of both. `limit` is
/// the highest R14 of the stack. So the next call goes on from what this one left.
///
/// Otherwise nothing is written, and the result is 1 (`OUT_OF_RANGE`) if `words` is not of 262,144 words, `to` is below the count of the
/// state, a number of the state or of an input is out of its range, the inputs' counts fall or are above 2^40, `turns` is empty, `calls` has
/// no room for another call, or the given calls are none that a run up to the state's count leaves open; and 3 (`OUT_OF_MEMORY`) if all is in
/// range and memory ran out.
#[unsafe(no_mangle)]
pub extern "C" fn galluspa_calls(
    alloc: Global,
    state: &mut RawState,
    words: &mut [u32],
    inputs: &[RawInput],
    to: u64,
    limit: u32,
    calls: &mut [Call],
    calls_count: &mut usize,
    turns: &mut [RawTurn],
    turns_count: &mut usize,
) -> u8
    ensures followed { result ≡ DONE →
        HasFollowed inputs.now to limit state.old words.old (take calls_count.old calls.old) (length turns.old) (length calls.old)
        state.new words.new (take calls_count.new calls.new) (take turns_count.new turns.new) }
    ensures written { result ≡ DONE → IsWritten state.new words.new }
    ensures again { result ≡ DONE → AreLeftOpen limit state.new.count (take calls_count.new calls.new) }
    ensures room { result ≡ DONE → (calls_count.new ≤ length calls.old) × (turns_count.new ≤ length turns.old) }
    ensures rest { result ≡ DONE →
        (drop calls_count.new calls.new ≡ drop calls_count.new calls.old) × (drop turns_count.new turns.new ≡ drop turns_count.new turns.old) }
    ensures unchanged { result ≢ DONE → (state.new ≡ state.old) × (words.new ≡ words.old) }
    ensures unwritten { result ≢ DONE → (calls.new ≡ calls.old) × (calls_count.new ≡ calls_count.old)
        × (turns.new ≡ turns.old) × (turns_count.new ≡ turns_count.old) }
    ensures in_range { result ≢ OUT_OF_RANGE →
        IsInCallsRange inputs.now to limit state.old words.old calls.old calls_count.old (length turns.old) }
    ensures range { result ≡ OUT_OF_RANGE →
        ¬ (IsInCallsRange inputs.now to limit state.old words.old calls.old calls_count.old (length turns.old)) }
    ensures codes { (result ≤ OUT_OF_RANGE) ⊎ (result ≡ OUT_OF_MEMORY) }
{
    match follow(
        alloc,
        state,
        words,
        inputs,
        to,
        limit,
        &*calls,
        *calls_count,
        turns.len(),
    ) {
        Ok(log) => {
            write_log(&log, calls, calls_count, turns, turns_count);
            DONE
        }
        Err(RangeOrMemory::Range) => OUT_OF_RANGE,
        Err(RangeOrMemory::Memory) => OUT_OF_MEMORY,
    }
}
