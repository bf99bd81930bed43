//! Worked examples of the claim book, on one thread and on eight.
ghost use Rattle.std.specs.Prelude.{◌≡◌, All, IfOk, vec_len};
ghost use Rattle.oberon_claims.specs.Pass.{fresh_pass};

use super::gates::counters;
use oberon_claims::{Claims, Ledger, Pass};
use std::alloc::{AllocError, Global};
use std::process::Abort;
use std::sync::atomic::{AtomicU64, Ordering};
use std::test::Fail;
use std::thread::{Threads, map_vec};

/// Makes the calls of the worked example with two passes that share three jobs, and returns the answers in order.
fn answers_to_two(claims: &Claims, a: &mut Pass, b: &mut Pass) -> [Option<u32>; 8]
    requires first { a.old.book ≡ claims.now }
    requires second { b.old.book ≡ claims.now }
    ensures first { a.new.book ≡ claims.now }
    ensures second { b.new.book ≡ claims.now }
{
    let first = claims.claim(a);
    let second = claims.claim(b);
    let third = claims.claim(a);
    let past = claims.claim(b);
    let past_again = claims.claim(a);
    claims.tell(a, 5);
    let own = claims.look(a);
    claims.tell(b, 3);
    let less = claims.look(a);
    claims.tell(a, 9);
    let still = claims.look(a);
    [first, second, third, past, past_again, own, less, still]
}

/// Returns the answers of the worked example, and the result of its book.
fn answers_by_hand(alloc: Global) -> Result<([Option<u32>; 8], Ledger), Fail> {
    let (claims, mut passes) = Claims::new(alloc, 3, 2)?;
    let mut b = passes.pop().ok_or("no pass")?;
    let mut a = passes.pop().ok_or("no pass")?;
    let answers = answers_to_two(&claims, &mut a, &mut b);
    passes.push(a)?;
    passes.push(b)?;
    Ok((answers, claims.finish(passes)))
}

/// Checks the answers of several calls.
fn are_answers(rt: &impl Abort, answers: &[Option<u32>], expected: &[Option<u32>]) {
    assert!(rt;
        answers.len() == expected.len(),
        "another number of answers"
    );
    for call in 0..answers.len() {
        assert!(rt; answers[call] == expected[call], "answer {call}");
    }
}

/// Checks the result of a book: how many jobs were taken, and the least segment reported.
fn is_result(rt: &impl Abort, ledger: Ledger, taken: u32, least: Option<u32>) {
    assert!(rt; ledger.taken == taken, "another number of jobs taken");
    assert!(rt; ledger.least == least, "another least segment");
}

/// The expected answers of the worked example.
const TO_TWO: [Option<u32>; 8] = [
    Some(0),
    Some(1),
    Some(2),
    None,
    None,
    Some(5),
    Some(3),
    Some(3),
];

/// Two passes share three jobs. They also claim when no job is left, and look after the other pass reported.
#[test]
fn claims_by_hand(rt: HostRuntime) -> Result<(), Fail> {
    let (answers, ledger) = answers_by_hand(rt.alloc())?;
    are_answers(&rt, &answers, &TO_TWO);
    is_result(&rt, ledger, 3, Some(3));
    Ok(())
}

/// Claims twice and looks once with the only pass of a book without jobs, and returns the answers.
fn answers_to_one(claims: &Claims, pass: &mut Pass) -> [Option<u32>; 3]
    requires { pass.old.book ≡ claims.now }
    ensures { pass.new.book ≡ claims.now }
{
    let first = claims.claim(pass);
    let second = claims.claim(pass);
    [first, second, claims.look(pass)]
}

/// Returns the answers of a book without jobs, and its result.
fn answers_without_jobs(alloc: Global) -> Result<([Option<u32>; 3], Ledger), Fail> {
    let (claims, mut passes) = Claims::new(alloc, 0, 1)?;
    let mut pass = passes.pop().ok_or("no pass")?;
    let answers = answers_to_one(&claims, &mut pass);
    passes.push(pass)?;
    Ok((answers, claims.finish(passes)))
}

#[test]
fn no_jobs(rt: HostRuntime) -> Result<(), Fail> {
    let (answers, ledger) = answers_without_jobs(rt.alloc())?;
    are_answers(&rt, &answers, &[None, None, None]);
    is_result(&rt, ledger, 0, None);
    Ok(())
}

/// How often a thread looks for another one before it continues alone.
const TURNS: u32 = 1_000_000_000;

/// Counts a thread as begun, waits for another one, and counts it as met if it sees one.
fn meet(begun: &AtomicU64, met: &AtomicU64) {
    begun.fetch_add(1, Ordering::SeqCst);
    for _turn in 0..TURNS {
        if begun.load(Ordering::SeqCst) > 1 {
            met.fetch_add(1, Ordering::SeqCst);
            return;
        }
    }
}

/// Claims jobs until none is left, marks each job taken, and reports each that is a multiple of 7 and at least 700.
fn work(claims: &Claims, mut pass: Pass, marks: &[AtomicU64]) -> Pass
    requires { pass.book ≡ claims.now }
    ensures { result.book ≡ claims.now }
{
    for _claim in 0..=marks.len() {
        let Some(job) = claims.claim(&mut pass) else {
            break;
        };
        if let Some(mark) = marks.get(job as usize) {
            mark.fetch_add(1, Ordering::SeqCst);
        }
        if job >= 700 && job % 7 == 0 {
            claims.tell(&mut pass, job);
        }
    }
    pass
}

/// Runs each pass on its own thread, which first waits for another thread.
fn work_all<R: Threads + Sync>(
    rt: &R,
    claims: &Claims,
    passes: Vec<Pass>,
    marks: &[AtomicU64],
    begun: &AtomicU64,
    met: &AtomicU64,
) -> Result<Vec<Pass>, AllocError>
    requires { All (λ p. p ≡ fresh_pass claims.now) passes.items }
    ensures len { IfOk result (λ v. vec_len v ≡ vec_len passes) }
    ensures book { IfOk result (λ v. All (λ p. p.book ≡ claims.now) v.items) }
{
    map_vec(
        rt,
        passes,
        &|pass: Pass| -> Pass
            requires { pass ≡ fresh_pass claims.now }
            ensures { result.book ≡ claims.entry.now }
        {
            meet(begun, met);
            work(claims, pass, marks)
        },
    )
}

/// Returns the result of a book of 4,096 jobs that eight threads share, and how many of the threads met another.
fn ledger_of_eight<R: Threads + Sync>(
    rt: &R,
    alloc: Global,
    marks: &[AtomicU64],
) -> Result<(Ledger, u64), AllocError> {
    let (claims, passes) = Claims::new(alloc, 4096, 8)?;
    let begun = AtomicU64::new(0);
    let met = AtomicU64::new(0);
    let passes = work_all(rt, &claims, passes, marks, &begun, &met)?;
    Ok((claims.finish(passes), met.load(Ordering::SeqCst)))
}

/// Checks that each job was taken once.
fn are_taken_once(rt: &impl Abort, marks: &[AtomicU64]) {
    for (job, mark) in marks.iter().enumerate() {
        assert!(rt; mark.load(Ordering::SeqCst) == 1, "job {job}");
    }
}

/// Eight threads share 4,096 jobs. Each meets another, each job is taken once, and the least segment reported is known.
#[test]
fn eight_threads_share_all_jobs(rt: HostRuntime) -> Result<(), Fail> {
    let marks = counters(rt.alloc(), 4096)?;
    let (ledger, met) = ledger_of_eight(&rt, rt.alloc(), marks.as_slice())?;
    assert!(rt; met == 8, "{met} threads met another");
    is_result(&rt, ledger, 4096, Some(700));
    are_taken_once(&rt, marks.as_slice());
    Ok(())
}
