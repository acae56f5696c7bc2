//! Checks cases that are written by hand, and what the original returned for others.
//!
//! `perf_replay` reads a list from standard input: for each case the bytes, what a parser over them
//! is asked for, and what it returns. It asks over a slice, buffered readers and pieces, prints
//! each result that differs, and then the numbers of cases, of results and of those that differ.
//! The exit status is 0 if none differs. A line is a word and what follows it:
//!
//! - `case NAME` begins a case, in which nothing is set yet.
//! - `under FIELD=NUMBER ..` is the attribute: `sample_type`, `read_format`, `flags`,
//!   `branch_sample_type`, `sample_regs_user` and `sample_regs_intr`, 0 if they are not named.
//! - `bytes DIGITS ..`, `zeros COUNT`, and `u16`, `u32` and `u64 NUMBER ..` are the bytes, one
//!   after another. The first such line after an answer replaces the bytes before.
//! - `ask WORD ..` asks a parser ([`asks`]); after the line `big` in big endian, and
//!   after `little` in little endian again.
//! - `run LIMIT ..` reads the records of a stream, each time at most that many, and
//!   `after LIMIT ..` those after the attribute at the start of the bytes. Each frame is its line
//!   of `perfrec`, and after that what it leaves out ([`perf_test_helpers::lines`]).
//! - `shown` is the `{:?}` of the records of a slice: bytes that are its own are `Borrowed`.
//! - `sample LEFT` reads a sample, alone and as a frame, after which that many bytes are left, in
//!   little and in big endian.
//! - `perfrec WORD ..` is what that program writes, its lines one after another, and its status.
//! - `refused CALL ..` is why these calls refuse the first frame ([`perf_test_texts::reasons`]).
//! - `= ANSWER` is the result. What is set stays, so that several results may follow one input.
//! - `> LINE` or `~ LINE` is a line of a longer result, of which `=` has the rest, such as the
//!   status of `perfrec`. `make.py` writes the cases that have such lines, and its README explains
//!   which (`tools/answers`).
//! - `#` begins a remark.
#![tactic(auto)]

mod asks;
mod case;
mod perfrec;

use crate::case::Case;
use anyhow::Result;
use std::io;
use std::process::ExitCode;

// The numbers of cases, of results, and of results that differ.
#[derive(Copy, Clone)]
struct Counts {
    cases: u64,
    answers: u64,
    differences: u64,
}

fn main(rt: HostRuntime) -> Result<ExitCode> {
    let list = io::read_to_string(rt.alloc(), rt.stdin())?;
    let mut counts = Counts {
        cases: 0,
        answers: 0,
        differences: 0,
    };
    replay_all(&rt, &mut counts, list.as_str())?;
    let Counts {
        cases,
        answers,
        differences,
    } = counts;
    println!(rt; "{cases} cases, {answers} answers, {differences} differences")?;
    if differences == 0 {
        Ok(ExitCode::SUCCESS)
    } else {
        Ok(ExitCode::FAILURE)
    }
}

// Does what a list specifies.
fn replay_all(rt: &HostRuntime, counts: &mut Counts, list: &str) -> Result<()> {
    let mut case = Case::new(rt.alloc(), "");
    let replayed = replay_lines(rt, counts, &mut case, list);
    drop(case);
    replayed
}

// Does what each line specifies.
fn replay_lines<'a>(
    rt: &HostRuntime,
    counts: &mut Counts,
    case: &mut Case<'a>,
    list: &'a str,
) -> Result<()> {
    for line in list.lines() {
        replay(rt, counts, case, line)?;
    }
    Ok(())
}

// Does what a line specifies.
fn replay<'a>(
    rt: &HostRuntime,
    counts: &mut Counts,
    case: &mut Case<'a>,
    line: &'a str,
) -> Result<()> {
    let (word, rest) = line.split_once(' ').unwrap_or((line, ""));
    match word {
        "case" => {
            case.begin(rest);
            counts.cases = counts.cases.wrapping_add(1);
        }
        "=" => {
            let difference = compare(rt, case, rest)?;
            counts.answers = counts.answers.wrapping_add(1);
            counts.differences = counts.differences.wrapping_add(difference);
        }
        "#" | "" => {}
        _ => case.set(word, rest)?,
    }
    Ok(())
}

// Prints a result that differs, and returns the number of differences.
fn compare(rt: &HostRuntime, case: &mut Case, rest: &str) -> Result<u64> {
    let want = case.expectation(rest)?;
    let actual = case.actual_text()?;
    if actual.as_str() == want.as_str() {
        return Ok(0);
    }
    println!(rt; "{}: {actual}, not {want}", case.name())?;
    Ok(1)
}
