//! The table of worked rows: each is a run over devices in memory, or several runs that differ in a number, with the status, the pages,
//! the payloads and the line on `err` that must come of it. The rows lie in data/, and the head of data/rows says how they are written.
#![tactic(auto)]

mod links;
mod outcome;
mod peers;
mod row;

use outcome::holds;
use row::{read_row, runs_of};
use std::alloc::Global;
use std::net::{Net, TcpListener, TcpStream};
use std::random::RandomSource;
use std::rt::Files;
use std::sync::Wait;
use std::thread::Threads;
use std::{fs, io};

/// Plays each row of the table, and says which differ, how many hold, and how many runs those are.
fn main(rt: HostRuntime) -> io::Result<()> {
    let table = fs::read_to_string(&rt, "rows")?;
    let mut held = 0u64;
    let mut runs = 0u64;
    for line in table.lines() {
        if is_row(line) {
            let played = plays(&rt, rt.alloc(), line)?;
            held = held.saturating_add(u64::from(played > 0));
            runs = runs.saturating_add(played);
        }
    }
    println!(rt; "{held} rows of {runs} runs hold")
}

/// Whether a line of the table is a row: not empty, and no remark.
fn is_row(line: &str) -> bool {
    !line.is_empty() && !line.starts_with('#')
}

/// Plays the runs of the row of a line, up to the first that differs, and answers how many they are: none where one differs.
fn plays<
    R: Files
        + AllocGlobal
        + Print
        + Net<Listener = TcpListener, Stream = TcpStream>
        + RandomSource
        + Threads
        + Wait
        + Sync,
>(rt: &R, alloc: Global, line: &str) -> io::Result<u64> {
    let mut held = 0u64;
    let (first, end) = runs_of(line)?;
    for number in first..end {
        if !plays_run(rt, alloc, line, number)? {
            return Ok(0);
        }
        held = held.saturating_add(1);
    }
    Ok(held)
}

/// Plays one run of the row of a line, and answers whether it holds. A line that is no row, or lacks a file, is printed.
fn plays_run<
    R: Files
        + AllocGlobal
        + Print
        + Net<Listener = TcpListener, Stream = TcpStream>
        + RandomSource
        + Threads
        + Wait
        + Sync,
>(rt: &R, alloc: Global, line: &str, number: usize) -> io::Result<bool> {
    match run_holds(rt, alloc, line, number) {
        Ok(is_held) => Ok(is_held),
        Err(fault) => {
            println!(rt; "no row: {line}")?;
            Err(fault)
        }
    }
}

/// Whether one run of the row of a line holds.
fn run_holds<
    R: Files
        + AllocGlobal
        + Print
        + Net<Listener = TcpListener, Stream = TcpStream>
        + RandomSource
        + Threads
        + Wait
        + Sync,
>(rt: &R, alloc: Global, line: &str, number: usize) -> io::Result<bool> {
    let row = read_row(alloc, line, number)?;
    holds(rt, alloc, &row)
}
