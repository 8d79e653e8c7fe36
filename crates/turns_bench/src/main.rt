//! Registers counters in eight threads at once, each by a pass of its own, while one more thread renders pages, and prints how many counters
//! there are then:
//!
//!     turns_bench 100000 25000 20
//!
//! The numbers are those of the counters that are there before, of those that each thread registers, and of the pages.
#![tactic(auto)]

mod task;
mod turns;

use anyhow::{Result, bail};
use std::env;
use std::rt::Env;

/// The number that an argument is.
fn number(argument: Option<String>) -> Result<u64> {
    match argument {
        Some(text) => Ok(text.parse::<u64>()?),
        None => bail!("a number is missing"),
    }
}

/// The three numbers behind the program's name.
fn numbers<R: Env + AllocGlobal>(rt: &R) -> Result<[u64; 3]> {
    let mut words = env::args(rt)?.skip(1);
    Ok([
        number(words.next())?,
        number(words.next())?,
        number(words.next())?,
    ])
}

fn main(rt: HostRuntime) -> Result<()> {
    let [before, each, pages] = numbers(&rt)?;
    let counters = turns::run(&rt, rt.alloc(), before, each, pages)?;
    print!(rt; "{counters} counters\n")?;
    Ok(())
}
