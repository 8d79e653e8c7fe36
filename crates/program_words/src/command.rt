//! The words of the command line: which command they write, with what it is told.

ghost use Rattle.std.specs.Prelude.{IfOk, IsTrue, ◌≡◌, ◌∷◌, ◌↔◌, []};
ghost use Rattle.program_words.specs.Answers.{texts_of};
ghost use Rattle.program_words.specs.Commands.{HasCommand};

use crate::agent::drive_address;
use crate::bench_words::bench_words;
use crate::serving_words::serve_words;
use dsd_addresses::RemoteAddr;
use metrics_core::Memory;
use net_addresses::Network;
use std::alloc::Global;

/// What the words of the command line ask for.
#[derive(Drop)]
pub enum Command {
    /// A script is played, and its payloads go to an address.
    Drive(RemoteAddr),
    /// The page of a script is served to so many connections, and shown to the peers of these networks, or to all where there is none.
    Serve(u32, Vec<Network>),
    /// So many rounds of the generated script are played.
    Bench(u32),
    /// Pages become one page.
    Merge,
    /// Payloads become a page.
    Receive,
    /// Rules are held to pages.
    Rules,
}

/// The command that the words write, or none where they write none.
pub(crate) fn read_command(alloc: Global, words: &[&str]) -> Result<Option<Command>, Memory>
    ensures { IfOk result (HasCommand (texts_of words.now)) }
{
    if is_word(words, "merge") {
        return Ok(Some(Command::Merge));
    }
    if is_word(words, "receive") {
        return Ok(Some(Command::Receive));
    }
    if is_word(words, "rules") {
        return Ok(Some(Command::Rules));
    }
    if let Some(to) = drive_address(alloc, words)? {
        return Ok(Some(Command::Drive(to)));
    }
    if let Some(rounds) = bench_words(words) {
        return Ok(Some(Command::Bench(rounds)));
    }
    match serve_words(alloc, words)? {
        Some((count, networks)) => Ok(Some(Command::Serve(count, networks))),
        None => Ok(None),
    }
}

/// Whether the words are one word, and this one.
fn is_word(words: &[&str], word: &str) -> bool
    ensures { IsTrue result ↔ (texts_of words.now ≡ word.now ∷ []) }
{
    match words {
        [only] => *only == word,
        _ => false,
    }
}
