//! The words of the command `bench`.

ghost use Rattle.std.specs.Prelude.{◌≤◌, ◌↔◌, IsTrue};
ghost use Rattle.net_addresses.specs.Readings.{Reads};
ghost use Rattle.program_words.specs.Answers.{texts_of};
ghost use Rattle.program_words.specs.BenchWords.{HasBenchWords, IsRounds};

use crate::serving_words::read_count;

/// The most rounds of the generated script.
const MOST_ROUNDS: u32 = 10_000;

/// The number of rounds that the words of the command `bench` write, or none where they are another command, or where what is behind it is no
/// decimal number from 1 to 10000.
pub(crate) fn bench_words(words: &[&str]) -> Option<u32>
    ensures { HasBenchWords (texts_of words.now) result }
{
    let [command, rounds] = words else {
        return None;
    };
    if *command != "bench" {
        return None;
    }
    read_rounds(rounds)
}

/// The number of rounds that a text writes in decimal, without zeros or a sign in front.
fn read_rounds(text: &str) -> Option<u32>
    ensures { Reads IsRounds text.now result }
{
    let count = read_count(text)?;
    if !may_be_rounds(count) {
        return None;
    }
    Some(count)
}

/// Whether so many rounds of the generated script may be played.
fn may_be_rounds(count: u32) -> bool
    ensures { IsTrue result ↔ ((1 ≤ count) × (count ≤ 10000)) }
{
    1 <= count && count <= MOST_ROUNDS
}
