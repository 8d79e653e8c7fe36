//! The calls of a round of the generated script, each from a number that is drawn.

ghost use Rattle.std.specs.Prelude.{◌≡◌, ℕ, ◌+◌, ◌*◌, ◌<◌, IfOk, OnOk, map};
ghost use Rattle.bench_scripts.specs.Bench.{bench_call, calls_of_round};
ghost use Rattle.bench_scripts.specs.Drawing.{HasDrawn};
ghost use Rattle.bench_scripts.specs.Generator.{draw};
ghost use Rattle.drive_script.specs.Texts.{call_line_of};
ghost use Rattle.metrics_core.specs.Numbers.{whole};

use drive_script::{Act, CallLine};
use metrics_core::{BILLIONTHS, Fixed, Lcg, Memory, Words};
use std::alloc::Global;

/// How many calls a round has: so many draws it takes.
const CALLS: u8 = 64;

/// How many of them, one behind another, are of one lane.
const CALLS_OF_LANE: u8 = 16;

/// The calls of the next round, from words that come behind those of the rounds before it.
pub(crate) fn next_calls(alloc: Global, words: &mut Lcg) -> Result<Vec<CallLine>, Memory>
    ensures calls { (round : ℕ) → HasDrawn (64 * round) words.old
        → IfOk result (λ calls. map call_line_of calls.items ≡ calls_of_round round) }
    ensures words { (round : ℕ) → HasDrawn (64 * round) words.old
        → OnOk result (HasDrawn (64 * (round + 1)) words.new) }
{
    let mut calls = Vec::with_capacity(alloc, usize::from(CALLS))?;
    for place in 0..CALLS {
        let drawn = next_draw(words);
        calls.push(call_by(place / CALLS_OF_LANE, drawn))?;
    }
    Ok(calls)
}

/// The next draw: a word without its last 33 bits.
fn next_draw(words: &mut Lcg) -> u32
    ensures value { (n : ℕ) → HasDrawn n words.old → result ≡ draw n }
    ensures words { (n : ℕ) → HasDrawn n words.old → HasDrawn (n + 1) words.new }
{
    (words.next_word() >> 33) as u32
}

/// The call that a lane makes by a draw.
#[tactic(auto, unfolding(crate::specs::Bench::bench_call))]
fn call_by(lane: u8, drawn: u32) -> CallLine
    requires { lane < 4 }
    ensures { call_line_of result ≡ bench_call lane drawn }
{
    let number = drawn / 8;
    match drawn % 8 {
        0..=4 => CallLine {
            lane,
            handle: number % 4,
            act: Act::Inc(u64::from(1 + drawn / 32 % 100)),
        },
        5 => CallLine {
            lane,
            handle: 4 + u32::from(lane),
            act: Act::Set(whole_value(number % 1000)),
        },
        _ => CallLine {
            lane,
            handle: 8 + u32::from(lane),
            act: Act::Rec(whole_value(number % 1000)),
        },
    }
}

/// A whole number as a value.
fn whole_value(number: u32) -> Fixed
    requires { number < 1000 }
    ensures { result.0 ≡ whole number }
{
    Fixed(i64::from(number) * i64::from(BILLIONTHS))
}
