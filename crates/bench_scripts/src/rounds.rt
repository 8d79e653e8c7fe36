//! The rounds of the generated script, one after another.

ghost use Rattle.std.specs.Prelude.{◌≡◌, ◌+◌, ◌<◌, IfOk, OnErr, OnOk, map};
ghost use Rattle.bench_scripts.specs.Bench.{bench_round, setup_of_round};
ghost use Rattle.drive_script.specs.Texts.{round_of, setup_of};

use crate::calls::next_calls;
use crate::setup::register_all;
use drive_script::{Round, Setup};
use metrics_core::{Lcg, Memory};
use std::alloc::Global;
use std::marker::Model;

/// The nanoseconds of a second.
const SECOND: u64 = 1_000_000_000;

/// The rounds of the generated script that are still to be made. A contract sees the number of the next one, from 0.
#[derive(Drop)]
pub struct BenchRounds {
    number: u32,
    words: Lcg,
}

impl Model for BenchRounds {
    ghost use Rattle.std.specs.Prelude.{ℕ, ◌*◌};
    ghost use Rattle.bench_scripts.specs.Drawing.{HasDrawn};

    ghost Value = { ℕ };

    ghost view = { λ rounds. rounds.number };

    ghost invariant = { λ rounds. HasDrawn (64 * rounds.number) rounds.words };
}

impl BenchRounds {
    /// All rounds.
    pub fn new() -> BenchRounds
        ensures { result ≡ 0 }
    {
        BenchRounds {
            number: 0,
            words: Lcg::new(0),
        }
    }

    /// Makes the next round. Where memory is refused, that round is still to be made.
    #[tactic(auto, unfolding(crate::specs::Bench::bench_round))]
    pub fn next_round(&mut self, alloc: Global) -> Result<Round, Memory>
        requires { self.old < 10000 }
        ensures round { IfOk result (λ round. round_of round ≡ bench_round self.old) }
        ensures next { OnOk result (self.new ≡ self.old + 1) }
        ensures still { OnErr result (self.new ≡ self.old) }
    {
        let mut words = self.words;
        let round = Round {
            moment: u64::from(self.number) * SECOND,
            setup: setup_for(alloc, self.number)?,
            calls: next_calls(alloc, &mut words)?,
        };
        self.number += 1;
        self.words = words;
        Ok(round)
    }
}

/// What a round sets up: the first one all series, the others nothing.
#[tactic(auto, using(crate::proofs::RoundLaws::setup_of_later))]
fn setup_for(alloc: Global, number: u32) -> Result<Vec<Setup>, Memory>
    ensures { IfOk result (λ setup. map setup_of setup.items ≡ setup_of_round number) }
{
    if number == 0 {
        register_all(alloc)
    } else {
        Ok(Vec::new(alloc))
    }
}
