//! Until when a loop runs.

ghost use Rattle.std.specs.Prelude.{◌≡◌, ℕ, Option, None, Some};
ghost use Rattle.service_loops.specs.Loops.{Asked};

use crate::Stop;
use std::sync::Wait;
use std::time::{Clock, Duration, Instant};

/// What a loop asks before each round.
pub trait Until {
    /// How many rounds are still to come, where it tells.
    ghost left: { Self → Option ℕ };

    /// Whether the loop is over. It may wait before it answers.
    fn is_over<R: Wait + Clock>(&mut self, rt: &R) -> bool
        ensures { Asked (left self.old) result (left self.new) };
}

/// Until a word is given.
#[derive(Drop)]
pub struct UntilStop<'a> {
    pub stop: &'a Stop,
}

impl<'a> Until for UntilStop<'a> {
    ghost left = { λ _. None };

    fn is_over<R: Wait + Clock>(&mut self, rt: &R) -> bool {
        self.stop.is_ended(rt)
    }
}

/// Until a word is given, with a round each so long. The time that a round takes is not added, and rounds that were
/// missed are left out.
#[derive(Drop)]
pub struct Every<'a> {
    stop: &'a Stop,
    step: Duration,
    begun: Option<Instant>,
}

impl<'a> Every<'a> {
    /// The first round is one step from now.
    pub fn new(stop: &'a Stop, step: Duration) -> Every<'a> {
        Every {
            stop,
            step,
            begun: None,
        }
    }
}

/// How long it is to the next round, one step behind the last.
fn to_next<R: Clock>(rt: &R, begun: Option<Instant>, step: Duration) -> Duration {
    let Some(begun) = begun else {
        return step;
    };
    match begun.elapsed(rt) {
        Ok(spent) => step.checked_sub(spent).unwrap_or(Duration::from_secs(0)),
        Err(_) => step,
    }
}

impl<'a> Until for Every<'a> {
    ghost left = { λ _. None };

    fn is_over<R: Wait + Clock>(&mut self, rt: &R) -> bool {
        let over = self.stop.wait(rt, to_next(rt, self.begun, self.step));
        self.begun = Instant::now(rt).ok();
        over
    }
}

/// So many rounds.
#[derive(Drop)]
pub struct Times {
    pub left: u64,
}

impl Until for Times {
    ghost left = { λ times. Some times.left };

    fn is_over<R: Wait + Clock>(&mut self, _rt: &R) -> bool {
        if self.left == 0 {
            return true;
        }
        self.left -= 1;
        false
    }
}
