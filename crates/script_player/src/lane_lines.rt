//! The lines of a lane, which are read off its calls where they stand among those of the round.

ghost use Rattle.std.specs.Prelude.{◌≡◌};
ghost use Rattle.script_player.specs.LaneCalls.{asked};

use cell_lanes::{LaneLines, Line};
use drive_script::{Act, CallLine};
use exporter_lanes::ExporterCall;
use metrics_core::SeriesCall;

/// A call of a lane.
#[derive(Clone, Copy)]
pub struct LaneCall<'a> {
    /// Its line, where it stands among those of the round.
    pub line: &'a CallLine,
    /// Where the Prometheus series is among those that the lane names, if it is live.
    pub prometheus: Option<usize>,
    /// Where the DogStatsD series is, if there is one.
    pub dogstatsd: Option<usize>,
}

/// The lines of a lane: for each of its calls one on the Prometheus series, and then one on the DogStatsD series.
#[derive(Drop)]
pub struct RoundLines<'a> {
    /// The moment of the round.
    moment: u64,
    /// The lane's calls.
    calls: Vec<LaneCall<'a>>,
}

/// How far a lane has come.
#[derive(Drop)]
pub struct RoundWalk {
    /// It is past so many of its calls.
    past: usize,
    /// The second line of the last of them, where that is left.
    second: Option<Line<ExporterCall>>,
}

impl<'a> RoundLines<'a> {
    ghost use Rattle.script_player.specs.LaneTables.{lines_of};
    ghost use Rattle.script_player.specs.RoundLines.{all_lines};

    /// The lines of a lane with these calls in a round at a moment.
    pub(crate) fn new(moment: u64, calls: Vec<LaneCall<'a>>) -> RoundLines<'a>
        ensures { all_lines result ≡ lines_of moment calls.entry.items }
    {
        RoundLines { moment, calls }
    }
}

impl<'a> LaneLines for RoundLines<'a> {
    ghost use Rattle.script_player.specs.RoundLines.{all_lines, lines_left};

    type Call = ExporterCall;

    type Walk = RoundWalk;

    ghost lines = { all_lines };

    ghost left = { lines_left };

    fn walk(&self) -> RoundWalk {
        // That the lines are fewer than 2^64 needs how many calls there are.
        let _most = self.calls.len() + self.calls.len();
        RoundWalk {
            past: 0,
            second: None,
        }
    }

    fn next(&self, walk: &mut RoundWalk) -> Option<Line<ExporterCall>> {
        if let Some(second) = walk.second.take() {
            return Some(second);
        }
        let own = self.calls.get(walk.past)?;
        let call = call_of(self.moment, own.line.act);
        walk.past += 1;
        walk.second = Some(Line {
            slot: own.dogstatsd,
            call: ExporterCall::DogStatsD(call),
        });
        Some(Line {
            slot: own.prometheus,
            call: ExporterCall::Prometheus(call),
        })
    }
}

/// The call on a series that a call line makes in a round at a moment.
fn call_of(moment: u64, act: Act) -> SeriesCall
    ensures { result ≡ asked moment act }
{
    match act {
        Act::Inc(count) => SeriesCall::Increment(count),
        Act::Abs(total) => SeriesCall::Absolute(total),
        Act::Add(value) => SeriesCall::Add(value),
        Act::Sub(value) => SeriesCall::Subtract(value),
        Act::Set(value) => SeriesCall::Set(value),
        Act::Rec(value) => SeriesCall::Record {
            value,
            moment,
            count: 1,
        },
        Act::RecN(value, count) => SeriesCall::Record {
            value,
            moment,
            count,
        },
    }
}
