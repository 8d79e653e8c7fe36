//! The play of the generated script, whose rounds are made one at a time and whose last page alone is written.

ghost use Rattle.std.specs.Prelude.{◌≡◌, ◌^◌, ◌<◌, ◌≤◌, IfErr, IfOk, OnErr, OnOk};
ghost use Rattle.metrics_core.specs.Outside.{Rose};
ghost use Rattle.script_player.specs.Faults.{IsPlayFault};
ghost use Rattle.script_player.specs.Benched.{IsBenchReport, IsBenched, IsBenchedInPart};
ghost use Rattle.script_player.specs.Sent.{sent_part};

use crate::agent::default_agent;
use crate::play::Player;
use crate::{Gate, Report};
use bench_scripts::{BenchRounds, bench_settings, script_is_valid, settings_are_allowed};
use drive_script::DriveFault;
use dsd_exporter::{DiscardLink, FlushReport, Link};
use hash_starts::HashStart;
use metrics_core::{Discard, Sink};
use std::alloc::Global;
use std::sync::Wait;
use std::thread::Threads;

/// Plays so many rounds of the generated script as `drive` plays a script: in each round its lanes run side by side, then a page is
/// rendered, and then the payloads of a flush to the default agent are made. The last page goes to `out`, ended by the line `# EOF`; the
/// pages before it and the payloads are let go. The gate is called around each call of a lane. No round is made before the last one was played.
pub fn bench<R: Threads + Wait + Sync, K: Sink, G: Gate + Sync>(
    rt: &R,
    alloc: Global,
    count: u32,
    out: &mut K,
    gate: &G,
) -> Result<Report, DriveFault>
    requires some { 1 ≤ count }
    requires limit { count ≤ 10000 }
    ensures written { OnOk result (IsBenched count (K.written out.old) (K.written out.new)) }
    ensures reported { IfOk result (λ report. IsBenchReport count report) }
    ensures prefix { OnErr result (IsBenchedInPart count (K.written out.old) (K.written out.new)) }
    ensures cause { IfErr result (IsPlayFault (Rose (K.faults out.old) (K.faults out.new))) }
    ensures never_falls { K.faults out.old ≤ K.faults out.new }
{
    // No setting of the script is refused.
    settings_are_allowed();
    let to = default_agent();
    let mut link = DiscardLink::new();
    link.aim(alloc, &to)?;
    let settings = bench_settings(alloc)?;
    let mut player = Player::new(alloc, HashStart::fixed(), settings, &to)?;
    let played = player.play_bench(rt, alloc, gate, count, out, &mut link);
    let report = player.end(rt);
    played?;
    Ok(report_of(count, report))
}

/// The report of so many pages and of what their flushes did.
fn report_of(pages: u32, flushes: FlushReport) -> Report
    ensures pages { result.pages ≡ pages }
    ensures counts { sent_part result ≡ flushes }
    ensures fits { result.unsent < 2 ^ 64 }
{
    Report {
        pages: u64::from(pages),
        sent: flushes.sent,
        unsent: flushes.unsent,
        dropped: flushes.dropped,
    }
}

impl Player {
    ghost use Rattle.std.specs.Prelude.{◌≡◌, ◌≤◌, IfErr, OnErr, OnOk, Some};
    ghost use Rattle.metrics_core.specs.Outside.{Rose};
    ghost use Rattle.bench_scripts.specs.Bench.{bench_settings_text};
    ghost use Rattle.script_player.specs.Agent.{default_agent};
    ghost use Rattle.script_player.specs.Faults.{IsPlayFault};
    ghost use Rattle.script_player.specs.Benched.{IsBenchedInPart, PlaysBench};
    ghost use Rattle.script_player.specs.Player.{first_player};

    /// Plays so many rounds of the generated script, up to the first that fails. The last page goes to the sink, and those before it nowhere.
    fn play_bench<R: Threads + Wait + Sync, G: Gate + Sync, K: Sink, L: Link>(
        &mut self,
        rt: &R,
        alloc: Global,
        gate: &G,
        count: u32,
        out: &mut K,
        link: &mut L,
    ) -> Result<(), DriveFault>
        requires count { (1 ≤ count) × (count ≤ 10000) }
        requires start { self.old ≡ first_player bench_settings_text default_agent }
        requires aimed { L.aimed link.old ≡ Some default_agent }
        ensures played { OnOk result (PlaysBench count (K.written out.old) (K.written out.new)
            (record { sent = L.sent link.old; faults = L.faults link.old })
            (record { sent = L.sent link.new; faults = L.faults link.new }) self.new.report) }
        ensures prefix { OnErr result (IsBenchedInPart count
            (K.written out.old) (K.written out.new)) }
        ensures cause { IfErr result (IsPlayFault (Rose (K.faults out.old) (K.faults out.new))) }
        ensures never_falls { K.faults out.old ≤ K.faults out.new }
    {
        // The rounds fit the player.
        script_is_valid();
        let mut rounds = BenchRounds::new();
        for _played in 1..count {
            let round = rounds.next_round(alloc)?;
            self.play_round(rt, alloc, gate, round, &mut Discard, link)?;
        }
        let last = rounds.next_round(alloc)?;
        self.play_round(rt, alloc, gate, last, out, link)
    }
}
