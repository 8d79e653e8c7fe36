//! The play of a script: what each round does to both exporters, the page that it writes, and the flush that it sends.

ghost use Rattle.std.specs.Prelude.{◌≡◌, ◌≤◌, IfOk, IfErr, OnErr, Some};
ghost use Rattle.metrics_core.specs.Outside.{Rose};
ghost use Rattle.dsd_addresses.specs.Remotes.{remote_text};
ghost use Rattle.drive_script.specs.Texts.{script_of};
ghost use Rattle.script_player.specs.Faults.{CanPlay, IsPlayFault};
ghost use Rattle.script_player.specs.Rounds.{CutsScript, PlaysScript};

use crate::flushes::{Flushes, lines_exporter};
use crate::gates::GateHook;
use crate::guesses::Guesses;
use crate::lanes::lanes_of;
use crate::page::write_both;
use crate::set_up::{lines_for_flushes, make_room, set_up_both};
use crate::settings::builder_of;
use crate::{Gate, Report};
use cell_lanes::run_lanes;
use drive_script::{CallLine, DriveFault, Round, Script, Settings, Setup};
use dsd_addresses::RemoteAddr;
use dsd_exporter::{FlushReport, Link};
use exporter_lanes::Exporters;
use hash_starts::HashStart;
use metrics_core::{Memory, SeriesId, Sink};
use std::alloc::Global;
use std::marker::Model;
use std::mem;
use std::snapshot::Snapshot;
use std::sync::Wait;
use std::thread::Threads;

/// Plays a script: the lanes of each round run side by side, then a page goes to the sink, ended by the line `# EOF`, and then the payloads of
/// a flush go to the link, which is aimed at the address. The gate is called around each call of a lane. The script is taken apart:
/// the exporters keep its keys and descriptions, and the rest of a round is let go at the round's end. The exporter of the pages
/// is ended whatever comes of the play. A payload that the link refuses is counted, and changes nothing else. Names, labels and keys are
/// looked up by hashes from a start.
pub fn play_script<R: Threads + Wait + Sync, G: Gate + Sync, K: Sink, L: Link>(
    rt: &R,
    alloc: Global,
    start: HashStart,
    gate: &G,
    to: &RemoteAddr,
    script: Script,
    out: &mut K,
    link: &mut L,
) -> Result<Report, DriveFault>
    requires can { CanPlay (remote_text to.now) (script_of script) }
    requires aimed { L.aimed link.old ≡ Some (remote_text to.now) }
    ensures played { IfOk result (PlaysScript (script_of script) (remote_text to.now)
        (K.written out.old) (K.written out.new)
        (record { sent = L.sent link.old; faults = L.faults link.old })
        (record { sent = L.sent link.new; faults = L.faults link.new })) }
    ensures cut { OnErr result (CutsScript (script_of script) (remote_text to.now)
        (K.written out.old) (K.written out.new)
        (record { sent = L.sent link.old; faults = L.faults link.old })
        (record { sent = L.sent link.new; faults = L.faults link.new })) }
    ensures aims { L.aimed link.new ≡ L.aimed link.old }
    ensures cause { IfErr result (IsPlayFault (Rose (K.faults out.old) (K.faults out.new))) }
    ensures never_falls { K.faults out.old ≤ K.faults out.new }
{
    let Script { settings, rounds } = script;
    let pages = rounds.len() as u64;
    let mut player = Player::new(alloc, start, settings, to)?;
    let played = player.play_rounds(rt, alloc, gate, rounds, out, link);
    let report = player.end(rt);
    played?;
    Ok(Report {
        pages,
        sent: report.sent,
        unsent: report.unsent,
        dropped: report.dropped,
    })
}

/// The exporters, and the series of each that a register line so far was given. It can't be let go: end it by `end`. Contracts see
/// what it was made for, both states of the play and what was sent.
pub struct Player {
    /// The settings that it was made for, and where payloads go. Proofs alone see them, and they have no bytes.
    made_for: Snapshot<Settings>,
    aimed_at: Snapshot<RemoteAddr>,
    pub(crate) exporters: Exporters,
    /// The series on the pages.
    handles: Vec<SeriesId>,
    /// For each handle, where to look for its series first.
    guesses: Guesses,
    /// The series in the flushes.
    line_handles: Vec<SeriesId>,
    /// For each of these handles, where to look for its series first.
    line_guesses: Guesses,
    flushes: Flushes,
}

impl Model for Player {
    ghost use Rattle.dsd_addresses.specs.Remotes.{remote_text};
    ghost use Rattle.drive_script.specs.Texts.{settings_of};
    ghost use Rattle.script_player.specs.Player.{IsMadeFor, PlayerText, lines_state, rows_state};

    ghost Value = { PlayerText };

    ghost view = { λ p. record {
      settings = settings_of p.made_for.value;
      to = remote_text p.aimed_at.value;
      pages = rows_state p.exporters.prometheus p.handles.items;
      flushes = lines_state p.flushes.marks p.exporters.dogstatsd p.line_handles.items;
      waiting = p.flushes.writer.lines;
      report = p.flushes.report;
    } };

    ghost invariant = { λ p. IsMadeFor (settings_of p.made_for.value) (remote_text p.aimed_at.value)
        p.exporters.prometheus p.exporters.dogstatsd p.flushes.writer };
}

impl Player {
    ghost use Rattle.std.specs.Prelude.{◌≡◌, ◌≤◌, [], ◌∷◌, fold, map, IfOk, IfErr, OnOk, OnErr};
    ghost use Rattle.metrics_core.specs.Outside.{Rose};
    ghost use Rattle.dsd_addresses.specs.Remotes.{remote_text};
    ghost use Rattle.drive_script.specs.Script.{RoundText};
    ghost use Rattle.drive_script.specs.Texts.{round_of, settings_of, setup_of, call_line_of};
    ghost use Rattle.script_player.specs.Faults.{AreAllowed, IsPlayFault};
    ghost use Rattle.script_player.specs.Orders.{IsCalled};
    ghost use Rattle.script_player.specs.Play.{setup_step};
    ghost use Rattle.script_player.specs.Flushes.{IsFlushCalled, register_step};
    ghost use Rattle.script_player.specs.Player.{CanSend, FitsCalls, IsReadyFor, SendsNothing, first_player};
    ghost use Rattle.script_player.specs.Rounds.{CutsPage, CutsRound, CutsRounds, EndsRound, PlaysRound, PlaysRounds};
    ghost use Rattle.script_player.specs.Timely.{IsTimelyState};

    /// A player before its first round, over exporters with these settings, whose payloads go to an address. Names, labels and
    /// keys are looked up by hashes from a start.
    pub(crate) fn new(
        alloc: Global,
        start: HashStart,
        settings: Settings,
        to: &RemoteAddr,
    ) -> Result<Player, Memory>
        requires allowed { AreAllowed (remote_text to.now) (settings_of settings) }
        ensures { IfOk result (λ player. player ≡ first_player (settings_of settings)
            (remote_text to.now)) }
    {
        let made_for = Snapshot::of(&settings);
        let mut settings = settings;
        let prefix = settings.dsd_prefix.take();
        let tags = mem::replace(&mut settings.dsd_globals, Vec::new(alloc));
        let flushes = Flushes::new(alloc, &settings, tags, to)?;
        let dogstatsd = lines_exporter(alloc, start, &settings, prefix)?;
        let builder = builder_of(alloc, start, settings)?;
        match builder.build_state(alloc) {
            Ok(prometheus) => Ok(Player {
                made_for,
                aimed_at: Snapshot::of(to),
                exporters: Exporters {
                    prometheus,
                    dogstatsd,
                },
                handles: Vec::new(alloc),
                guesses: Guesses::new(alloc),
                line_handles: Vec::new(alloc),
                line_guesses: Guesses::new(alloc),
                flushes,
            }),
            Err(_) => Err(Memory),
        }
    }

    /// Ends the exporter of the pages, where the program ends behind it: the memory of the series isn't given back block by block.
    /// Answers what was sent.
    pub(crate) fn end<R: Wait>(self, rt: &R) -> FlushReport
        ensures { result ≡ self.report }
    {
        let Player {
            made_for: _,
            aimed_at: _,
            exporters,
            handles: _,
            guesses: _,
            line_handles: _,
            line_guesses: _,
            flushes,
        } = self;
        let Exporters {
            prometheus,
            dogstatsd,
        } = exporters;
        mem::forget(dogstatsd);
        prometheus.end_with_program(rt);
        flushes.report
    }

    /// Plays rounds, one after another, up to the first that fails.
    fn play_rounds<R: Threads + Wait + Sync, G: Gate + Sync, K: Sink, L: Link>(
        &mut self,
        rt: &R,
        alloc: Global,
        gate: &G,
        rounds: Vec<Round>,
        out: &mut K,
        link: &mut L,
    ) -> Result<(), DriveFault>
        requires ready { IsReadyFor 0 (map round_of rounds.items) (L.aimed link.old) self.old }
        ensures played { OnOk result (PlaysRounds (map round_of rounds.items) self.old self.new
            (K.written out.old) (K.written out.new)
            (record { sent = L.sent link.old; faults = L.faults link.old })
            (record { sent = L.sent link.new; faults = L.faults link.new })) }
        ensures cut { OnErr result (CutsRounds (map round_of rounds.items) self.old
            (K.written out.old) (K.written out.new)
            (record { sent = L.sent link.old; faults = L.faults link.old })
            (record { sent = L.sent link.new; faults = L.faults link.new })) }
        ensures aims { L.aimed link.new ≡ L.aimed link.old }
        ensures cause { IfErr result (IsPlayFault (Rose (K.faults out.old) (K.faults out.new))) }
        ensures never_falls { K.faults out.old ≤ K.faults out.new }
    {
        for round in rounds {
            self.play_round(rt, alloc, gate, round, out, link)?;
        }
        Ok(())
    }

    /// Plays a round: its setup, its calls, its page, its flush.
    pub(crate) fn play_round<R: Threads + Wait + Sync, G: Gate + Sync, K: Sink, L: Link>(
        &mut self,
        rt: &R,
        alloc: Global,
        gate: &G,
        round: Round,
        out: &mut K,
        link: &mut L,
    ) -> Result<(), DriveFault>
        requires ready { IsReadyFor round.moment (round_of round ∷ []) (L.aimed link.old) self.old }
        ensures played { OnOk result (PlaysRound (round_of round) self.old self.new
            (K.written out.old) (K.written out.new)
            (record { sent = L.sent link.old; faults = L.faults link.old })
            (record { sent = L.sent link.new; faults = L.faults link.new })) }
        ensures cut { OnErr result (CutsRound (round_of round) self.old
            (K.written out.old) (K.written out.new)
            (record { sent = L.sent link.old; faults = L.faults link.old })
            (record { sent = L.sent link.new; faults = L.faults link.new })) }
        ensures aims { L.aimed link.new ≡ L.aimed link.old }
        ensures cause { IfErr result (IsPlayFault (Rose (K.faults out.old) (K.faults out.new))) }
        ensures never_falls { K.faults out.old ≤ K.faults out.new }
    {
        let Round {
            moment,
            setup,
            calls,
        } = round;
        self.set_up(rt, alloc, setup)?;
        let work = self.handles.len().saturating_add(calls.len());
        self.make_calls(rt, alloc, gate, moment, calls)?;
        self.end_round(rt, alloc, moment, work, out, link)
    }

    /// Does the setup lines in order, those for the flushes on copies of their keys.
    pub(crate) fn set_up<R: Threads + Wait + Sync>(
        &mut self,
        rt: &R,
        alloc: Global,
        mut setup: Vec<Setup>,
    ) -> Result<(), Memory>
        ensures unsent { SendsNothing self.old self.new }
        ensures stepped { OnOk result
            (self.new.pages ≡ fold setup_step self.old.pages (map setup_of setup.items)) }
        ensures registered { OnOk result
            (self.new.flushes ≡ fold register_step self.old.flushes (map setup_of setup.items)) }
    {
        make_room(
            &setup,
            &mut self.exporters,
            &mut self.handles,
            &mut self.guesses,
            &mut self.line_handles,
            &mut self.line_guesses,
        )?;
        let mut copies = lines_for_flushes(rt, alloc, &setup)?;
        let exporters = &mut self.exporters;
        set_up_both(
            rt,
            alloc,
            &mut exporters.dogstatsd,
            &mut self.line_handles,
            &mut self.line_guesses,
            &mut copies,
            &mut exporters.prometheus,
            &mut self.handles,
            &mut self.guesses,
            &mut setup,
        )
    }

    /// Makes the calls of a round: its lanes run side by side, each with its own passes, and all passes are back at the end.
    /// A lane that is refused memory makes no further call.
    pub(crate) fn make_calls<R: Threads + Wait + Sync, G: Gate + Sync>(
        &mut self,
        rt: &R,
        alloc: Global,
        gate: &G,
        moment: u64,
        calls: Vec<CallLine>,
    ) -> Result<(), Memory>
        requires fit { FitsCalls self.old calls.items }
        ensures unsent { SendsNothing self.old self.new }
        ensures called { OnOk result ((round : RoundText) → round.moment ≡ moment
            → round.calls ≡ map call_line_of calls.items
            → IsCalled self.old.pages round self.new.pages) }
        ensures flush_called { OnOk result ((round : RoundText) → round.moment ≡ moment
            → round.calls ≡ map call_line_of calls.items
            → IsFlushCalled self.old.flushes round self.new.flushes) }
    {
        let lanes = lanes_of(
            alloc,
            &self.exporters,
            &self.handles,
            &mut self.guesses.places,
            &self.line_handles,
            &mut self.line_guesses.places,
            moment,
            &calls,
        )?;
        run_lanes(rt, alloc, &GateHook { gate }, &mut self.exporters, &lanes)
    }

    /// Writes the page of a round at its moment, and hands its flush to the link. For much work the flush is made beside the page.
    fn end_round<R: Threads + Wait + Sync, K: Sink, L: Link>(
        &mut self,
        rt: &R,
        alloc: Global,
        moment: u64,
        work: usize,
        out: &mut K,
        link: &mut L,
    ) -> Result<(), DriveFault>
        requires timely { IsTimelyState moment self.old.pages.prometheus }
        requires sends { CanSend (L.aimed link.old) self.old }
        ensures ended { OnOk result (EndsRound moment self.old self.new
            (K.written out.old) (K.written out.new)
            (record { sent = L.sent link.old; faults = L.faults link.old })
            (record { sent = L.sent link.new; faults = L.faults link.new })) }
        ensures cut { OnErr result (CutsPage moment self.old (K.written out.old) (K.written out.new)
            (record { sent = L.sent link.old; faults = L.faults link.old })
            (record { sent = L.sent link.new; faults = L.faults link.new })) }
        ensures aims { L.aimed link.new ≡ L.aimed link.old }
        ensures cause { IfErr result (IsPlayFault (Rose (K.faults out.old) (K.faults out.new))) }
        ensures never_falls { K.faults out.old ≤ K.faults out.new }
    {
        let exporters = &mut self.exporters;
        let dropped = write_both(
            rt,
            alloc,
            moment,
            work,
            &mut exporters.prometheus,
            &mut exporters.dogstatsd,
            &mut self.flushes,
            out,
        )?;
        self.flushes.hand_out(dropped, link);
        Ok(())
    }
}
