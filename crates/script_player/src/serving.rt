//! Serving the page of a script: its rounds are played without pages between, and those who fetch the page are answered.

ghost use Rattle.std.specs.Prelude.{◌≡◌, ◌≤◌, option_copied, IfErr, IfOk, OnOk};
ghost use Rattle.metrics_core.specs.Outside.{Rose};
ghost use Rattle.prom_serve.specs.Refusals.{excepted};
ghost use Rattle.prom_serve.specs.Serving.{IsCounted};
ghost use Rattle.drive_script.specs.Texts.{script_of};
ghost use Rattle.script_player.specs.Agent.{default_agent};
ghost use Rattle.script_player.specs.Faults.{CanPlay};
ghost use Rattle.script_player.specs.Served.{Answers, AnswersInPart, ForSomePage, HasListenerCause, listed};

use crate::Gate;
use crate::agent::default_agent;
use crate::play::Player;
use drive_script::{Round, Script};
use hash_starts::HashStart;
use metrics_core::Memory;
use net_addresses::Network;
use prom_serve::{Listener, ServeError, Served, serve};
use std::alloc::Global;
use std::net::{Net, TcpListener, TcpStream};
use std::sync::Wait;
use std::thread::Threads;

/// Plays the rounds of a script without pages between, and then answers so many connections, one after another, each with the page at
/// the moment of the last round or with what stands for it. The page has no line `# EOF`. It is shown to the peers whose addresses the
/// networks hold, and to every peer where there is no network. The exporter is ended whatever comes of it.
pub fn play_and_serve<
    R: Net<Listener = TcpListener, Stream = TcpStream> + Threads + Wait + Sync,
    G: Gate + Sync,
    N: Listener,
>(
    rt: &R,
    alloc: Global,
    start: HashStart,
    gate: &G,
    script: Script,
    networks: &[Network],
    listener: &mut N,
    count: u32,
) -> Result<Served, ServeError>
    requires can { CanPlay default_agent (script_of script) }
    ensures served { OnOk result (ForSomePage (script_of script)
        (λ page. Answers networks.now page count 0
        (record { given = N.given listener.old; finished = N.finished listener.old })
        (record { given = N.given listener.new; finished = N.finished listener.new }))) }
    ensures in_part { IfErr result (λ error. ForSomePage (script_of script)
        (λ page. AnswersInPart networks.now page count (excepted error)
        (record { given = N.given listener.old; finished = N.finished listener.old })
        (record { given = N.given listener.new; finished = N.finished listener.new }))) }
    ensures counted { IfOk result (IsCounted count (N.lost listener.old) (N.lost listener.new)) }
    ensures cause { IfErr result (HasListenerCause
        (Rose (N.faults listener.old) (N.faults listener.new))) }
    ensures never_falls { N.faults listener.old ≤ N.faults listener.new }
{
    let Script { settings, rounds } = script;
    let mut player = Player::new(alloc, start, settings, &default_agent())?;
    let served = player.serve_rounds(rt, alloc, gate, rounds, networks, listener, count);
    player.end(rt);
    served
}

impl Player {
    ghost use Rattle.std.specs.Prelude.{◌≡◌, ◌≤◌, [], ◌∷◌, map, IfErr, IfOk, OnOk};
    ghost use Rattle.metrics_core.specs.Outside.{Rose};
    ghost use Rattle.prom_serve.specs.Refusals.{excepted};
    ghost use Rattle.prom_serve.specs.Serving.{IsCounted};
    ghost use Rattle.drive_script.specs.Texts.{round_of};
    ghost use Rattle.script_player.specs.Flushes.{after_registers};
    ghost use Rattle.script_player.specs.Orders.{ForSomeOrders};
    ghost use Rattle.script_player.specs.Play.{after_calls, after_setup};
    ghost use Rattle.script_player.specs.Player.{Awaits};
    ghost use Rattle.script_player.specs.Served.{Answers, AnswersInPart, ForSomeServed, HasListenerCause, moment_from};
    ghost use Rattle.script_player.specs.Shown.{ForSomeShown};

    /// Plays rounds, and serves the page behind them.
    fn serve_rounds<
        R: Net<Listener = TcpListener, Stream = TcpStream> + Threads + Wait + Sync,
        G: Gate + Sync,
        N: Listener,
    >(
        &mut self,
        rt: &R,
        alloc: Global,
        gate: &G,
        rounds: Vec<Round>,
        networks: &[Network],
        listener: &mut N,
        count: u32,
    ) -> Result<Served, ServeError>
        requires awaits { Awaits 0 (map round_of rounds.items) self.old }
        ensures served { OnOk result (ForSomeShown (map round_of rounds.items) self.old
            (λ page. Answers networks.now page count 0
            (record { given = N.given listener.old; finished = N.finished listener.old })
            (record { given = N.given listener.new; finished = N.finished listener.new }))) }
        ensures in_part { IfErr result (λ error. ForSomeShown (map round_of rounds.items) self.old
            (λ page. AnswersInPart networks.now page count (excepted error)
            (record { given = N.given listener.old; finished = N.finished listener.old })
            (record { given = N.given listener.new; finished = N.finished listener.new }))) }
        ensures counted { IfOk result (IsCounted count (N.lost listener.old)
            (N.lost listener.new)) }
        ensures cause { IfErr result (HasListenerCause
            (Rose (N.faults listener.old) (N.faults listener.new))) }
        ensures never_falls { N.faults listener.old ≤ N.faults listener.new }
    {
        let moment = self.play_unshown(rt, alloc, gate, rounds)?;
        serve(
            rt,
            alloc,
            listed(networks),
            &mut self.exporters.prometheus,
            moment,
            listener,
            count,
        )
    }

    /// Plays rounds, one after another, up to the first that is refused memory, and renders no page between. Answers the moment of the
    /// last round, 0 without rounds.
    fn play_unshown<R: Threads + Wait + Sync, G: Gate + Sync>(
        &mut self,
        rt: &R,
        alloc: Global,
        gate: &G,
        rounds: Vec<Round>,
    ) -> Result<u64, Memory>
        requires awaits { Awaits 0 (map round_of rounds.items) self.old }
        ensures settings { self.new.settings ≡ self.old.settings }
        ensures played { OnOk result
            (ForSomeServed self.old.pages (map round_of rounds.items) (λ play. self.new.pages
            ≡ play)) }
        ensures moment { IfOk result (λ moment. moment
            ≡ moment_from 0 (map round_of rounds.items)) }
    {
        let mut moment = 0;
        for round in rounds {
            moment = round.moment;
            self.play_unshown_round(rt, alloc, gate, round)?;
        }
        Ok(moment)
    }

    /// Plays a round without its page: its setup and its calls.
    fn play_unshown_round<R: Threads + Wait + Sync, G: Gate + Sync>(
        &mut self,
        rt: &R,
        alloc: Global,
        gate: &G,
        round: Round,
    ) -> Result<(), Memory>
        requires awaits { Awaits round.moment (round_of round ∷ []) self.old }
        ensures settings { self.new.settings ≡ self.old.settings }
        ensures played { OnOk result (ForSomeOrders self.old.pages (round_of round) (λ orders.
            self.new.pages ≡ after_calls (after_setup self.old.pages (round_of round))
            (round_of round) orders)) }
        ensures lines_handles { OnOk result
            (self.new.flushes.handles ≡ (after_registers self.old.flushes
            (round_of round)).handles) }
    {
        let Round {
            moment,
            setup,
            calls,
        } = round;
        self.set_up(rt, alloc, setup)?;
        self.make_calls(rt, alloc, gate, moment, calls)
    }
}

/// The list of networks whose peers are shown the page, if there is any network.
fn listed(networks: &[Network]) -> Option<&[Network]>
    ensures { option_copied result ≡ listed networks.now }
{
    if networks.is_empty() {
        None
    } else {
        Some(networks)
    }
}
