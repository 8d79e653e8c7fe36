//! The top call: the words of the command line, and what each form of them does.

ghost use Rattle.std.specs.Prelude.{◌≡◌, ◌≤◌, ℕ, List, IfSome};
ghost use Rattle.net_addresses.specs.Addresses.{NetworkText};
ghost use Rattle.dsd_addresses.specs.Remotes.{RemoteText, remote_text};
ghost use Rattle.program_words.specs.Answers.{fault_status, texts_of, IsDriveTo, IsDriveWords, IsUnplayed};
ghost use Rattle.program_words.specs.BenchWords.{AreBenchWords};
ghost use Rattle.program_words.specs.Devices.{link_run, listener_run, sink_run, source_run};
ghost use Rattle.program_words.specs.Ends.{ComesOf, IsBenchEnd, IsDriveEnd, IsMergeEnd, IsReceiveEnd, IsRulesEnd, IsServeEnd, IsStreamEnd, LeavesOthers};
ghost use Rattle.script_player.specs.Headline.{IsPlayed};
ghost use Rattle.program_words.specs.Evaluate.{evaluation_status};
ghost use Rattle.program_words.specs.Receive.{stream_status};
ghost use Rattle.program_words.specs.Relay.{relay_status};
ghost use Rattle.program_words.specs.Serving.{serve_status, AreServeWords};
ghost use Rattle.program_words.specs.Statuses.{status_number};

use crate::ServeScriptFault;
use crate::command::{Command, read_command};
use crate::driving::drive;
use crate::reading::read_all;
use crate::relaying::relay;
use crate::say::{
    say_evaluated, say_evaluation_fault, say_fault, say_merged, say_received, say_relay_fault,
    say_report, say_stream_fault, say_usage,
};
use crate::serving::serve_script;
use crate::serving_lines::{say_serve_fault, say_served};
use crate::statuses::Status;
use drive_script::DriveFault;
use dsd_addresses::RemoteAddr;
use dsd_exporter::Link;
use dsd_receiver::{StreamFault, receive};
use hash_starts::HashStart;
use metrics_core::{Sink, Source};
use net_addresses::Network;
use page_relay::RelayFault;
use prom_serve::Listener;
use rule_eval::{EvaluationFault, evaluate};
use script_player::{Gate, bench};
use std::alloc::Global;
use std::net::{Net, TcpListener, TcpStream};
use std::random::RandomSource;
use std::sync::Wait;
use std::thread::Threads;

/// Does what the words ask for, and answers the status that the program ends with, the number of a `Status`. `err` gets one line that
/// says which; a failing `err` changes nothing else.
///
/// For the word `drive` the whole script is read from `source`, its pages are written to `out`, and its flushes are sent to `link`, which is
/// aimed at the address of the second word, or at 127.0.0.1:8125 over UDP. The lanes of a round run side by side, in up to eight threads;
/// the gate is called around each call of a lane. A failing link changes no status. For the word `serve` the script is
/// read and played without pages, and the page behind its last round is the answer to so many connections of `listener` as the second word
/// says; where networks stand behind it, to peers in them alone. A failing connection changes no status. For the word `bench` so many rounds of the generated
/// script are played, its payloads go nowhere, and the page of the last round is written to `out`. For the word `merge` the whole
/// source is read as pages that stand one after the other, and the one page that they become is written to `out`. For the word `receive`
/// it is read as DogStatsD payloads, each led by its length, and the page, at moment 0, of an exporter that received their lines is written to `out`.
/// For the word `rules` it is read as rules and the pages that they are held to, and a line for each group that fires on a page is written to `out`.
pub fn run<
    R: Net<Listener = TcpListener, Stream = TcpStream> + RandomSource + Threads + Wait + Sync,
    S: Source,
    K: Sink,
    E: Sink,
    L: Link,
    G: Gate + Sync,
    N: Listener,
>(
    rt: &R,
    alloc: Global,
    words: &[&str],
    source: &mut S,
    out: &mut K,
    err: &mut E,
    link: &mut L,
    gate: &G,
    listener: &mut N,
) -> u8
    // `drive`, status 0: what was written is one page per round, ended by `# EOF`; read by the
    // exposition grammar, each is exactly the families of the sequential state, for one order per
    // series of all lanes' calls.
    ensures headline { IsDriveWords (texts_of words.now) → result ≡ 0 → IfSome (S.left source.old)
        (λ bytes. IsPlayed bytes (K.written out.old) (K.written out.new)) }

    // Each form of words: what its statuses say, what they leave, and the line on `err`.
    ensures drive { (to : RemoteText) → IsDriveTo (texts_of words.now) to → IsDriveEnd to
        (source_run S.left S.faults source.old source.new) (sink_run K.written K.faults out.old out.new)
        (sink_run E.written E.faults err.old err.new) (link_run L.sent L.faults L.aimed link.old link.new) result }
    ensures serve { (count : ℕ) (networks : List NetworkText) → AreServeWords (texts_of words.now) count networks
        → IsServeEnd count networks (source_run S.left S.faults source.old source.new)
        (sink_run E.written E.faults err.old err.new)
        (listener_run N.given N.finished N.lost N.faults listener.old listener.new) result }
    ensures bench { (count : ℕ) → AreBenchWords (texts_of words.now) count → IsBenchEnd count
        (sink_run K.written K.faults out.old out.new) (sink_run E.written E.faults err.old err.new) result }
    ensures streams { IsStreamEnd (texts_of words.now) (source_run S.left S.faults source.old source.new)
        (sink_run K.written K.faults out.old out.new) (sink_run E.written E.faults err.old err.new) result }

    // All words: which of them a status comes of, what comes of those that are no form, and what they leave alone.
    ensures statuses { ComesOf (texts_of words.now) (sink_run E.written E.faults err.old err.new) result }
    ensures others { LeavesOthers (texts_of words.now) (source.new ≡ source.old) (out.new ≡ out.old)
        (link.new ≡ link.old) (listener.new ≡ listener.old) result }
{
    match read_command(alloc, words) {
        Ok(Some(Command::Drive(to))) => {
            run_drive(rt, alloc, &to, source, out, err, link, gate).number()
        }
        Ok(Some(Command::Serve(count, networks))) => {
            run_serve(rt, alloc, count, &networks, source, err, gate, listener).number()
        }
        Ok(Some(Command::Bench(rounds))) => run_bench(rt, alloc, rounds, out, err, gate).number(),
        Ok(Some(Command::Merge)) => {
            run_merge(alloc, HashStart::drawn(rt), source, out, err).number()
        }
        Ok(Some(Command::Receive)) => {
            run_receive(rt, alloc, HashStart::drawn(rt), source, out, err).number()
        }
        Ok(Some(Command::Rules)) => {
            run_rules(alloc, HashStart::drawn(rt), source, out, err).number()
        }
        Ok(None) => {
            say_usage(err);
            Status::NoForm.number()
        }
        Err(_) => {
            say_fault(err, DriveFault::Memory);
            Status::NoMemory.number()
        }
    }
}

/// Does what the word `drive` asks for, where payloads go to an address.
fn run_drive<
    R: RandomSource + Threads + Wait + Sync,
    S: Source,
    K: Sink,
    E: Sink,
    L: Link,
    G: Gate + Sync,
>(
    rt: &R,
    alloc: Global,
    to: &RemoteAddr,
    source: &mut S,
    out: &mut K,
    err: &mut E,
    link: &mut L,
    gate: &G,
) -> Status
    ensures ends { IsDriveEnd (remote_text to.now) (source_run S.left S.faults source.old source.new)
        (sink_run K.written K.faults out.old out.new) (sink_run E.written E.faults err.old err.new)
        (link_run L.sent L.faults L.aimed link.old link.new) (status_number result) }
    ensures unsent { IsUnplayed (status_number result) → link.new ≡ link.old }
{
    match drive(rt, alloc, to, source, out, link, gate) {
        Ok(report) => {
            say_report(err, &report);
            Status::Done
        }
        Err(fault) => {
            say_fault(err, fault);
            status_of(fault)
        }
    }
}

/// Does what the word `serve` asks for, with a count of connections and networks.
fn run_serve<
    R: Net<Listener = TcpListener, Stream = TcpStream> + RandomSource + Threads + Wait + Sync,
    S: Source,
    E: Sink,
    G: Gate + Sync,
    N: Listener,
>(
    rt: &R,
    alloc: Global,
    count: u32,
    networks: &[Network],
    source: &mut S,
    err: &mut E,
    gate: &G,
    listener: &mut N,
) -> Status
    ensures ends { IsServeEnd count networks.now (source_run S.left S.faults source.old source.new)
        (sink_run E.written E.faults err.old err.new)
        (listener_run N.given N.finished N.lost N.faults listener.old listener.new) (status_number result) }
    ensures unserved { IsUnplayed (status_number result) → listener.new ≡ listener.old }
{
    match serve_script(rt, alloc, count, networks, source, gate, listener) {
        Ok(served) => {
            say_served(err, &served);
            Status::Done
        }
        Err(fault) => {
            say_serve_fault(err, fault);
            serve_status_of(fault)
        }
    }
}

/// Does what the word `bench` asks for, with a number of rounds.
fn run_bench<R: Threads + Wait + Sync, K: Sink, E: Sink, G: Gate + Sync>(
    rt: &R,
    alloc: Global,
    rounds: u32,
    out: &mut K,
    err: &mut E,
    gate: &G,
) -> Status
    requires some { 1 ≤ rounds }
    requires limit { rounds ≤ 10000 }
    ensures ends { IsBenchEnd rounds (sink_run K.written K.faults out.old out.new)
        (sink_run E.written E.faults err.old err.new) (status_number result) }
{
    match bench(rt, alloc, rounds, out, gate) {
        Ok(report) => {
            say_report(err, &report);
            Status::Done
        }
        Err(fault) => {
            say_fault(err, fault);
            status_of(fault)
        }
    }
}

/// Does what the word `merge` asks for.
fn run_merge<S: Source, K: Sink, E: Sink>(
    alloc: Global,
    start: HashStart,
    source: &mut S,
    out: &mut K,
    err: &mut E,
) -> Status
    ensures ends { IsMergeEnd (source_run S.left S.faults source.old source.new)
        (sink_run K.written K.faults out.old out.new) (sink_run E.written E.faults err.old err.new)
        (status_number result) }
{
    let bytes = match read_all(alloc, source) {
        Ok(bytes) => bytes,
        Err(fault) => {
            say_fault(err, fault);
            return status_of(fault);
        }
    };
    match relay(alloc, start, &bytes, out) {
        Ok(pages) => {
            say_merged(err, pages);
            Status::Done
        }
        Err(fault) => {
            say_relay_fault(err, &fault);
            relay_status_of(&fault)
        }
    }
}

/// Does what the word `receive` asks for.
fn run_receive<R: Wait, S: Source, K: Sink, E: Sink>(
    rt: &R,
    alloc: Global,
    start: HashStart,
    source: &mut S,
    out: &mut K,
    err: &mut E,
) -> Status
    ensures ends { IsReceiveEnd (source_run S.left S.faults source.old source.new)
        (sink_run K.written K.faults out.old out.new) (sink_run E.written E.faults err.old err.new)
        (status_number result) }
{
    let bytes = match read_all(alloc, source) {
        Ok(bytes) => bytes,
        Err(fault) => {
            say_fault(err, fault);
            return status_of(fault);
        }
    };
    match receive(rt, alloc, start, &bytes, out) {
        Ok(received) => {
            say_received(err, &received);
            Status::Done
        }
        Err(fault) => {
            say_stream_fault(err, fault);
            stream_status_of(fault)
        }
    }
}

/// Does what the word `rules` asks for.
fn run_rules<S: Source, K: Sink, E: Sink>(
    alloc: Global,
    start: HashStart,
    source: &mut S,
    out: &mut K,
    err: &mut E,
) -> Status
    ensures ends { IsRulesEnd (source_run S.left S.faults source.old source.new)
        (sink_run K.written K.faults out.old out.new) (sink_run E.written E.faults err.old err.new)
        (status_number result) }
{
    let bytes = match read_all(alloc, source) {
        Ok(bytes) => bytes,
        Err(fault) => {
            say_fault(err, fault);
            return status_of(fault);
        }
    };
    match evaluate(alloc, start, &bytes, out) {
        Ok(evaluated) => {
            say_evaluated(err, &evaluated);
            Status::Done
        }
        Err(fault) => {
            say_evaluation_fault(err, fault);
            evaluation_status_of(fault)
        }
    }
}

/// The status that a fault ends the program with.
fn status_of(fault: DriveFault) -> Status
    ensures { status_number result ≡ fault_status fault }
{
    match fault {
        DriveFault::Script { line: _ } => Status::BadScript,
        DriveFault::Setting(_) => Status::RefusedSetting,
        DriveFault::TooLong => Status::TooLong,
        DriveFault::ReadFault => Status::ReadFailed,
        DriveFault::WriteFault => Status::WriteFailed,
        DriveFault::Memory => Status::NoMemory,
    }
}

/// The status that a fault of serving ends the program with.
fn serve_status_of(fault: ServeScriptFault) -> Status
    ensures { status_number result ≡ serve_status fault }
{
    match fault {
        ServeScriptFault::Drive(fault) => status_of(fault),
        ServeScriptFault::FailedToCreateHTTPListener => Status::ListenerFailed,
    }
}

/// The status that a fault of the relay ends the program with.
fn relay_status_of(fault: &RelayFault) -> Status
    ensures { status_number result ≡ relay_status fault.now }
{
    match fault {
        RelayFault::Syntax { line: _ } => Status::BadStream,
        RelayFault::Conflict { page: _, name: _ } => Status::Conflict,
        RelayFault::WriteFault => Status::WriteFailed,
        RelayFault::Memory => Status::NoMemory,
    }
}

/// The status that a fault of receiving ends the program with.
fn stream_status_of(fault: StreamFault) -> Status
    ensures { status_number result ≡ stream_status fault }
{
    match fault {
        StreamFault::Cut { frames: _ } => Status::CutStream,
        StreamFault::WriteFault => Status::WriteFailed,
        StreamFault::Memory => Status::NoMemory,
    }
}

/// The status that a fault of rules ends the program with.
fn evaluation_status_of(fault: EvaluationFault) -> Status
    ensures { status_number result ≡ evaluation_status fault }
{
    match fault {
        EvaluationFault::Rules { line: _ } => Status::BadRules,
        EvaluationFault::Pages { line: _ } => Status::BadStream,
        EvaluationFault::WriteFault => Status::WriteFailed,
        EvaluationFault::Memory => Status::NoMemory,
    }
}
