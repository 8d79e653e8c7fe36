//! The answer to words: a text of the program itself, or what `run` does.

ghost use Rattle.std.specs.Prelude.{◌≡◌, ℕ, List, IfSome};
ghost use Rattle.net_addresses.specs.Addresses.{NetworkText};
ghost use Rattle.dsd_addresses.specs.Remotes.{RemoteText};
ghost use Rattle.program_words.specs.Answers.{texts_of, IsDriveTo, IsDriveWords};
ghost use Rattle.program_words.specs.BenchWords.{AreBenchWords};
ghost use Rattle.program_words.specs.Devices.{link_run, listener_run, sink_run, source_run};
ghost use Rattle.program_words.specs.Ends.{IsAnyEnd, IsBenchEnd, IsDriveEnd, IsServeEnd, IsStreamEnd};
ghost use Rattle.script_player.specs.Headline.{IsPlayed};
ghost use Rattle.program_words.specs.Serving.{AreServeWords};
ghost use Rattle.program_words.specs.Statuses.{status_number};
ghost use Rattle.program_words.specs.Words.{AsksFor, AsksForNone, IsTold, IsToldAlone};

use crate::running::run;
use crate::say::say_fault;
use crate::statuses::Status;
use crate::texts::asked_text;
use drive_script::DriveFault;
use dsd_exporter::Link;
use metrics_core::{Sink, Source, write_whole};
use prom_serve::Listener;
use script_player::Gate;
use std::alloc::Global;
use std::net::{Net, TcpListener, TcpStream};
use std::random::RandomSource;
use std::sync::Wait;
use std::thread::Threads;

/// Answers the words, and says the status that the program ends with. To `--help` or `-h` the help text goes to `out`, and to `--version` the
/// version: the status is 0, or 7 where `out` failed, and nothing else is touched but `err` then. All other words are handed to `run`.
pub fn answer<
    R: Net<Listener = TcpListener, Stream = TcpStream> + RandomSource + Threads + Wait + Sync,
    S: Source,
    K: Sink,
    E: Sink,
    L: Link,
    G: Gate + Sync,
    N: Listener,
>(
    rt: &R,
    alloc: Global,
    words: &[&str],
    source: &mut S,
    out: &mut K,
    err: &mut E,
    link: &mut L,
    gate: &G,
    listener: &mut N,
) -> u8
    // Words that ask for a text.
    ensures told { (text : List ℕ) → AsksFor (texts_of words.now) text → IsToldAlone text
        (sink_run K.written K.faults out.old out.new) (sink_run E.written E.faults err.old err.new)
        (source.new ≡ source.old) (link.new ≡ link.old) (listener.new ≡ listener.old) result }

    // All others: what `run` says of them.
    ensures headline { IsDriveWords (texts_of words.now) → result ≡ 0 → IfSome (S.left source.old)
        (λ bytes. IsPlayed bytes (K.written out.old) (K.written out.new)) }
    ensures drive { (to : RemoteText) → IsDriveTo (texts_of words.now) to → IsDriveEnd to
        (source_run S.left S.faults source.old source.new) (sink_run K.written K.faults out.old out.new)
        (sink_run E.written E.faults err.old err.new) (link_run L.sent L.faults L.aimed link.old link.new) result }
    ensures serve { (count : ℕ) (networks : List NetworkText) → AreServeWords (texts_of words.now) count networks
        → IsServeEnd count networks (source_run S.left S.faults source.old source.new)
        (sink_run E.written E.faults err.old err.new)
        (listener_run N.given N.finished N.lost N.faults listener.old listener.new) result }
    ensures bench { (count : ℕ) → AreBenchWords (texts_of words.now) count → IsBenchEnd count
        (sink_run K.written K.faults out.old out.new) (sink_run E.written E.faults err.old err.new) result }
    ensures streams { IsStreamEnd (texts_of words.now) (source_run S.left S.faults source.old source.new)
        (sink_run K.written K.faults out.old out.new) (sink_run E.written E.faults err.old err.new) result }
    ensures all { AsksForNone (texts_of words.now) → IsAnyEnd (texts_of words.now)
        (sink_run E.written E.faults err.old err.new) (source.new ≡ source.old)
        (out.new ≡ out.old) (link.new ≡ link.old) (listener.new ≡ listener.old) result }
{
    match asked_text(words) {
        Some(text) => tell(out, err, text).number(),
        None => run(rt, alloc, words, source, out, err, link, gate, listener),
    }
}

/// Writes a text, and says where that failed.
fn tell<K: Sink, E: Sink>(out: &mut K, err: &mut E, text: &str) -> Status
    ensures { IsTold text.now (sink_run K.written K.faults out.old out.new)
        (sink_run E.written E.faults err.old err.new) (status_number result) }
{
    match write_whole(out, text.as_bytes()) {
        Ok(()) => Status::Done,
        Err(_) => {
            say_fault(err, DriveFault::WriteFault);
            Status::WriteFailed
        }
    }
}
