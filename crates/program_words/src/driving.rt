//! The run of a script: its source is read whole, its bytes as a script, and the script is played.

ghost use Rattle.std.specs.Prelude.{◌≡◌, IfErr, IfOk, IfSome, OnOk};
ghost use Rattle.metrics_core.specs.Outside.{Rose};
ghost use Rattle.drive_script.specs.Texts.{script_of};
ghost use Rattle.dsd_addresses.specs.Remotes.{remote_text};
ghost use Rattle.program_words.specs.Answers.{end_status, ComesBy, IsComplete, IsReported, LeavesDevices, LeavesRun, LeavesSource};
ghost use Rattle.script_player.specs.Headline.{IsPlayed};
ghost use Rattle.program_words.specs.Reading.{IsReadAs, IsUnread};

use crate::reading::read_all;
use drive_script::{DriveFault, Script, check_settings, read_script_beside};
use dsd_addresses::RemoteAddr;
use dsd_exporter::Link;
use hash_starts::HashStart;
use metrics_core::{Sink, Source};
use script_player::{Gate, Report, play_script};
use std::alloc::Global;
use std::random::RandomSource;
use std::sync::Wait;
use std::thread::Threads;

/// Reads the whole script from the source and plays it: one page for each round goes to `out`, each ended by the line
/// `# EOF`, and behind each page the payloads of a flush go to the link, which is aimed at the address once, before the first round.
/// The lanes of a round run side by side, and the gate is called around each of their calls. Nothing is written or sent
/// before the whole script was read and found valid. A payload that the link refuses is counted, and changes nothing else. Names,
/// labels and keys are looked up by hashes from a start that is drawn for the run, since the script may be a stranger's.
pub fn drive<R: RandomSource + Threads + Wait + Sync, S: Source, K: Sink, L: Link, G: Gate + Sync>(
    rt: &R,
    alloc: Global,
    to: &RemoteAddr,
    source: &mut S,
    out: &mut K,
    link: &mut L,
    gate: &G,
) -> Result<Report, DriveFault>
    // What was written is one page per round, each exactly the families of the sequential state, for one order of the calls.
    ensures played { OnOk result (IfSome (S.left source.old) (λ bytes.
        IsPlayed bytes (K.written out.old) (K.written out.new))) }

    // What the link was handed is the payloads of one flush per round, each the lines of the sequential state, for orders of its own;
    // the report counts them.
    ensures sent { IfOk result (λ report. IfSome (S.left source.old)
        (λ bytes. IsReported bytes (remote_text to.now)
        (record { sent = L.sent link.old; faults = L.faults link.old })
        (record { sent = L.sent link.new; faults = L.faults link.new }) report)) }

    // Each fault comes only by its cause.
    ensures cause { IfErr result (ComesBy (remote_text to.now) (S.left source.old)
        (Rose (S.faults source.old) (S.faults source.new))
        (Rose (K.faults out.old) (K.faults out.new))) }

    // What each fault leaves.
    ensures leaves { IfErr result (LeavesRun (remote_text to.now) (S.left source.old)
        (K.written out.old) (K.written out.new)
        (record { sent = L.sent link.old; faults = L.faults link.old })
        (record { sent = L.sent link.new; faults = L.faults link.new }) (link.new ≡ link.old)) }

    // Where the link is aimed, and what is still to come of the source.
    ensures devices { LeavesDevices (remote_text to.now) (L.aimed link.old) (L.aimed link.new)
        (S.left source.old) (S.left source.new) (end_status result) }

    // Each cause brings its answer.
    ensures complete { IfSome (S.left source.old) (λ bytes. IsComplete (remote_text to.now) bytes
        (Rose (S.faults source.old) (S.faults source.new))
        (Rose (K.faults out.old) (K.faults out.new))
        (end_status result)) }
{
    let start = HashStart::drawn(rt);
    let script = read_whole_script(rt, alloc, start, source)?;
    check_settings(&script.settings, to)?;
    link.aim(alloc, to)?;
    play_script(rt, alloc, start, gate, to, script, out, link)
}

/// Reads the whole script from the source, the lines of a long one side by side. Its bytes are let go at the end.
pub(crate) fn read_whole_script<R: Threads + Sync, S: Source>(
    rt: &R,
    alloc: Global,
    start: HashStart,
    source: &mut S,
) -> Result<Script, DriveFault>
    ensures read { IfOk result (λ script. IsReadAs (S.left source.old) (script_of script)) }
    ensures refused { IfErr result (IsUnread (S.left source.old)
        (Rose (S.faults source.old) (S.faults source.new))) }
    ensures left { IfSome (S.left source.old) (λ bytes. LeavesSource bytes (S.left source.new)
        (end_status result)) }
{
    let bytes = read_all(alloc, source)?;
    read_script_beside(rt, alloc, start, &bytes)
}
