//! The lines that a run leaves on `err`. They are written piece by piece and take no memory, so that want of memory is
//! said too.

ghost use Rattle.std.specs.Prelude.{◌++◌, codes, flat_map};
ghost use Rattle.metrics_core.specs.Characters.{line};
ghost use Rattle.metrics_core.specs.Outside.{Rose};
ghost use Rattle.dsd_addresses.specs.Faults.{limit_fault_text, limit_text};
ghost use Rattle.drive_script.specs.Faults.{fault_text, setting_text};
ghost use Rattle.program_words.specs.Answers.{IsSaidText, report_text, usage_text};
ghost use Rattle.program_words.specs.Evaluate.{evaluated_line, evaluation_fault_text};
ghost use Rattle.program_words.specs.Receive.{received_text, stream_fault_text};
ghost use Rattle.program_words.specs.Relay.{merged_text, relay_fault_text};

use drive_script::{DriveFault, SettingFault};
use dsd_addresses::LimitFault;
use dsd_receiver::{Received, StreamFault};
use itoa::Buffer;
use metrics_core::{Sink, write_whole};
use page_relay::RelayFault;
use rule_eval::{Evaluated, EvaluationFault};
use script_player::Report;

/// Says how the program is called.
pub(crate) fn say_usage<E: Sink>(err: &mut E)
    ensures said { IsSaidText (Rose (E.faults err.old) (E.faults err.new))
        (E.written err.old) (E.written err.new) (line usage_text) }
{
    say(
        err,
        &[
            b"usage: drive [ADDRESS] | serve COUNT [NETWORK ..] | bench N | merge | receive | rules\n",
        ],
    );
}

/// Says what a run did.
pub(crate) fn say_report<E: Sink>(err: &mut E, report: &Report)
    ensures said { IsSaidText (Rose (E.faults err.old) (E.faults err.new))
        (E.written err.old) (E.written err.new) (line (report_text report.now)) }
{
    let (mut pages, mut sent) = (Buffer::new(), Buffer::new());
    let (mut unsent, mut dropped) = (Buffer::new(), Buffer::new());
    say(
        err,
        &[
            b"pages ",
            pages.format(report.pages).as_bytes(),
            b" sent ",
            sent.format(report.sent).as_bytes(),
            b" unsent ",
            unsent.format(report.unsent).as_bytes(),
            b" dropped ",
            dropped.format(report.dropped).as_bytes(),
            b"\n",
        ],
    );
}

/// Says why a run ended before its last page.
pub(crate) fn say_fault<E: Sink>(err: &mut E, fault: DriveFault)
    ensures said { IsSaidText (Rose (E.faults err.old) (E.faults err.new))
        (E.written err.old) (E.written err.new) (line (fault_text fault)) }
{
    match fault {
        DriveFault::Script { line } => {
            let mut number = Buffer::new();
            say(
                err,
                &[b"script: line ", number.format(line).as_bytes(), b"\n"],
            );
        }
        DriveFault::Setting(fault) => say_setting(err, fault),
        DriveFault::TooLong => say(err, &[b"script: longer than 67108864 bytes\n"]),
        DriveFault::ReadFault => say(err, &[b"read failed\n"]),
        DriveFault::WriteFault => say(err, &[b"write failed\n"]),
        DriveFault::Memory => say(err, &[b"out of memory\n"]),
    }
}

/// Says which setting is refused.
fn say_setting<E: Sink>(err: &mut E, fault: SettingFault)
    ensures said { IsSaidText (Rose (E.faults err.old) (E.faults err.new))
        (E.written err.old) (E.written err.new) (line (setting_text fault)) }
{
    match fault {
        SettingFault::Empty => say(err, &[b"bucket bounds/quantiles cannot be empty\n"]),
        SettingFault::ZeroDuration => say(err, &[b"bucket durations cannot be set to zero\n"]),
        SettingFault::SpanTooLong => {
            say(err, &[b"bucket durations exceed 64 bits of nanoseconds\n"]);
        }
        SettingFault::Native(reason) => say(err, &[reason.as_bytes(), b"\n"]),
        SettingFault::Limit(fault) => say_limit(err, fault),
    }
}

/// Says why a payload limit is refused.
fn say_limit<E: Sink>(err: &mut E, fault: LimitFault)
    ensures said { IsSaidText (Rose (E.faults err.old) (E.faults err.new))
        (E.written err.old) (E.written err.new)
        (line (codes "invalid configuration: " ++ limit_fault_text fault)) }
{
    match fault {
        LimitFault::Low(limit) => {
            say_length(err, limit, b" bytes) is below the minimum (6 bytes)\n");
        }
        LimitFault::Udp(limit) => {
            say_length(
                err,
                limit,
                b" bytes) exceeds UDP datagram maximum length (65527 bytes)\n",
            );
        }
        LimitFault::Bound(limit) => {
            say_length(
                err,
                limit,
                b" bytes) exceeds theoretical upper bound (4294967295 bytes)\n",
            );
        }
    }
}

/// Says that a payload limit is refused, with what is said behind its number.
fn say_length<E: Sink>(err: &mut E, limit: u64, behind: &[u8])
    ensures said { IsSaidText (Rose (E.faults err.old) (E.faults err.new))
        (E.written err.old) (E.written err.new)
        (codes "invalid configuration: " ++ limit_text limit behind.now) }
{
    let mut number = Buffer::new();
    say(
        err,
        &[
            b"invalid configuration: maximum payload length (",
            number.format(limit).as_bytes(),
            behind,
        ],
    );
}

/// Says how many pages were merged.
pub(crate) fn say_merged<E: Sink>(err: &mut E, pages: u64)
    ensures said { IsSaidText (Rose (E.faults err.old) (E.faults err.new))
        (E.written err.old) (E.written err.new) (line (merged_text pages)) }
{
    let mut number = Buffer::new();
    say(
        err,
        &[b"merged ", number.format(pages).as_bytes(), b" pages\n"],
    );
}

/// Says why pages weren't relayed.
pub(crate) fn say_relay_fault<E: Sink>(err: &mut E, fault: &RelayFault)
    ensures said { IsSaidText (Rose (E.faults err.old) (E.faults err.new))
        (E.written err.old) (E.written err.new) (line (relay_fault_text fault.now)) }
{
    let mut number = Buffer::new();
    match fault {
        RelayFault::Syntax { line } => say(
            err,
            &[b"page: line ", number.format(*line).as_bytes(), b"\n"],
        ),
        RelayFault::Conflict { page, name } => say(
            err,
            &[
                b"conflict: page ",
                number.format(*page).as_bytes(),
                b" family ",
                name.as_bytes(),
                b"\n",
            ],
        ),
        RelayFault::WriteFault => say(err, &[b"write failed\n"]),
        RelayFault::Memory => say(err, &[b"out of memory\n"]),
    }
}

/// Says what was received.
pub(crate) fn say_received<E: Sink>(err: &mut E, received: &Received)
    ensures said { IsSaidText (Rose (E.faults err.old) (E.faults err.new))
        (E.written err.old) (E.written err.new) (line (received_text received.now)) }
{
    let (mut frames, mut lines, mut bad) = (Buffer::new(), Buffer::new(), Buffer::new());
    say(
        err,
        &[
            b"received ",
            frames.format(received.frames).as_bytes(),
            b" frames ",
            lines.format(received.lines).as_bytes(),
            b" lines ",
            bad.format(received.bad).as_bytes(),
            b" bad\n",
        ],
    );
}

/// Says why payloads weren't received.
pub(crate) fn say_stream_fault<E: Sink>(err: &mut E, fault: StreamFault)
    ensures said { IsSaidText (Rose (E.faults err.old) (E.faults err.new))
        (E.written err.old) (E.written err.new) (line (stream_fault_text fault)) }
{
    match fault {
        StreamFault::Cut { frames } => {
            let mut number = Buffer::new();
            say(
                err,
                &[
                    b"stream: cut after ",
                    number.format(frames).as_bytes(),
                    b" frames\n",
                ],
            );
        }
        StreamFault::WriteFault => say(err, &[b"write failed\n"]),
        StreamFault::Memory => say(err, &[b"out of memory\n"]),
    }
}

/// Says what was evaluated.
pub(crate) fn say_evaluated<E: Sink>(err: &mut E, evaluated: &Evaluated)
    ensures said { IsSaidText (Rose (E.faults err.old) (E.faults err.new))
        (E.written err.old) (E.written err.new) (line (evaluated_line evaluated.now)) }
{
    let (mut pages, mut fired) = (Buffer::new(), Buffer::new());
    say(
        err,
        &[
            b"evaluated ",
            pages.format(evaluated.pages).as_bytes(),
            b" pages ",
            fired.format(evaluated.fired).as_bytes(),
            b" fired\n",
        ],
    );
}

/// Says why rules weren't evaluated.
pub(crate) fn say_evaluation_fault<E: Sink>(err: &mut E, fault: EvaluationFault)
    ensures said { IsSaidText (Rose (E.faults err.old) (E.faults err.new))
        (E.written err.old) (E.written err.new) (line (evaluation_fault_text fault)) }
{
    match fault {
        EvaluationFault::Rules { line } => {
            let mut number = Buffer::new();
            say(
                err,
                &[b"rules: line ", number.format(line).as_bytes(), b"\n"],
            );
        }
        EvaluationFault::Pages { line } => {
            let mut number = Buffer::new();
            say(
                err,
                &[b"page: line ", number.format(line).as_bytes(), b"\n"],
            );
        }
        EvaluationFault::WriteFault => say(err, &[b"write failed\n"]),
        EvaluationFault::Memory => say(err, &[b"out of memory\n"]),
    }
}

/// Writes some pieces, one after another. A failing `err` changes nothing else: what follows is left out.
pub(crate) fn say<E: Sink>(err: &mut E, pieces: &[&[u8]])
    ensures said { IsSaidText (Rose (E.faults err.old) (E.faults err.new))
        (E.written err.old) (E.written err.new) (flat_map (λ piece. piece.now) pieces.now) }
{
    for piece in pieces {
        match write_whole(err, piece) {
            Ok(()) => (),
            Err(_) => return,
        }
    }
}
