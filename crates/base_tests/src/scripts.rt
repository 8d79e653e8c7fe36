//! Scripts as they are read, and what is said of those that are not played to their end.

use drive_script::{Act, CallLine, DriveFault, Round, Script, Setup, read_script};
use metrics_core::{Fixed, Memory, MetricKind};
use std::alloc::Global;
use std::test::Fail;

/// A script with a global label, a counter, a gauge with two labels, and a call of each verb.
const SCRIPT: &str =
    "global \"e\" \"a b\"\nround 0\nregister counter \"c\"\nregister gauge \"\u{e9} \\\"\" \"k\"=\"\\n\\\\\" \"l\"=\"\"\n0 inc 0 42\n7 abs 0 7\n1 set 1 -3.14\n2 add 1 5\n3 sub 1 0.000000001\nround 0\nround 1\n";

/// Whether the first label of all series is that of the script.
fn has_label(globals: &[(String, String)]) -> bool {
    match globals.first() {
        Some(label) => label.0.as_str() == "e" && label.1.as_str() == "a b",
        None => false,
    }
}

/// Whether a register line is the script's second one.
fn is_gauge(line: &Setup) -> bool {
    let Setup::Register { kind, key } = line else {
        return false;
    };
    let values = ["\n\\", ""];
    (*kind, key.name()) == (MetricKind::Gauge, "\u{e9} \"")
        && key
            .labels()
            .zip(values.iter())
            .all(|(label, value)| label.value() == *value)
}

/// Whether the register lines of a round are two, and the second is the script's.
fn has_series(setup: &[Setup]) -> bool {
    match setup.get(1) {
        Some(line) => setup.len() == 2 && is_gauge(line),
        None => false,
    }
}

/// The calls of the script: lane, handle and act.
const CALLS: [(u8, u32, Act); 5] = [
    (0, 0, Act::Inc(42)),
    (7, 0, Act::Abs(7)),
    (1, 1, Act::Set(Fixed(-3_140_000_000))),
    (2, 1, Act::Add(Fixed(5_000_000_000))),
    (3, 1, Act::Sub(Fixed(1))),
];

/// Whether the calls are those of the script.
fn has_calls(calls: &[CallLine]) -> bool {
    calls.len() == CALLS.len()
        && calls.iter().zip(&CALLS).all(|(call, expected)| (call.lane, call.handle, call.act)
            == *expected)
}

/// Whether there are three rounds, and the last one's moment is the script's.
fn ends_at_one(rounds: &[Round]) -> bool {
    match rounds.get(2) {
        Some(round) => rounds.len() == 3 && round.moment == 1,
        None => false,
    }
}

/// Whether this is the script.
fn is_read(script: &Script) -> bool {
    match script.rounds.first() {
        Some(round) => {
            ends_at_one(&script.rounds)
                && has_label(&script.settings.globals)
                && has_series(&round.setup)
                && has_calls(round.calls.as_slice())
        }
        None => false,
    }
}

/// Whether a script was read as it was written.
fn reads(alloc: Global) -> Result<bool, DriveFault> {
    let script = read_script(alloc, SCRIPT.as_bytes())?;
    Ok(is_read(&script))
}

#[test]
fn a_counter_a_gauge_and_their_calls(rt: HostRuntime) -> Result<(), Fail> {
    assert!(rt; reads(rt.alloc())?);
    Ok(())
}

/// Scripts that are none, and the first bad line of each.
const BAD: [(&str, u64); 24] = [
    ("\n", 1),
    ("round 0\n\nregister counter \"a\"\n", 2),
    ("round 00\n", 1),
    ("round 18446744073709551616\n", 1),
    ("round  0\n", 1),
    ("round 0 \n", 1),
    ("round 0\r\n", 1),
    ("round 5\nround 4\n", 2),
    ("round 0\nglobal \"a\" \"b\"\n", 2),
    ("global \"a\"\n", 1),
    ("round 0\nregister timer \"h\"\n", 2),
    ("round 0\nregister counter \"a\\t\"\n", 2),
    ("round 0\nregister counter \"a\" \"b\"\n", 2),
    ("round 0\n0 inc 0 1\n", 2),
    ("round 0\nregister counter \"a\"\n0 inc 0", 3),
    ("round 0\nregister counter \"a\"\n0 inc 4294967296 1\n", 3),
    ("round 0\nregister counter \"a\"\n8 inc 0 1\n", 3),
    ("round 0\nregister counter \"a\"\n0 set 0 1\n", 3),
    ("round 0\nregister gauge \"a\"\n0 set 0 1.0000000001\n", 3),
    ("round 0\nregister gauge \"a\"\n0 set 0 1.\n", 3),
    (
        "round 0\nregister gauge \"a\"\n0 set 0 9223372036.854775808\n",
        3,
    ),
    (
        "round 0\nregister counter \"a\"\n0 inc 0 1\nregister counter \"b\"\n",
        4,
    ),
    (
        "round 0\nregister counter \"x\" \"a\"=\"\\\\\"\nregister counter \"x\" \"a\"=\"\\\\\\\\\"\n",
        3,
    ),
    (
        "round 0\nregister counter \"a b\"\nregister gauge \"a_b\"\nregister counter \"a_b\"\n",
        4,
    ),
];

/// Whether this line of a script is its first bad one. Here alone such an answer is dropped.
fn is_bad(alloc: Global, script: &[u8], wanted: u64) -> bool {
    matches!(read_script(alloc, script), Err(DriveFault::Script { line }) if line == wanted)
}

#[test]
fn first_bad_lines(rt: HostRuntime) {
    for (script, line) in &BAD {
        assert!(rt; is_bad(rt.alloc(), script.as_bytes(), *line), "{script}");
    }
    assert!(rt; is_bad(rt.alloc(), &[255], 1));
}

/// Whether this is said of faults.
fn is_said(alloc: Global, said: &str) -> Result<bool, Fail> {
    let memory = DriveFault::from(Memory);
    let script = DriveFault::Script { line: 3 };
    Ok(format!(in alloc; "{memory}, {script}")?.as_str() == said)
}

#[test]
fn what_is_said_of_a_fault(rt: HostRuntime) -> Result<(), Fail> {
    assert!(rt; is_said(rt.alloc(), "out of memory, script: line 3")?);
    Ok(())
}
