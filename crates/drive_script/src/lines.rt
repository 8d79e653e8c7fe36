//! What a line says: one function for each form of line but the header lines.

ghost use Rattle.std.specs.Prelude.{◌≡◌, Option, Some, None, IfOk, MatchOption};
ghost use Rattle.std.specs.Option.{option_map};
ghost use Rattle.drive_script.specs.Script.{ScriptLine, IsLine};
ghost use Rattle.drive_script.specs.Reading.{round_at, describe_at, register_at, call_at};
ghost use Rattle.drive_script.specs.Texts.{call_line_of, registered_of, setup_of, line_of};

use crate::cursor::Cursor;
use crate::headers::{HeaderLine, header_line};
use crate::recent::Recent;
use crate::{Act, CallLine, Setup};
use metrics_core::{Key, KeyName, Memory, MetricKind};
use std::alloc::Global;
use std::sync::Arc;

/// The number of the last lane.
const LAST_LANE: u64 = 7;

/// What one line says.
#[derive(Drop)]
pub(crate) enum Statement {
    Header(HeaderLine),
    /// The moment of a round that begins.
    Round(u64),
    Setup(Setup),
    Call(CallLine),
}

/// What a call line does, before its handle and its argument.
#[derive(Clone, Copy)]
pub(crate) enum Verb {
    Inc,
    Abs,
    Add,
    Sub,
    Set,
    Rec,
    RecN,
}

/// What a line says, if it is of some form.
pub(crate) fn read_line<'a>(
    alloc: Global,
    line: &'a [u8],
    recent: &mut Recent<'a>,
) -> Result<Option<Statement>, Memory>
    ensures { IfOk result (λ read.
        MatchOption read ((says : ScriptLine) → ¬ IsLine line.now says)
        (λ says. IsLine line.now (line_of says))) }
{
    if let Some(call) = call_line(line) {
        return Ok(Some(Statement::Call(call)));
    }
    if let Some(moment) = round_line(line) {
        return Ok(Some(Statement::Round(moment)));
    }
    if let Some((kind, key)) = register_line(alloc, line, recent)? {
        return Ok(Some(Statement::Setup(Setup::Register { kind, key })));
    }
    if let Some(description) = describe_line(alloc, line)? {
        return Ok(Some(Statement::Setup(description)));
    }
    match header_line(alloc, line)? {
        Some(header) => Ok(Some(Statement::Header(header))),
        None => Ok(None),
    }
}

/// The moment of a round line.
#[tactic(auto, unfolding(crate::specs::Reading::round_at))]
fn round_line(line: &[u8]) -> Option<u64>
    ensures { result ≡ round_at line.now }
{
    let mut cursor = Cursor::new(line);
    cursor.literal(b"round ")?;
    let moment = cursor.number(u64::MAX)?;
    cursor.end()?;
    Some(moment)
}

/// The kind and the key that a register line registers.
#[tactic(auto, unfolding(crate::specs::Reading::register_at))]
fn register_line<'a>(
    alloc: Global,
    line: &'a [u8],
    recent: &mut Recent<'a>,
) -> Result<Option<(MetricKind, Key)>, Memory>
    ensures { IfOk result (λ read. option_map registered_of read ≡ register_at line.now) }
{
    let mut cursor = Cursor::new(line);
    let Some(kind) = cursor.registered_kind() else {
        return Ok(None);
    };
    let Some(name) = cursor.text(alloc)? else {
        return Ok(None);
    };
    let name = recent.shared(alloc, 0, name)?;
    let Some(labels) = cursor.labels(alloc, recent)? else {
        return Ok(None);
    };
    let labels = Arc::new(alloc, labels)?;
    let key = Key::from_shared_labels(KeyName::from(name), labels);
    Ok(Some((kind, key)))
}

/// What a describe line describes.
#[tactic(auto, unfolding(crate::specs::Reading::describe_at))]
fn describe_line(alloc: Global, line: &[u8]) -> Result<Option<Setup>, Memory>
    ensures { IfOk result (λ read. option_map setup_of read ≡ describe_at line.now) }
{
    let mut cursor = Cursor::new(line);
    let Some(kind) = cursor.described_kind() else {
        return Ok(None);
    };
    let Some(name) = cursor.text(alloc)? else {
        return Ok(None);
    };
    let Some(unit) = cursor.spaced_unit() else {
        return Ok(None);
    };
    let Some(text) = cursor.spaced_text(alloc)? else {
        return Ok(None);
    };
    let Some(()) = cursor.end() else {
        return Ok(None);
    };
    Ok(Some(Setup::Describe {
        kind,
        name: name.into_owned(alloc)?,
        unit,
        text: text.into_owned(alloc)?,
    }))
}

/// A call line.
#[tactic(auto, unfolding(crate::specs::Reading::call_at))]
fn call_line(line: &[u8]) -> Option<CallLine>
    ensures { option_map call_line_of result ≡ call_at line.now }
{
    let mut cursor = Cursor::new(line);
    let lane = cursor.number(LAST_LANE)?;
    let verb = cursor.verb()?;
    let handle = cursor.number(u64::from(u32::MAX))?;
    cursor.literal(b" ")?;
    let act = cursor.argument(verb)?;
    cursor.end()?;
    Some(CallLine {
        lane: lane as u8,
        handle: handle as u32,
        act,
    })
}
