//! A long script, whose lines are read in pieces side by side. What they say is taken in order.

ghost use Rattle.std.specs.Prelude.{◌≡◌, ◌<◌, ◌++◌, ◌∷◌, [], ℕ, List, Some, flat_map, length, slice_get, IfOk, IfSome, IsTrue, OnOk};
ghost use Rattle.std.specs.List.{AllZip};
ghost use Rattle.metrics_core.specs.Characters.{newline};
ghost use Rattle.drive_script.specs.Runs.{AreSaid, IsReadAs, lines_said, said_so_far};
ghost use Rattle.drive_script.specs.Script.{IsLine, lines_of};
ghost use Rattle.drive_script.specs.Texts.{line_of, script_of, StandsBehind};
ghost use Rattle.drive_script.specs.Valid.{IsScriptOf};

use crate::lines::{Statement, read_line};
use crate::progress::ScriptSoFar;
use crate::reader::split_line;
use crate::recent::Recent;
use crate::{CallLine, Script};
use hash_starts::HashStart;
use memchr::memchr;
use metrics_core::Memory;
use side_by_side::for_each_beside;
use std::alloc::Global;
use std::marker::Model;
use std::mem;
use std::thread::Threads;

/// How many pieces are read side by side.
const PIECES: usize = 4;

/// The greatest size that pieces are cut to, and some more up to a newline: what four of them say is kept until it is taken, beside
/// the script so far.
const MOST_BYTES: usize = 524_288;

/// What a run of lines says.
#[derive(Drop)]
pub(crate) enum Run {
    /// Call lines, one behind the other.
    Calls(Vec<CallLine>),
    /// One line of another form.
    One(Statement),
}

/// A piece of a script: bytes that are whole lines, what those say, and whether they were read and each says something. A contract
/// sees it as its lines.
#[derive(Drop)]
pub(crate) struct Piece<'a> {
    bytes: &'a [u8],
    said: Vec<Run>,
    read: Result<bool, Memory>,
}

impl<'a> Model for Piece<'a> {
    ghost use Rattle.std.specs.Prelude.{ℕ, List};
    ghost use Rattle.drive_script.specs.Runs.{IsReadAs};
    ghost use Rattle.drive_script.specs.Script.{IsLine, lines_of};

    ghost Value = { List (List ℕ) };

    ghost view = { λ piece. lines_of piece.bytes.now };

    ghost invariant = { λ piece. IsReadAs (lines_of piece.bytes.now) piece.read piece.said.items };
}

impl<'a> Piece<'a> {
    /// The piece of these bytes, which are not read yet.
    fn unread(alloc: Global, bytes: &'a [u8]) -> Piece<'a>
        ensures { result ≡ lines_of bytes.now }
    {
        Piece {
            bytes,
            said: Vec::new(alloc),
            read: Ok(false),
        }
    }

    /// Reads what its lines say.
    fn read(&mut self, alloc: Global)
        ensures { self.new ≡ self.old }
    {
        self.said.clear();
        self.read = read_lines(alloc, self.bytes, &mut self.said);
    }

    /// What its lines say, in order, where the answer beside it is true.
    fn into_said(self) -> (Vec<Run>, Result<bool, Memory>)
        ensures { IsReadAs self.entry result.1 result.0.items }
    {
        (self.said, self.read)
    }
}

/// Reads a script of which the lines are read side by side. Answers none where it isn't valid.
pub(crate) fn read_pieces<R: Threads + Sync>(
    rt: &R,
    alloc: Global,
    start: HashStart,
    bytes: &[u8],
) -> Result<Option<Script>, Memory>
    ensures { IfOk result (λ read. IfSome read (λ script. IsScriptOf bytes.now (script_of script))) }
{
    let mut progress = ScriptSoFar::new(alloc, start);
    let least = piece_bytes(bytes.len());
    let mut rest = bytes;
    while !rest.is_empty() {
        let (mut pieces, behind) = first_pieces(alloc, rest, least)?;
        read_beside(rt, alloc, &mut pieces);
        if !take_pieces(alloc, &mut progress, pieces)? {
            return Ok(None);
        }
        rest = behind;
    }
    Ok(Some(progress.into_script()))
}

/// How many bytes the pieces of a script of so many have at least, but the last one: those of a short script are all read at
/// once.
fn piece_bytes(count: usize) -> usize {
    let part = count / PIECES;
    if part < MOST_BYTES { part } else { MOST_BYTES }
}

/// The first pieces, which are not read yet, and the bytes behind them.
fn first_pieces<'a>(
    alloc: Global,
    bytes: &'a [u8],
    least: usize,
) -> Result<(Vec<Piece<'a>>, &'a [u8]), Memory>
    requires { 0 < length bytes.now }
    ensures lines { IfOk result (λ cut.
        lines_of bytes.now ≡ flat_map (λ lines. lines) cut.0.items ++ lines_of cut.1.now) }
    ensures shorter { IfOk result (λ cut. length cut.1.now < length bytes.now) }
{
    let (first, behind) = first_piece(bytes, least);
    let mut pieces = Vec::with_capacity(alloc, PIECES)?;
    pieces.push(Piece::unread(alloc, first))?;
    let mut rest = behind;
    for _ in 1..PIECES {
        if rest.is_empty() {
            break;
        }
        let (next, behind) = first_piece(rest, least);
        pieces.push(Piece::unread(alloc, next))?;
        rest = behind;
    }
    Ok((pieces, rest))
}

/// The bytes of the first piece, and those behind it.
fn first_piece(bytes: &[u8], least: usize) -> (&[u8], &[u8])
    requires { 0 < length bytes.now }
    ensures lines { lines_of bytes.now ≡ lines_of result.0.now ++ lines_of result.1.now }
    ensures shorter { length result.1.now < length bytes.now }
{
    match end_of_piece(bytes, least) {
        Some(end) => (&bytes[..end + 1], &bytes[end + 1..]),
        None => (bytes, &[]),
    }
}

/// Where the newline stands that ends the first piece, unless that is all bytes.
fn end_of_piece(bytes: &[u8], least: usize) -> Option<usize>
    ensures { IfSome result (λ end. slice_get bytes.now end ≡ Some newline) }
{
    let behind = bytes.get(least..)?;
    let end = memchr(b'\n', behind)?;
    Some(least + end)
}

/// Reads what the lines of pieces say, side by side.
fn read_beside<R: Threads + Sync>(rt: &R, alloc: Global, pieces: &mut Vec<Piece<'_>>)
    ensures { pieces.new.items ≡ pieces.old.items }
{
    for_each_beside(
        rt,
        pieces.as_mut_slice(),
        &|_: usize, piece: &mut Piece<'_>|
            ensures { piece.exit.now ≡ piece.entry.now }
        { piece.read(alloc) },
    );
}

/// Reads what lines say, and answers whether each says something.
fn read_lines(alloc: Global, bytes: &[u8], said: &mut Vec<Run>) -> Result<bool, Memory>
    requires { said.old.items ≡ [] }
    ensures { IsReadAs (lines_of bytes.now) result said.new.items }
{
    let mut recent = Recent::new(alloc);
    let mut calls = Vec::new(alloc);
    let mut rest = bytes;
    while !rest.is_empty() {
        let (line, behind) = split_line(rest);
        let Some(says) = read_line(alloc, line, &mut recent)? else {
            return Ok(false);
        };
        push_line(alloc, said, &mut calls, says)?;
        rest = behind;
    }
    end_calls(alloc, said, &mut calls)?;
    Ok(true)
}

/// Puts what one more line says behind what the lines before it say, of which the last call lines stand apart.
fn push_line(
    alloc: Global,
    said: &mut Vec<Run>,
    calls: &mut Vec<CallLine>,
    says: Statement,
) -> Result<(), Memory>
    ensures { OnOk result (said_so_far said.new.items calls.new.items
        ≡ said_so_far said.old.items calls.old.items ++ line_of says ∷ []) }
{
    match says {
        Statement::Call(call) => {
            calls.push(call)?;
            Ok(())
        }
        says => {
            end_calls(alloc, said, calls)?;
            said.push(Run::One(says))?;
            Ok(())
        }
    }
}

/// Puts the call lines that stand apart behind the others, as a run.
fn end_calls(alloc: Global, said: &mut Vec<Run>, calls: &mut Vec<CallLine>) -> Result<(), Memory>
    ensures said { OnOk result (flat_map lines_said said.new.items
        ≡ said_so_far said.old.items calls.old.items) }
    ensures calls { OnOk result (calls.new.items ≡ []) }
{
    if !calls.is_empty() {
        let run = mem::replace(calls, Vec::new(alloc));
        said.push(Run::Calls(run))?;
    }
    Ok(())
}

/// Takes what the lines of pieces say behind the lines so far, in order. Answers whether all of them are a valid script.
fn take_pieces(
    alloc: Global,
    progress: &mut ScriptSoFar,
    pieces: Vec<Piece<'_>>,
) -> Result<bool, Memory>
    ensures { (done : List (List ℕ)) → StandsBehind done progress.old
        → IfOk result (λ taken. IsTrue taken → StandsBehind (done ++ flat_map (λ lines. lines) pieces.entry.items) progress.new) }
{
    for piece in pieces {
        let (said, read) = piece.into_said();
        if !read? || !take_runs(alloc, progress, said)? {
            return Ok(false);
        }
    }
    Ok(true)
}

/// Takes what lines say behind the lines so far, in order. Answers whether all of them are a valid script.
fn take_runs(alloc: Global, progress: &mut ScriptSoFar, said: Vec<Run>) -> Result<bool, Memory>
    ensures { (done lines : List (List ℕ)) → StandsBehind done progress.old
        → AreSaid lines said.items
        → IfOk result (λ taken. IsTrue taken → StandsBehind (done ++ lines) progress.new) }
{
    for part in said {
        if !take_run(alloc, progress, part)? {
            return Ok(false);
        }
    }
    Ok(true)
}

/// Takes what a run of lines says behind the lines so far. Answers whether all of them are a valid script.
fn take_run(alloc: Global, progress: &mut ScriptSoFar, run: Run) -> Result<bool, Memory>
    ensures { (done lines : List (List ℕ)) → StandsBehind done progress.old
        → AllZip IsLine lines (lines_said run)
        → IfOk result (λ taken. IsTrue taken → StandsBehind (done ++ lines) progress.new) }
{
    match run {
        Run::Calls(calls) => progress.take_calls(calls),
        Run::One(says) => progress.take(alloc, says),
    }
}
