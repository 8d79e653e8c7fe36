//! Reading a whole source, up to the limit of a script.

ghost use Rattle.std.specs.Prelude.{◌≡◌, ◌+◌, ◌<◌, ◌≤◌, [], IfErr, IfOk, IfSome, OnErr, OnOk, length, take, vec_len};
ghost use Rattle.metrics_core.specs.Outside.{Rose};
ghost use Rattle.program_words.specs.Answers.{end_status, LeavesSource};
ghost use Rattle.program_words.specs.Reading.{HasRoom, IsTaken, IsPieceFault, IsReadFault};
ghost use Rattle.script_player.specs.Headline.{script_limit};

use drive_script::DriveFault;
use metrics_core::{Memory, Source};
use std::alloc::Global;

/// The most bytes that a script may have.
pub const SCRIPT_LIMIT: usize = 67_108_864;

/// How many bytes room is made for at a time.
const CHUNK: usize = 65_536;

/// Reads a source to its end. More than `SCRIPT_LIMIT` bytes are refused, and no more than one byte past them is read.
pub fn read_all<S: Source>(alloc: Global, source: &mut S) -> Result<Vec<u8>, DriveFault>
    ensures whole { IfOk result (λ all. IfSome (S.left source.old) (λ bytes. all.items ≡ bytes)) }
    ensures within { IfOk result (λ all. length all.items ≤ script_limit) }
    ensures refused { IfErr result (IsReadFault (S.left source.old) (Rose (S.faults source.old)
        (S.faults source.new))) }
    ensures left { IfSome (S.left source.old) (λ bytes. LeavesSource bytes (S.left source.new)
        (end_status result)) }
{
    let mut bytes = empty_with_room(alloc);
    let mut filled = 0;
    for _ in 0..SCRIPT_LIMIT + 1 {
        let count = read_piece(source, &mut bytes, filled)?;
        if count == 0 {
            bytes.truncate(filled);
            return Ok(bytes);
        }
        filled += count;
        if filled > SCRIPT_LIMIT {
            return Err(DriveFault::TooLong);
        }
    }
    Err(DriveFault::TooLong)
}

/// No bytes yet, with room for the longest script, where that can be had: address space alone until bytes come, and none of
/// them is moved later.
fn empty_with_room(alloc: Global) -> Vec<u8>
    ensures empty { result.items ≡ [] }
    ensures len { vec_len result ≡ 0 }
{
    match Vec::with_capacity(alloc, SCRIPT_LIMIT + 1) {
        Ok(bytes) => bytes,
        Err(_) => Vec::new(alloc),
    }
}

/// Reads once, into the room behind the first `filled` bytes, which are those so far. It answers how many bytes came, none
/// at the end of the input.
fn read_piece<S: Source>(
    source: &mut S,
    bytes: &mut Vec<u8>,
    filled: usize,
) -> Result<usize, DriveFault>
    requires { HasRoom filled (vec_len bytes.old) }
    ensures room { IfOk result (λ n. filled + n ≤ vec_len bytes.new) }
    ensures limit { vec_len bytes.new ≤ script_limit + 1 }
    ensures taken { IfOk result (λ n. IfSome (S.left source.old)
        (λ rest. IsTaken rest (S.left source.new) (take filled bytes.old.items) (take
        (filled + n) bytes.new.items) n)) }
    ensures refused { IfErr result (IsPieceFault
        (Rose (S.faults source.old) (S.faults source.new))) }
    ensures kept { OnErr result (S.left source.new ≡ S.left source.old) }
    ensures never_falls { S.faults source.old ≤ S.faults source.new }
{
    match make_room(bytes, filled) {
        Ok(()) => (),
        Err(_) => return Err(DriveFault::Memory),
    }
    match source.read(&mut bytes[filled..]) {
        Ok(count) => Ok(count),
        Err(_) => Err(DriveFault::ReadFault),
    }
}

/// Makes room behind the first `filled` bytes, where there is none.
fn make_room(bytes: &mut Vec<u8>, filled: usize) -> Result<(), Memory>
    requires { HasRoom filled (vec_len bytes.old) }
    ensures room { OnOk result (filled < vec_len bytes.new) }
    ensures limit { vec_len bytes.new ≤ script_limit + 1 }
    ensures same { take filled bytes.new.items ≡ take filled bytes.old.items }
{
    let len = bytes.len();
    if filled == len {
        bytes.resize(len + CHUNK.min(SCRIPT_LIMIT + 1 - len), 0)?;
    }
    Ok(())
}
