//! The reader of scripts.

ghost use Rattle.std.specs.Prelude.{◌≡◌, ◌<◌, ◌∷◌, length, IfOk, IfErr};
ghost use Rattle.drive_script.specs.Faults.{IsScriptFault};
ghost use Rattle.drive_script.specs.Script.{lines_of};
ghost use Rattle.drive_script.specs.Texts.{script_of};
ghost use Rattle.drive_script.specs.Valid.{IsScriptOf};

use crate::beside::read_pieces;
use crate::progress::ScriptSoFar;
use crate::recent::Recent;
use crate::{DriveFault, Script};
use hash_starts::HashStart;
use memchr::memchr;
use std::alloc::Global;
use std::thread::Threads;

/// From how many bytes on the lines of a script are read in pieces. Fewer aren't worth a thread.
const MANY_BYTES: usize = 262_144;

/// Reads a script. Bytes that are no valid script are refused with their first bad line. Labels and keys are looked up by hashes
/// from the fixed start.
pub fn read_script(alloc: Global, bytes: &[u8]) -> Result<Script, DriveFault>
    ensures valid { IfOk result (λ script. IsScriptOf bytes.now (script_of script)) }
    ensures refused { IfErr result (IsScriptFault bytes.now) }
{
    read_script_from(alloc, HashStart::fixed(), bytes)
}

/// Reads a script as `read_script` does. Labels and keys are looked up by hashes from a start, which should be drawn where the
/// script is a stranger's.
pub fn read_script_from(alloc: Global, start: HashStart, bytes: &[u8]) -> Result<Script, DriveFault>
    ensures valid { IfOk result (λ script. IsScriptOf bytes.now (script_of script)) }
    ensures refused { IfErr result (IsScriptFault bytes.now) }
{
    let mut progress = ScriptSoFar::new(alloc, start);
    let mut recent = Recent::new(alloc);
    let mut rest = bytes;
    let mut line = 0;
    while !rest.is_empty() {
        let (text, after) = split_line(rest);
        line += 1;
        if !progress.take_line(alloc, text, &mut recent)? {
            return Err(DriveFault::Script { line });
        }
        rest = after;
    }
    Ok(progress.into_script())
}

/// Reads a script as `read_script_from` does. The lines of a long one are read side by side, in pieces; where it isn't valid, it is read
/// once more for its first bad line.
pub fn read_script_beside<R: Threads + Sync>(
    rt: &R,
    alloc: Global,
    start: HashStart,
    bytes: &[u8],
) -> Result<Script, DriveFault>
    ensures valid { IfOk result (λ script. IsScriptOf bytes.now (script_of script)) }
    ensures refused { IfErr result (IsScriptFault bytes.now) }
{
    if bytes.len() >= MANY_BYTES
        && let Some(script) = read_pieces(rt, alloc, start, bytes)?
    {
        return Ok(script);
    }
    read_script_from(alloc, start, bytes)
}

/// The first line, without its newline, and the bytes behind that.
pub(crate) fn split_line(bytes: &[u8]) -> (&[u8], &[u8])
    requires { 0 < length bytes.now }
    ensures lines { lines_of bytes.now ≡ result.0.now ∷ lines_of result.1.now }
    ensures shorter { length result.1.now < length bytes.now }
{
    match memchr(b'\n', bytes) {
        Some(end) => (&bytes[..end], &bytes[end + 1..]),
        None => (bytes, &[]),
    }
}
