//! A call that appends to a text leaves it as it was where it is refused.

ghost use Rattle.std.specs.Prelude.{◌≡◌, take, OnErr, OnOk, string_bytes};
ghost use Rattle.std.specs.Str.{IsCharBoundary};

use metrics_core::Memory;

/// Shortens a text to the length that it had before a call that was refused. It answers what the call did.
pub(crate) fn undo_refused<T>(
    buffer: &mut String,
    length: usize,
    outcome: Result<T, Memory>,
) -> Result<T, Memory>
    requires { IsCharBoundary (string_bytes buffer.old) length }
    ensures outcome { result ≡ outcome }
    ensures ok { OnOk outcome (string_bytes buffer.new ≡ string_bytes buffer.old) }
    ensures err { OnErr outcome (string_bytes buffer.new ≡ take length (string_bytes buffer.old)) }
{
    if outcome.is_err() {
        buffer.truncate(length);
    }
    outcome
}
