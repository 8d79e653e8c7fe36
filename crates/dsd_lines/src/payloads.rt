//! Payloads: they are cut into lines.

ghost use Rattle.std.specs.Prelude.{◌≡◌, ◌<◌, ◌∷◌, length};
ghost use Rattle.dsd_lines.specs.Payloads.{payload_lines};

use crate::pieces::cut;

/// The first line of a payload, without its newline, and the bytes behind that.
pub fn split_line(bytes: &[u8]) -> (&[u8], &[u8])
    requires { 0 < length bytes.now }
    ensures lines { payload_lines bytes.now ≡ result.0.now ∷ payload_lines result.1.now }
    ensures shorter { length result.1.now < length bytes.now }
{
    let (line, behind) = cut(bytes, b'\n');
    let Some(rest) = behind else {
        return (line, &[]);
    };
    (line, rest)
}
