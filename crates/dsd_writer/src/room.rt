//! Bytes behind one another in room that is there, and how they use up a limit.

ghost use Rattle.std.specs.Prelude.{◌≡◌, ◌+◌, ◌<◌, ◌≤◌, [], ◌∷◌, ◌++◌, length, vec_len, vec_capacity};
ghost use Rattle.dsd_writer.specs.Rooms.{Leaves};

/// Appends a text for which there is room.
pub(crate) fn push(bytes: &mut Vec<u8>, text: &str)
    requires { vec_len bytes.old + length text.now ≤ vec_capacity bytes.old }
    ensures items { bytes.new.items ≡ bytes.old.items ++ text.now }
    ensures len { vec_len bytes.new ≡ vec_len bytes.old + length text.now }
    ensures capacity { vec_capacity bytes.old ≤ vec_capacity bytes.new }
{
    push_bytes(bytes, text.as_bytes());
}

/// Appends bytes for which there is room.
pub(crate) fn push_bytes(bytes: &mut Vec<u8>, more: &[u8])
    requires { vec_len bytes.old + length more.now ≤ vec_capacity bytes.old }
    ensures items { bytes.new.items ≡ bytes.old.items ++ more.now }
    ensures len { vec_len bytes.new ≡ vec_len bytes.old + length more.now }
    ensures capacity { vec_capacity bytes.old ≤ vec_capacity bytes.new }
{
    if !more.is_empty() {
        let _ = bytes.extend_from_slice(more);
    }
}

/// Appends a byte for which there is room.
pub(crate) fn push_byte(bytes: &mut Vec<u8>, byte: u8)
    requires { vec_len bytes.old < vec_capacity bytes.old }
    ensures items { bytes.new.items ≡ bytes.old.items ++ byte ∷ [] }
    ensures len { vec_len bytes.new ≡ vec_len bytes.old + 1 }
    ensures capacity { vec_capacity bytes.old ≤ vec_capacity bytes.new }
{
    bytes.push_reserved(byte);
}

/// What is left of a room after a text, where it fits.
pub(crate) fn behind(room: u64, text: &str) -> Option<u64>
    ensures { Leaves result room (length text.now) }
{
    behind_bytes(room, text.as_bytes())
}

/// What is left of a room after bytes, where they fit.
pub(crate) fn behind_bytes(room: u64, bytes: &[u8]) -> Option<u64>
    ensures { Leaves result room (length bytes.now) }
{
    room.checked_sub(bytes.len() as u64)
}
