//! The path that the target of a request names.

ghost use Rattle.std.specs.Prelude.{◌≡◌, ◌==◌, bytes_eq, option_copied, position};
ghost use Rattle.std.specs.List.{before_first};
ghost use Rattle.page_answers.specs.Paths.{behind_mark, from_slash, path_of};

/// Whether two lists of bytes are the same.
pub(crate) fn is_same(one: &[u8], other: &[u8]) -> bool
    ensures { result ≡ bytes_eq one.now other.now }
{
    one == other
}

/// The first place of a byte.
fn place_of(text: &[u8], byte: u8) -> Option<usize>
    ensures { result ≡ position (λ c. c == byte) text.now }
{
    text.iter().position(|c| *c == byte)
}

/// What stands before the first `?`.
fn before_query(text: &[u8]) -> &[u8]
    ensures { result.now ≡ before_first (λ c. c == 63) text.now }
{
    match place_of(text, b'?') {
        Some(end) => &text[..end],
        None => text,
    }
}

/// What stands from the first slash on, or a slash where there is none.
fn slash_on(text: &[u8]) -> &[u8]
    ensures { result.now ≡ from_slash text.now }
{
    match place_of(text, b'/') {
        Some(start) => &text[start..],
        None => b"/",
    }
}

/// What stands behind the first `://`.
fn mark_behind(text: &[u8]) -> Option<&[u8]>
    ensures { option_copied result ≡ behind_mark text.now }
{
    let mut rest = text;
    while let [_, behind @ ..] = rest {
        if rest.starts_with(b"://") {
            return Some(&rest[3..]);
        }
        rest = behind;
    }
    None
}

/// The path of a target: what a target that begins with a slash has before its first `?`; of one that holds `://` what
/// stands behind that up to the first `?`, from its first slash on; and otherwise the target itself.
pub(crate) fn path(target: &[u8]) -> &[u8]
    ensures { result.now ≡ path_of target.now }
{
    if target.starts_with(b"/") {
        return before_query(target);
    }
    match mark_behind(target) {
        Some(behind) => slash_on(before_query(behind)),
        None => target,
    }
}
