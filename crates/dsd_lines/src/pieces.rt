//! Bytes that are cut at a character.

ghost use Rattle.std.specs.Prelude.{◌≡◌, ◌≤◌, ◌<◌, [], ◌∷◌, length, option_copied, IfNone, MatchOption, Some, None};
ghost use Rattle.std.specs.List.{before_first, position_or_len};
ghost use Rattle.dsd_lines.specs.Reading.{behind_first, is, led, pieces};
ghost use Rattle.dsd_lines.specs.Texts.{pieces_left};

/// The pieces of some bytes between two of a character, as far as they aren't taken yet.
#[derive(Drop)]
pub(crate) struct Pieces<'a> {
    stop: u8,
    rest: Option<&'a [u8]>,
}

impl<'a> Pieces<'a> {
    pub(crate) fn new(bytes: &'a [u8], stop: u8) -> Pieces<'a>
        ensures { pieces_left result ≡ pieces stop bytes.now }
    {
        Pieces {
            stop,
            rest: Some(bytes),
        }
    }

    /// Takes the next piece.
    pub(crate) fn next(&mut self) -> Option<&'a [u8]>
        ensures { MatchOption result ((pieces_left self.old ≡ []) × (pieces_left self.new ≡ []))
            (λ piece. pieces_left self.old ≡ piece.now ∷ pieces_left self.new) }
    {
        let (piece, behind) = cut(self.rest?, self.stop);
        self.rest = behind;
        Some(piece)
    }

    /// Takes the next piece, where this character leads it, and answers what stands behind the character.
    pub(crate) fn next_led(&mut self, character: u8) -> Option<&'a [u8]>
        ensures none { MatchOption result (led character (pieces_left self.old) ≡ None)
            (λ text. led character (pieces_left self.old) ≡ Some (text.now, pieces_left self.new)) }
        ensures stays { IfNone result (pieces_left self.new ≡ pieces_left self.old) }
    {
        let (piece, behind) = cut(self.rest?, self.stop);
        let (first, text) = piece.split_first()?;
        if *first != character {
            return None;
        }
        self.rest = behind;
        Some(text)
    }
}

/// The bytes before the first of a character, and those behind it, if it stands there.
pub(crate) fn cut(bytes: &[u8], stop: u8) -> (&[u8], Option<&[u8]>)
    ensures front { result.0.now ≡ before_first (is stop) bytes.now }
    ensures back { option_copied result.1 ≡ behind_first stop bytes.now }
{
    let end = count_before(bytes, stop);
    if end == bytes.len() {
        return (bytes, None);
    }
    (&bytes[..end], Some(&bytes[end + 1..]))
}

/// How many bytes stand before the first `stop`, or how many there are.
pub(crate) fn count_before(bytes: &[u8], stop: u8) -> usize
    ensures count { result ≡ position_or_len (is stop) bytes.now }
    ensures within { result ≤ length bytes.now }
{
    bytes
        .iter()
        .position(|byte| *byte == stop)
        .unwrap_or(bytes.len())
}
