//! The head of a request.

ghost use Rattle.std.specs.Prelude.{◌≡◌, MatchOption};
ghost use Rattle.page_answers.specs.Heads.{HasNoHead, HasHead};

use httparse::Status;
use httparse::spans::{EMPTY_HEADER_SPAN, parse_request};

/// The longest head that is answered, in bytes.
const LONGEST: usize = 65_536;

/// The method and the target of the head that some bytes begin with, where they begin with one of at most 65,536 bytes and
/// 128 fields.
pub(crate) fn head_of(bytes: &[u8]) -> Option<(&[u8], &[u8])>
    ensures { MatchOption result (HasNoHead bytes.now)
        (λ parts. HasHead bytes.now parts.0.now parts.1.now) }
{
    let mut fields = [EMPTY_HEADER_SPAN; 128];
    match parse_request(bytes, &mut fields) {
        Ok(Status::Complete(head)) if head.len <= LONGEST => {
            Some((head.method.of(bytes), head.path.of(bytes)))
        }
        _ => None,
    }
}
