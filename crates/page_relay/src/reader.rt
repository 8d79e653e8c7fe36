//! The reader of streams of pages.

ghost use Rattle.std.specs.Prelude.{◌≡◌, ◌<◌, ◌∷◌, ◌++◌, [], length, map, IfOk, IfErr, MatchOption};
ghost use Rattle.page_relay.specs.Streams.{IsStream, IsSplit, ended_lines};
ghost use Rattle.page_relay.specs.Values.{families_of, IsReadingFault};

use crate::lines::count_before;
use crate::progress::PagesSoFar;
use crate::{Page, RelayFault};
use std::alloc::Global;

/// Reads pages that stand one after the other, none or more. Bytes that are no stream are refused with their first bad
/// line.
pub fn read_pages(alloc: Global, bytes: &[u8]) -> Result<Vec<Page>, RelayFault>
    ensures stream { IfOk result (λ pages. IsStream bytes.now (map families_of pages.items)) }
    ensures refused { IfErr result (IsReadingFault bytes.now) }
{
    let mut progress = PagesSoFar::new(alloc);
    let mut rest = bytes;
    let mut line = 1;
    while let Some((text, after)) = split_line(rest) {
        let Some(next) = progress.take_line(alloc, text)? else {
            return Err(RelayFault::Syntax { line });
        };
        progress = next;
        rest = after;
        line += 1;
    }
    if !rest.is_empty() {
        return Err(RelayFault::Syntax { line });
    }
    let Some(pages) = progress.into_pages() else {
        return Err(RelayFault::Syntax { line });
    };
    Ok(pages)
}

/// The first line, without its newline, and the bytes behind that, where a newline ends it.
fn split_line(bytes: &[u8]) -> Option<(&[u8], &[u8])>
    ensures split { MatchOption result (ended_lines bytes.now ≡ [])
        (λ parts. IsSplit bytes.now parts.0.now parts.1.now) }
    ensures shorter { MatchOption result (ended_lines bytes.now ≡ [])
        (λ parts. length parts.1.now < length bytes.now) }
{
    let end = count_before(bytes, b'\n');
    if end == bytes.len() {
        return None;
    }
    Some((&bytes[..end], &bytes[end + 1..]))
}
