//! The texts of a line: its name and its tags.

ghost use Rattle.std.specs.Prelude.{◌≡◌, IfOk, option_copied, MatchOption, None, Some, option_map, string_bytes};
ghost use Rattle.metrics_core.specs.Texts.{cow_text};
ghost use Rattle.dsd_lines.specs.Reading.{plain_of, tag_of, tag_value_of, tags_of};

use crate::pieces::{Pieces, cut};
use metrics_core::{Label, Memory, SharedString};
use std::alloc::Global;

/// The text, if it isn't empty, is UTF-8 and has no newline.
pub(crate) fn read_plain(alloc: Global, text: &[u8]) -> Result<Option<String>, Memory>
    ensures { IfOk result (λ plain. option_map string_bytes plain ≡ plain_of text.now) }
{
    if text.is_empty() || text.contains(&b'\n') {
        return Ok(None);
    }
    match str::from_utf8(text) {
        Ok(text) => Ok(Some(String::from_str(alloc, text)?)),
        Err(_) => Ok(None),
    }
}

/// The tags of a text, with a comma between each two.
pub(crate) fn read_tags(alloc: Global, text: &[u8]) -> Result<Option<Vec<Label>>, Memory>
    ensures { IfOk result (λ tags. option_map (λ tags. tags.items) tags ≡ tags_of text.now) }
{
    let mut pieces = Pieces::new(text, b',');
    let mut tags = Vec::new(alloc);
    while let Some(piece) = pieces.next() {
        let Some(tag) = read_tag(alloc, piece)? else {
            return Ok(None);
        };
        tags.push(tag)?;
    }
    Ok(Some(tags))
}

/// The tag of a text: its key, and its value behind a colon, or the empty value where there is no colon.
#[tactic(auto, unfolding(crate::specs::Reading::tag_of))]
fn read_tag(alloc: Global, text: &[u8]) -> Result<Option<Label>, Memory>
    ensures { IfOk result (λ tag. tag ≡ tag_of text.now) }
{
    let (key, behind) = cut(text, b':');
    let Some(key) = read_plain(alloc, key)? else {
        return Ok(None);
    };
    let Some(value) = read_tag_value(alloc, behind)? else {
        return Ok(None);
    };
    Ok(Some(Label::new(SharedString::from(key), value)))
}

/// The value of a tag behind its colon, or the empty value where there is no colon.
fn read_tag_value(alloc: Global, behind: Option<&[u8]>) -> Result<Option<SharedString>, Memory>
    ensures { IfOk result (λ value.
        option_map cow_text value ≡ tag_value_of (option_copied behind.entry)) }
{
    let Some(text) = behind else {
        return Ok(Some(SharedString::const_str("")));
    };
    match read_plain(alloc, text)? {
        Some(text) => Ok(Some(SharedString::from(text))),
        None => Ok(None),
    }
}
