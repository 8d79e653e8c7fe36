//! One line of the rules.

ghost use Rattle.std.specs.Prelude.{◌≡◌, ◌≢◌, ◌≤◌, ◌++◌, ℕ, List, All, Some, None, IfOk, MatchOption, codes, length, map, string_bytes};
ghost use Rattle.metrics_core.specs.Characters.{line, newline};
ghost use Rattle.drive_script.specs.Reading.{after, word_length};
ghost use Rattle.rule_eval.specs.Reading.{begins_text, condition_at, keys_at, name_at, side_at};
ghost use Rattle.rule_eval.specs.Rules.{rule_text, BeginsWithLine, IsRuleLine, RuleText};

use crate::rules::Rule;
use drive_script::Cursor;
use metrics_core::{Fixed, Memory};
use prom_format::is_metric_name;
use std::alloc::Global;

/// The most pages in a row that a rule asks for.
const MOST_PAGES: u32 = 1000;

/// The first line, without its newline, and what is behind it, where a newline stands in the bytes.
pub(crate) fn split_line(bytes: &[u8]) -> Option<(&[u8], &[u8])>
    ensures { MatchOption result ((text : List ℕ) → ¬ BeginsWithLine bytes.now text)
        (λ split. (bytes.now ≡ line split.0.now ++ split.1.now) × All (λ c. c ≢ newline) split.0.now) }
{
    let place = bytes.iter().position(|byte| *byte == b'\n')?;
    let (text, rest) = bytes.split_at(place);
    Some((text, &rest[1..]))
}

/// The rule that a line says, if it says one.
pub(crate) fn read_rule(alloc: Global, text: &[u8]) -> Result<Option<Rule>, Memory>
    ensures { IfOk result (λ read. MatchOption read ((rule : RuleText) → ¬ IsRuleLine text.now rule)
        (λ rule. IsRuleLine text.now (rule_text rule))) }
{
    let mut cursor = Cursor::new(text);
    if cursor.literal(b"rule ").is_none() {
        return Ok(None);
    }
    let Some(title) = cursor.text(alloc)? else {
        return Ok(None);
    };
    let Some(name) = summed_name(&mut cursor, alloc)? else {
        return Ok(None);
    };
    let Some(keys) = keys(&mut cursor, alloc)? else {
        return Ok(None);
    };
    let Some((over, bound, pages)) = condition(&mut cursor) else {
        return Ok(None);
    };
    if cursor.end().is_none() {
        return Ok(None);
    }
    Ok(Some(Rule {
        title: title.into_owned(alloc)?,
        name,
        keys,
        over,
        bound,
        pages,
    }))
}

/// Takes the name of the rows that are summed, and the word before it.
fn summed_name(cursor: &mut Cursor, alloc: Global) -> Result<Option<String>, Memory>
    ensures { IfOk result (λ name.
        MatchOption name (after (codes " sum ") name_at cursor.old.rest.now ≡ None)
        (λ name. after (codes " sum ") name_at cursor.old.rest.now ≡ Some (string_bytes name, cursor.new.rest.now))) }
{
    if cursor.literal(b" sum ").is_none() {
        return Ok(None);
    }
    let (word, rest) = cursor.rest.split_at(word_length(cursor.rest));
    cursor.rest = rest;
    let Ok(name) = str::from_utf8(word) else {
        return Ok(None);
    };
    if !is_metric_name(name) {
        return Ok(None);
    }
    Ok(Some(String::from_str(alloc, name)?))
}

/// How many bytes stand before the next space.
fn word_length(bytes: &[u8]) -> usize
    ensures count { result ≡ word_length bytes.now }
    ensures within { result ≤ length bytes.now }
{
    bytes
        .iter()
        .position(|byte| *byte == b' ')
        .unwrap_or(bytes.len())
}

/// Takes the keys that rows are grouped by, and the word before them.
fn keys(cursor: &mut Cursor, alloc: Global) -> Result<Option<Vec<String>>, Memory>
    ensures { IfOk result (λ keys.
        MatchOption keys (after (codes " by") keys_at cursor.old.rest.now ≡ None)
        (λ keys. after (codes " by") keys_at cursor.old.rest.now ≡ Some (map string_bytes keys.items, cursor.new.rest.now))) }
{
    if cursor.literal(b" by").is_none() {
        return Ok(None);
    }
    let mut keys = Vec::new(alloc);
    while begins_text(cursor.rest) {
        let Some(key) = cursor.spaced_text(alloc)? else {
            return Ok(None);
        };
        keys.push(key.into_owned(alloc)?)?;
    }
    Ok(Some(keys))
}

/// Whether a space and a text stand next.
fn begins_text(bytes: &[u8]) -> bool
    ensures { result ≡ begins_text bytes.now }
{
    bytes.starts_with(b" \"")
}

/// Takes the side of the bound, the bound, and on how many pages in a row a sum has to pass.
#[tactic(auto, unfolding(crate::specs::Reading::condition_at))]
fn condition(cursor: &mut Cursor) -> Option<(bool, Fixed, u32)>
    ensures { MatchOption result (condition_at cursor.old.rest.now ≡ None)
        (λ found. condition_at cursor.old.rest.now ≡ Some ((found.0, (found.1.0, found.2)), cursor.new.rest.now)) }
{
    let over = side(cursor)?;
    let bound = cursor.fixed()?;
    cursor.literal(b" for ")?;
    let pages = cursor.positive(MOST_PAGES)?;
    Some((over, bound, pages.get()))
}

/// Takes the word before the bound. Answers whether a sum has to be over it.
#[tactic(auto, unfolding(crate::specs::Reading::side_at))]
fn side(cursor: &mut Cursor) -> Option<bool>
    ensures { MatchOption result (side_at cursor.old.rest.now ≡ None)
        (λ over. side_at cursor.old.rest.now ≡ Some (over, cursor.new.rest.now)) }
{
    if cursor.literal(b" over ").is_some() {
        return Some(true);
    }
    cursor.literal(b" under ")?;
    Some(false)
}
