//! The lines of what fires.

ghost use Rattle.std.specs.Prelude.{◌≡◌, ◌++◌, codes, flat_map, map, string_bytes, IfOk, OnOk};
ghost use Rattle.prom_format.specs.Pages.{labels_text};
ghost use Rattle.page_relay.specs.Values.{label_of};
ghost use Rattle.drive_script.specs.Words.{quoted};
ghost use Rattle.rule_eval.specs.Rules.{rule_text};
ghost use Rattle.rule_eval.specs.Firing.{firing_text};
ghost use Rattle.rule_eval.specs.FiringText.{firing_line, labels_of, line_of};

use crate::evaluator::Firing;
use crate::rules::Rule;
use metrics_core::Memory;
use page_relay::{push_escaped, push_label};
use prom_format::{push_count, push_fixed, sanitize_label_key};
use std::alloc::Global;

/// Appends a line for each of what fires on the page of a number.
pub(crate) fn push_firings(
    alloc: Global,
    text: &mut Vec<u8>,
    page: u64,
    rules: &[Rule],
    firings: &[Firing],
) -> Result<(), Memory>
    ensures { OnOk result (text.new.items
        ≡ text.old.items ++ flat_map (line_of (map rule_text rules.now) page) (map firing_text firings.now)) }
{
    for firing in firings {
        push_firing(alloc, text, page, rules, firing)?;
    }
    Ok(())
}

/// Appends the line of what fires, if its rule is one of these.
fn push_firing(
    alloc: Global,
    text: &mut Vec<u8>,
    page: u64,
    rules: &[Rule],
    firing: &Firing,
) -> Result<(), Memory>
    ensures { OnOk result (text.new.items
        ≡ text.old.items ++ line_of (map rule_text rules.now) page (firing_text firing.now)) }
{
    match rules.get(firing.rule as usize) {
        Some(rule) => push_line(alloc, text, page, rule, firing),
        None => Ok(()),
    }
}

/// Appends the line of a group of a rule: the page's number, the rule's title, the group and its value.
fn push_line(
    alloc: Global,
    text: &mut Vec<u8>,
    page: u64,
    rule: &Rule,
    firing: &Firing,
) -> Result<(), Memory>
    ensures { OnOk result (text.new.items
        ≡ text.old.items ++ firing_line page (rule_text rule.now) (firing_text firing.now).group firing.now.value) }
{
    let mut number = String::new(alloc);
    push_count(&mut number, page)?;
    let mut value = String::new(alloc);
    push_fixed(&mut value, firing.value)?;
    let labels = labels_of(alloc, rule.keys.as_slice(), firing.group.as_slice())?;
    text.extend_from_slice(number.as_bytes())?;
    text.push(b' ')?;
    push_quoted(text, rule.title.as_str())?;
    text.push(b' ')?;
    push_braces(text, labels.as_slice())?;
    text.push(b' ')?;
    text.extend_from_slice(value.as_bytes())?;
    text.push(b'\n')?;
    Ok(())
}

/// Appends a text in quotes, with its escapes.
fn push_quoted(text: &mut Vec<u8>, plain: &str) -> Result<(), Memory>
    ensures { OnOk result (text.new.items ≡ text.old.items ++ quoted plain.now) }
{
    text.push(b'"')?;
    push_escaped(text, plain, true)?;
    text.push(b'"')?;
    Ok(())
}

/// Appends labels in braces, with a comma between two. Where there are none, the braces are empty.
fn push_braces(text: &mut Vec<u8>, labels: &[(String, String)]) -> Result<(), Memory>
    ensures { OnOk result (text.new.items
        ≡ text.old.items ++ (codes "{" ++ labels_text (map label_of labels.now) ++ codes "}")) }
{
    let mut before = b'{';
    for label in labels {
        text.push(before)?;
        push_label(text, label)?;
        before = b',';
    }
    if labels.is_empty() {
        text.push(before)?;
    }
    text.push(b'}')?;
    Ok(())
}

/// The labels of a group: the rule's keys, made label keys, with the group's values.
fn labels_of(
    alloc: Global,
    keys: &[String],
    values: &[String],
) -> Result<Vec<(String, String)>, Memory>
    ensures { IfOk result (λ labels. map label_of labels.items
        ≡ labels_of (map string_bytes keys.now) (map string_bytes values.now)) }
{
    let mut labels = Vec::new(alloc);
    for (place, key) in keys.iter().enumerate() {
        let Some(value) = values.get(place) else {
            return Ok(labels);
        };
        let key = sanitize_label_key(alloc, key.as_str())?;
        labels.push((key, String::from_str(alloc, value.as_str())?))?;
    }
    Ok(labels)
}
