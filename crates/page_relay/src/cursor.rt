//! What is read from the front of one line of a page.

ghost use Rattle.std.specs.Prelude.{◌≡◌, ◌≤◌, ◌≢◌, ◌==◌, ◌++◌, [], ◌∷◌, List, ℕ, not, length, map, IfOk, IfNone, MatchOption, MatchBool, string_bytes};
ghost use Rattle.std.specs.List.{position_or_len};
ghost use Rattle.metrics_core.specs.Characters.{backslash};
ghost use Rattle.prom_format.specs.Pages.{type_text};
ghost use Rattle.prom_format.specs.Printed.{escaped_character};
ghost use Rattle.prom_format.specs.declared.families.FamilyType.{FamilyType};
ghost use Rattle.page_relay.specs.Reading.{
  begins_name,
  stands_in_name,
  NoName,
  TakesName,
  NoEscape,
  NoCharacter,
  TextEnds,
  NoText,
  TakesText,
  NoLabel,
  TakesLabel,
  NoLabelSet,
  TakesLabelSet,
};
ghost use Rattle.page_relay.specs.Values.{label_of};

use crate::Shape;
use metrics_core::Memory;
use std::alloc::Global;

/// The bytes of a line that are still to be read. Where a method answers `None` nothing that it is to take stands at
/// the front, and the cursor is of no use afterwards; `literal` leaves it as it was.
#[derive(Drop)]
pub(crate) struct Cursor<'a> {
    pub(crate) rest: &'a [u8],
}

impl<'a> Cursor<'a> {
    pub(crate) fn new(line: &'a [u8]) -> Cursor<'a>
        ensures { result.rest.now ≡ line.now }
    {
        Cursor { rest: line }
    }

    /// Takes a literal.
    pub(crate) fn literal(&mut self, literal: &[u8]) -> Option<()>
        ensures taken { MatchOption result
            ((rest : List ℕ) → self.old.rest.now ≢ literal.now ++ rest)
            (λ _. self.old.rest.now ≡ literal.now ++ self.new.rest.now) }
        ensures stays { IfNone result (self.new ≡ self.old) }
    {
        self.rest = self.rest.strip_prefix(literal)?;
        Some(())
    }

    /// Takes a name, which may have colons or not, up to a character that stands in none.
    pub(crate) fn name(&mut self, alloc: Global, colons: bool) -> Result<Option<String>, Memory>
        ensures { IfOk result (λ name. MatchOption name (NoName colons self.old.rest.now)
            (λ name. TakesName colons self.old.rest.now (string_bytes name) self.new.rest.now)) }
    {
        let (name, rest) = self.rest.split_at(name_length(self.rest, colons));
        let [first, ..] = name else {
            return Ok(None);
        };
        if !begins_name(*first, colons) {
            return Ok(None);
        }
        let Ok(text) = str::from_utf8(name) else {
            return Ok(None);
        };
        self.rest = rest;
        Ok(Some(String::from_str(alloc, text)?))
    }

    /// Takes a text without its escapes: a label value up to a quote or the end of the line, a help text up to the end.
    pub(crate) fn text(&mut self, alloc: Global, in_label: bool) -> Result<Option<String>, Memory>
        ensures { IfOk result (λ text. MatchOption text (NoText in_label self.old.rest.now)
            (λ text. TakesText in_label self.old.rest.now (string_bytes text) self.new.rest.now)) }
    {
        let mut text = Vec::new(alloc);
        while !self.text_ends(in_label) {
            let Some(character) = self.character(in_label) else {
                return Ok(None);
            };
            text.push(character)?;
        }
        Ok(String::from_utf8(text).ok())
    }

    /// Whether a text ends here.
    fn text_ends(&self, in_label: bool) -> bool
        ensures { MatchBool result (TextEnds in_label self.now.rest.now)
            (¬ TextEnds in_label self.now.rest.now) }
    {
        match self.rest {
            [] => true,
            [first, ..] => in_label && *first == b'"',
        }
    }

    /// Takes one character, which stands as it is or is escaped.
    fn character(&mut self, in_label: bool) -> Option<u8>
        ensures { MatchOption result (NoCharacter in_label self.old.rest.now)
            (λ c. self.old.rest.now ≡ escaped_character in_label c ++ self.new.rest.now) }
    {
        let (first, rest) = self.rest.split_first()?;
        if *first == b'\\' {
            let (second, rest) = rest.split_first()?;
            self.rest = rest;
            return escaped_by(*second, in_label);
        }
        if *first == b'\n' || (in_label && *first == b'"') {
            return None;
        }
        self.rest = rest;
        Some(*first)
    }

    /// Takes a label: its name and its value in quotes.
    fn label(&mut self, alloc: Global) -> Result<Option<(String, String)>, Memory>
        ensures { IfOk result (λ label. MatchOption label (NoLabel self.old.rest.now)
            (λ label. TakesLabel self.old.rest.now (label_of label) self.new.rest.now)) }
    {
        let Some(key) = self.name(alloc, false)? else {
            return Ok(None);
        };
        if self.literal(b"=\"").is_none() {
            return Ok(None);
        }
        let Some(value) = self.text(alloc, true)? else {
            return Ok(None);
        };
        if self.literal(b"\"").is_none() {
            return Ok(None);
        }
        Ok(Some((key, value)))
    }

    /// Takes the labels of a row, in braces where there are any, and the space behind them.
    pub(crate) fn label_set(
        &mut self,
        alloc: Global,
    ) -> Result<Option<Vec<(String, String)>>, Memory>
        ensures { IfOk result (λ labels. MatchOption labels (NoLabelSet self.old.rest.now)
            (λ labels. TakesLabelSet self.old.rest.now (map label_of labels.items) self.new.rest.now)) }
    {
        let mut labels = Vec::new(alloc);
        if self.literal(b" ").is_some() {
            return Ok(Some(labels));
        }
        if self.literal(b"{").is_none() {
            return Ok(None);
        }
        loop {
            let Some(label) = self.label(alloc)? else {
                return Ok(None);
            };
            labels.push(label)?;
            if self.literal(b"} ").is_some() {
                return Ok(Some(labels));
            }
            if self.literal(b",").is_none() {
                return Ok(None);
            }
        }
    }

    /// The type whose word is all that is left.
    pub(crate) fn shape(&self) -> Option<Shape>
        ensures { MatchOption result ((type : FamilyType) → self.now.rest.now ≢ type_text type)
            (λ type. self.now.rest.now ≡ type_text type) }
    {
        if self.rest == b"counter".as_slice() {
            Some(Shape::Counter)
        } else if self.rest == b"gauge".as_slice() {
            Some(Shape::Gauge)
        } else if self.rest == b"histogram".as_slice() {
            Some(Shape::Histogram)
        } else if self.rest == b"summary".as_slice() {
            Some(Shape::Summary)
        } else {
            None
        }
    }
}

/// The character whose escape is a backslash and this one.
fn escaped_by(second: u8, in_label: bool) -> Option<u8>
    ensures { MatchOption result (NoEscape in_label second)
        (λ c. escaped_character in_label c ≡ backslash ∷ second ∷ []) }
{
    if second == b'\\' {
        Some(b'\\')
    } else if second == b'n' {
        Some(b'\n')
    } else if in_label && second == b'"' {
        Some(b'"')
    } else {
        None
    }
}

/// How many characters of a name stand at the front.
fn name_length(bytes: &[u8], colons: bool) -> usize
    ensures count { result ≡ position_or_len (λ b. not (stands_in_name colons b)) bytes.now }
    ensures within { result ≤ length bytes.now }
{
    bytes
        .iter()
        .position(|byte| !stands_in_name(*byte, colons))
        .unwrap_or(bytes.len())
}

/// Whether this character may stand in a name.
fn stands_in_name(byte: u8, colons: bool) -> bool
    ensures { result ≡ stands_in_name colons byte }
{
    begins_name(byte, colons) || byte.is_ascii_digit()
}

/// Whether a name may begin with this character (Prometheus data model, "Metric names and labels").
fn begins_name(byte: u8, colons: bool) -> bool
    ensures { result ≡ begins_name colons byte }
{
    byte.is_ascii_alphabetic() || byte == b'_' || (colons && byte == b':')
}
