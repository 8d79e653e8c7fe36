//! Metric names and label names (Prometheus data model, "Metric names and labels").

ghost use Rattle.std.specs.Prelude.{◌≡◌, ◌<◌, ◌++◌, IfOk, OnErr, OnOk, chars, string_bytes};
ghost use Rattle.prom_format.specs.NameKinds.{begins, continues};
ghost use Rattle.prom_format.specs.Names.{begins_metric_name, is_name, kept_or_underscore, sanitized_characters, sanitized_metric_name, sanitized_label_name};
ghost use Rattle.prom_format.specs.Texts.{Begins};

use crate::undo::undo_refused;
use metrics_core::Memory;
use std::alloc::Global;

/// What a name is given to.
#[derive(Clone, Copy, PartialEq)]
pub(crate) enum NameKind {
    Metric,
    Label,
}

impl NameKind {
    /// Whether such a name may begin with a character.
    fn may_begin(self, character: char) -> bool
        ensures { result ≡ begins self character }
    {
        match character {
            'A'..='Z' | 'a'..='z' | '_' => true,
            ':' => self == NameKind::Metric,
            _ => false,
        }
    }

    /// Whether a character may stand behind the first one.
    fn may_continue(self, character: char) -> bool
        ensures { result ≡ continues self character }
    {
        self.may_begin(character) || character.is_ascii_digit()
    }

    /// Whether a text is such a name.
    pub(crate) fn is_name(self, text: &str) -> bool
        ensures { result ≡ is_name (begins self) text.now }
    {
        let Some((first, others)) = text.as_bytes().split_first() else {
            return false;
        };
        self.may_begin(char::from(*first))
            && others
                .iter()
                .all(|byte| self.may_continue(char::from(*byte)))
    }

    /// The first character of a name, in place of this one.
    fn first(self, character: char) -> char
        ensures kept { result ≡ kept_or_underscore (begins self) character }
        ensures ascii { result < 128 }
    {
        if self.may_begin(character) {
            character
        } else {
            '_'
        }
    }

    /// A later character of a name, in place of this one.
    fn later(self, character: char) -> char
        ensures kept { result ≡ kept_or_underscore (continues self) character }
        ensures ascii { result < 128 }
    {
        if self.may_continue(character) {
            character
        } else {
            '_'
        }
    }
}

/// Whether a text is a metric name, so that sanitizing leaves it as it is.
pub fn is_metric_name(text: &str) -> bool
    ensures { result ≡ is_name begins_metric_name text.now }
{
    NameKind::Metric.is_name(text)
}

/// The metric name made of any text: each character that isn't allowed at its place becomes `_`, and so does the empty
/// text.
pub fn sanitize_metric_name(alloc: Global, name: &str) -> Result<String, Memory>
    ensures { IfOk result (λ text. string_bytes text ≡ sanitized_metric_name name.now) }
{
    let mut text = String::new(alloc);
    push_metric_name(&mut text, name)?;
    Ok(text)
}

/// The label name made of any text, by the same rule. A label name has no `:`.
pub fn sanitize_label_key(alloc: Global, key: &str) -> Result<String, Memory>
    ensures { IfOk result (λ text. string_bytes text ≡ sanitized_label_name key.now) }
{
    let mut text = String::new(alloc);
    push_label_name(&mut text, key)?;
    Ok(text)
}

/// Appends the metric name made of any text. A refused call leaves the buffer as it was.
pub(crate) fn push_metric_name(buffer: &mut String, name: &str) -> Result<(), Memory>
    ensures ok { OnOk result (string_bytes buffer.new
        ≡ string_bytes buffer.old ++ sanitized_metric_name name.now) }
    ensures err { OnErr result (string_bytes buffer.new ≡ string_bytes buffer.old) }
{
    push_name(buffer, name, NameKind::Metric)
}

/// Appends the label name made of any text. A refused call leaves the buffer as it was.
pub(crate) fn push_label_name(buffer: &mut String, key: &str) -> Result<(), Memory>
    ensures ok { OnOk result (string_bytes buffer.new
        ≡ string_bytes buffer.old ++ sanitized_label_name key.now) }
    ensures err { OnErr result (string_bytes buffer.new ≡ string_bytes buffer.old) }
{
    push_name(buffer, key, NameKind::Label)
}

/// Appends the name of a kind made of any text. A text that is one already is copied as it is. A refused call leaves the
/// buffer as it was.
fn push_name(buffer: &mut String, text: &str, kind: NameKind) -> Result<(), Memory>
    ensures ok { OnOk result (string_bytes buffer.new
        ≡ string_bytes buffer.old ++ sanitized_characters (begins kind) (chars text.now)) }
    ensures err { OnErr result (string_bytes buffer.new ≡ string_bytes buffer.old) }
{
    if kind.is_name(text) {
        buffer.push_str(text)?;
        return Ok(());
    }
    let length = buffer.len();
    let outcome = push_sanitized(buffer, text, kind);
    undo_refused(buffer, length, outcome)
}

/// Appends the name of a kind made of any text, character by character. After a refused call some may be missing.
fn push_sanitized(buffer: &mut String, text: &str, kind: NameKind) -> Result<(), Memory>
    ensures ok { OnOk result (string_bytes buffer.new
        ≡ string_bytes buffer.old ++ sanitized_characters (begins kind) (chars text.now)) }
    ensures kept { Begins (string_bytes buffer.old) (string_bytes buffer.new) }
{
    let mut characters = text.chars();
    buffer.push(kind.first(characters.next().unwrap_or('_')))?;
    for character in characters {
        buffer.push(kind.later(character))?;
    }
    Ok(())
}
