//! How texts are printed (Prometheus text exposition format, "Comments, help text, and type information": escapes of
//! backslash, line feed and, in label values, double quote).

ghost use Rattle.std.specs.Prelude.{◌≡◌, [], ◌∷◌, ◌++◌, if◌then◌else◌, IfOk, OnErr, OnOk, string_bytes};
ghost use Rattle.std.specs.List.{list_all};
ghost use Rattle.prom_format.specs.Printed.{is_plain, printed_text, printed_label_value, printed_description};
ghost use Rattle.prom_format.specs.Texts.{Begins};

use crate::undo::undo_refused;
use metrics_core::Memory;
use std::alloc::Global;

/// The printed label value: its escapes are settled, and then backslashes, line feeds and double quotes are escaped.
pub fn sanitize_label_value(alloc: Global, value: &str) -> Result<String, Memory>
    ensures { IfOk result (λ text. string_bytes text ≡ printed_label_value value.now) }
{
    let mut text = String::new(alloc);
    push_label_value(&mut text, value)?;
    Ok(text)
}

/// The printed description: its escapes are settled, and then backslashes and line feeds are escaped.
pub fn sanitize_description(alloc: Global, value: &str) -> Result<String, Memory>
    ensures { IfOk result (λ text. string_bytes text ≡ printed_description value.now) }
{
    let mut text = String::new(alloc);
    push_description(&mut text, value)?;
    Ok(text)
}

/// Appends the printed label value. A refused call leaves the buffer as it was.
pub(crate) fn push_label_value(buffer: &mut String, value: &str) -> Result<(), Memory>
    ensures ok { OnOk result (string_bytes buffer.new
        ≡ string_bytes buffer.old ++ printed_label_value value.now) }
    ensures err { OnErr result (string_bytes buffer.new ≡ string_bytes buffer.old) }
{
    push_printed(buffer, value, true)
}

/// Appends the printed description. A refused call leaves the buffer as it was.
pub(crate) fn push_description(buffer: &mut String, description: &str) -> Result<(), Memory>
    ensures ok { OnOk result (string_bytes buffer.new
        ≡ string_bytes buffer.old ++ printed_description description.now) }
    ensures err { OnErr result (string_bytes buffer.new ≡ string_bytes buffer.old) }
{
    push_printed(buffer, description, false)
}

/// Appends the printed text. One in which nothing is escaped is copied as it is. A refused call leaves the buffer as it
/// was.
fn push_printed(buffer: &mut String, text: &str, in_label: bool) -> Result<(), Memory>
    ensures ok { OnOk result (string_bytes buffer.new
        ≡ string_bytes buffer.old ++ printed_text in_label text.now) }
    ensures err { OnErr result (string_bytes buffer.new ≡ string_bytes buffer.old) }
{
    if is_plain(text, in_label) {
        buffer.push_str(text)?;
        return Ok(());
    }
    let length = buffer.len();
    let outcome = push_escaped(buffer, text, in_label);
    undo_refused(buffer, length, outcome)
}

/// Whether a text has no character that is escaped.
fn is_plain(text: &str, in_label: bool) -> bool
    ensures { result ≡ list_all (is_plain in_label) text.now }
{
    text.as_bytes().iter().all(|byte| *byte != b'\\'
        && *byte != b'\n'
        && !(in_label && *byte == b'"'))
}

/// Appends the printed text, character by character. A backslash waits for what stands behind it: two print as one, and a
/// quote in a label value takes the one that waits. After a refused call some may be missing.
fn push_escaped(buffer: &mut String, text: &str, in_label: bool) -> Result<(), Memory>
    ensures ok { OnOk result (string_bytes buffer.new
        ≡ string_bytes buffer.old ++ printed_text in_label text.now) }
    ensures kept { Begins (string_bytes buffer.old) (string_bytes buffer.new) }
{
    let mut waiting = false;
    for c in text.chars() {
        if c == '\n' {
            buffer.push_str("\\n")?;
        } else if c == '\\' {
            push_waiting(buffer, waiting)?;
            waiting = !waiting;
        } else if c == '"' && in_label {
            buffer.push_str("\\\"")?;
            waiting = false;
        } else {
            push_waiting(buffer, waiting)?;
            buffer.push(c)?;
            waiting = false;
        }
    }
    push_waiting(buffer, waiting)?;
    Ok(())
}

/// Appends the escape of a backslash where one waits. A refused call leaves the buffer as it was.
fn push_waiting(buffer: &mut String, waiting: bool) -> Result<(), Memory>
    ensures ok { OnOk result (string_bytes buffer.new
        ≡ string_bytes buffer.old ++ (if waiting then 92 ∷ 92 ∷ [] else [])) }
    ensures err { OnErr result (string_bytes buffer.new ≡ string_bytes buffer.old) }
{
    if waiting {
        buffer.push_str("\\\\")?;
    }
    Ok(())
}
