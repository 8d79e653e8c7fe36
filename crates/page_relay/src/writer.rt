//! The writer of pages (Prometheus text exposition format, "Line format").

ghost use Rattle.std.specs.Prelude.{◌≡◌, ◌++◌, All, map, string_bytes, Err, IfErr, IfOk, OnErr, OnOk};
ghost use Rattle.std.specs.Option.{option_map};
ghost use Rattle.metrics_core.specs.Outside.{GrewBy, GrewByPrefix};
ghost use Rattle.prom_format.specs.Pages.{IsPage, IsPrintable, block_text, help_text, label_set_text, label_text, page_text, row_text, type_line_text};
ghost use Rattle.prom_format.specs.Printed.{escaped_character};
ghost use Rattle.page_relay.specs.Reading.{escaped};
ghost use Rattle.page_relay.specs.Values.{families_of, family_of, label_of, row_of, IsWritingFault};

use crate::{Family, Page, PageRow, RelayFault, Shape};
use metrics_core::{Memory, Sink, write_whole};
use prom_format::push_fixed;
use std::alloc::Global;

/// Writes a page, which can stand in a stream. Where the sink fails, a prefix of the page was written. Where memory is refused the
/// sink wasn't used.
pub fn write_page<K: Sink>(alloc: Global, page: &Page, sink: &mut K) -> Result<(), RelayFault>
    requires { All IsPrintable (families_of page.now) }
    ensures written { OnOk result (GrewBy (K.written sink.old) (K.written sink.new)
        (page_text (families_of page.now))) }
    ensures page { IsPage (page_text (families_of page.now)) (families_of page.now) }
    ensures refused { IfErr result (IsWritingFault (K.faults sink.old) (K.faults sink.new)) }
    ensures memory { result ≡ Err RelayFault.Memory → sink.new ≡ sink.old }
    ensures prefix { OnErr result (GrewByPrefix (K.written sink.old) (K.written sink.new)
        (page_text (families_of page.now))) }
{
    let text = bytes_of(alloc, page)?;
    if write_whole(sink, text.as_slice()).is_err() {
        return Err(RelayFault::WriteFault);
    }
    Ok(())
}

/// The text of the page.
fn bytes_of(alloc: Global, page: &Page) -> Result<Vec<u8>, Memory>
    ensures { IfOk result (λ text. text.items ≡ page_text (families_of page.now)) }
{
    let mut text = Vec::new(alloc);
    for family in &page.families {
        push_block(alloc, &mut text, family)?;
    }
    text.extend_from_slice(b"# EOF\n")?;
    Ok(text)
}

/// Appends the block of a family.
fn push_block(alloc: Global, text: &mut Vec<u8>, family: &Family) -> Result<(), Memory>
    ensures { OnOk result (text.new.items ≡ text.old.items ++ block_text (family_of family.now)) }
{
    push_help(text, family.name.as_str(), &family.help)?;
    push_type(text, family.name.as_str(), family.shape)?;
    for row in &family.rows {
        push_row(alloc, text, row)?;
    }
    text.push(b'\n')?;
    Ok(())
}

/// Appends a help line, where there is help.
fn push_help(text: &mut Vec<u8>, name: &str, help: &Option<String>) -> Result<(), Memory>
    ensures { OnOk result (text.new.items ≡ text.old.items ++ help_text name.now
        (option_map string_bytes help.now)) }
{
    let Some(help) = help else {
        return Ok(());
    };
    text.extend_from_slice(b"# HELP ")?;
    text.extend_from_slice(name.as_bytes())?;
    text.push(b' ')?;
    push_escaped(text, help.as_str(), false)?;
    text.push(b'\n')?;
    Ok(())
}

/// Appends a type line.
fn push_type(text: &mut Vec<u8>, name: &str, shape: Shape) -> Result<(), Memory>
    ensures { OnOk result (text.new.items ≡ text.old.items ++ type_line_text name.now shape) }
{
    text.extend_from_slice(b"# TYPE ")?;
    text.extend_from_slice(name.as_bytes())?;
    text.push(b' ')?;
    text.extend_from_slice(shape.as_str().as_bytes())?;
    text.push(b'\n')?;
    Ok(())
}

/// Appends a row.
fn push_row(alloc: Global, text: &mut Vec<u8>, row: &PageRow) -> Result<(), Memory>
    ensures { OnOk result (text.new.items ≡ text.old.items ++ row_text (row_of row.now)) }
{
    let mut number = String::new(alloc);
    push_fixed(&mut number, row.value)?;
    text.extend_from_slice(row.name.as_bytes())?;
    push_label_set(text, row.labels.as_slice())?;
    text.push(b' ')?;
    text.extend_from_slice(number.as_bytes())?;
    text.push(b'\n')?;
    Ok(())
}

/// Appends labels in braces, where there are any.
fn push_label_set(text: &mut Vec<u8>, labels: &[(String, String)]) -> Result<(), Memory>
    ensures { OnOk result (text.new.items ≡ text.old.items ++ label_set_text
        (map label_of labels.now)) }
{
    let mut before = b'{';
    for label in labels {
        text.push(before)?;
        push_label(text, label)?;
        before = b',';
    }
    if labels.is_empty() {
        return Ok(());
    }
    text.push(b'}')?;
    Ok(())
}

/// Appends a label: its key as it stands, and its value in quotes with its escapes.
pub fn push_label(text: &mut Vec<u8>, label: &(String, String)) -> Result<(), Memory>
    ensures { OnOk result (text.new.items ≡ text.old.items ++ label_text (label_of label.now)) }
{
    text.extend_from_slice(label.0.as_bytes())?;
    text.extend_from_slice(b"=\"")?;
    push_escaped(text, label.1.as_str(), true)?;
    text.push(b'"')?;
    Ok(())
}

/// Appends a text with the escapes of a label's value, or with those of a help text.
pub fn push_escaped(text: &mut Vec<u8>, plain: &str, in_label: bool) -> Result<(), Memory>
    ensures { OnOk result (text.new.items ≡ text.old.items ++ escaped in_label plain.now) }
{
    for byte in plain.as_bytes() {
        push_character(text, *byte, in_label)?;
    }
    Ok(())
}

/// Appends a character with its escape.
fn push_character(text: &mut Vec<u8>, character: u8, in_label: bool) -> Result<(), Memory>
    ensures { OnOk result (text.new.items ≡ text.old.items ++ escaped_character in_label character) }
{
    if character == b'\\' {
        text.extend_from_slice(b"\\\\")?;
    } else if character == b'\n' {
        text.extend_from_slice(b"\\n")?;
    } else if in_label && character == b'"' {
        text.extend_from_slice(b"\\\"")?;
    } else {
        text.push(character)?;
    }
    Ok(())
}
