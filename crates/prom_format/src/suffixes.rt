//! The full name of a row: a metric name with its unit and its suffix.

ghost use Rattle.std.specs.Prelude.{◌≡◌, [], ◌∷◌, ◌++◌, if◌then◌else◌, OnErr, OnOk, string_bytes};
ghost use Rattle.std.specs.Option.{option_copied};
ghost use Rattle.metrics_core.specs.Characters.{underscore};
ghost use Rattle.prom_format.specs.Names as names;
ghost use Rattle.prom_format.specs.Texts.{Begins};

use crate::undo::undo_refused;
use metrics_core::{Memory, Unit};

/// Appends the full name: the metric name, then the unit, then the suffix. The name is taken as it is. A refused call leaves
/// the buffer as it was.
pub fn write_full_name(
    buffer: &mut String,
    name: &str,
    unit: Option<Unit>,
    suffix: Option<&'static str>,
) -> Result<(), Memory>
    ensures ok { OnOk result (string_bytes buffer.new
        ≡ string_bytes buffer.old ++ names.full_name name.now unit (option_copied suffix.entry)) }
    ensures err { OnErr result (string_bytes buffer.new ≡ string_bytes buffer.old) }
{
    let length = buffer.len();
    let outcome = push_full_name(buffer, name, unit, suffix);
    undo_refused(buffer, length, outcome)
}

/// Appends the metric name, then the unit, then the suffix. The name is taken as it is. After a refused call some may be
/// missing.
pub(crate) fn push_full_name(
    buffer: &mut String,
    name: &str,
    unit: Option<Unit>,
    suffix: Option<&'static str>,
) -> Result<(), Memory>
    ensures ok { OnOk result (string_bytes buffer.new
        ≡ string_bytes buffer.old ++ names.full_name name.now unit (option_copied suffix.entry)) }
    ensures kept { Begins (string_bytes buffer.old) (string_bytes buffer.new) }
{
    let start = buffer.len();
    push_name_with_unit(buffer, name, unit)?;
    if let Some(word) = suffix {
        let ends_so = ends_in(&buffer[start..], word);
        push_word(buffer, ends_so, word)?;
    }
    Ok(())
}

/// Appends the metric name with the word of a unit before its standing suffix. After a refused call some may be missing.
fn push_name_with_unit(buffer: &mut String, name: &str, unit: Option<Unit>) -> Result<(), Memory>
    ensures ok { OnOk result (string_bytes buffer.new
        ≡ string_bytes buffer.old ++ names.with_unit name.now unit) }
    ensures kept { Begins (string_bytes buffer.old) (string_bytes buffer.new) }
{
    let Some(word) = unit.and_then(unit_word) else {
        buffer.push_str(name)?;
        return Ok(());
    };
    let suffix = standing_suffix(name);
    let front = &name[..name.len() - suffix.len()];
    buffer.push_str(front)?;
    push_word(buffer, ends_in(front, word), word)?;
    buffer.push_str(suffix)?;
    Ok(())
}

/// Appends `_` and a word, unless the text ends with the word already. After a refused call the `_` may stand alone.
fn push_word(buffer: &mut String, ends_so: bool, word: &str) -> Result<(), Memory>
    ensures ok { OnOk result (string_bytes buffer.new
        ≡ string_bytes buffer.old ++ (if ends_so then [] else underscore ∷ word.now)) }
    ensures kept { Begins (string_bytes buffer.old) (string_bytes buffer.new) }
{
    if !ends_so {
        buffer.push_str("_")?;
        buffer.push_str(word)?;
    }
    Ok(())
}

/// The suffix that a name ends with and that a unit is put before, or nothing.
fn standing_suffix(name: &str) -> &'static str
    ensures { result.now ≡ names.standing_suffix name.now }
{
    if ends_in(name, "_sum") {
        "_sum"
    } else if ends_in(name, "_count") {
        "_count"
    } else if ends_in(name, "_bucket") {
        "_bucket"
    } else if ends_in(name, "_total") {
        "_total"
    } else {
        ""
    }
}

/// Whether a text ends with a word.
fn ends_in(text: &str, word: &str) -> bool
    ensures { result ≡ names.ends_in text.now word.now }
{
    text.ends_with(word)
}

/// The word of a unit in a name: none for counts.
fn unit_word(unit: Unit) -> Option<&'static str>
    ensures { option_copied result ≡ names.unit_word unit }
{
    match unit {
        Unit::Count => None,
        Unit::Percent => Some("ratio"),
        other => Some(other.as_str()),
    }
}
