//! The family of redirections, on a page behind all others.

ghost use Rattle.std.specs.Prelude.{◌≡◌, ◌++◌, OnOk, string_bytes};
ghost use Rattle.metrics_core.specs.Kinds.{kind_text};
ghost use Rattle.prom_format.specs.Pages.{body_text, row_text};
ghost use Rattle.prom_exporter.specs.Families.{overflow_families, overflow_row};

use metrics_core::{Memory, MetricKind};
use name_counts::NameCounts;
use prom_format::{push_count, sanitize_label_value, write_type_line};

/// The name of the family.
const NAME: &str = "series_overflow";

/// Appends the block of the family of redirections, where there are any. A refused call may leave a part of it.
pub(crate) fn push_redirections(
    redirections: &NameCounts,
    buffer: &mut String,
) -> Result<(), Memory>
    ensures { OnOk result (string_bytes buffer.new
        ≡ string_bytes buffer.old ++ body_text (overflow_families redirections.now.entries)) }
{
    if redirections.len() == 0 {
        return Ok(());
    }
    write_type_line(buffer, NAME, None, None, "counter")?;
    for index in 0..redirections.len() {
        let Some((kind, name, count)) = redirections.entry(index) else {
            unreachable!()
        };
        push_redirection(kind, name, count, buffer)?;
    }
    buffer.push('\n')?;
    Ok(())
}

/// Appends the row of a count. A refused call may leave a part of it.
fn push_redirection(
    kind: MetricKind,
    name: &str,
    count: u64,
    buffer: &mut String,
) -> Result<(), Memory>
    ensures { OnOk result (string_bytes buffer.new ≡ string_bytes buffer.old ++ row_text
        (overflow_row (record { kind = kind; name = name.now; count = count }))) }
{
    let name = sanitize_label_value(*buffer.allocator(), name)?;
    buffer.push_str(NAME)?;
    buffer.push_str("{metric=\"")?;
    buffer.push_str(name.as_str())?;
    buffer.push_str("\",kind=\"")?;
    buffer.push_str(kind_word(kind))?;
    buffer.push_str("\"} ")?;
    push_count(buffer, count)?;
    buffer.push('\n')?;
    Ok(())
}

/// The word for a kind.
fn kind_word(kind: MetricKind) -> &'static str
    ensures { result.now ≡ kind_text kind }
{
    match kind {
        MetricKind::Counter => "counter",
        MetricKind::Gauge => "gauge",
        MetricKind::Histogram => "histogram",
    }
}
