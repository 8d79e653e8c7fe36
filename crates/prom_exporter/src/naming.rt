//! The names of families on a page, and the lines above their rows.

ghost use Rattle.std.specs.Prelude.{◌≡◌, ◌++◌, OnOk, Option, option_map, option_and_then, if◌then◌else◌, None, string_bytes};
ghost use Rattle.std.specs.Option.{option_copied};
ghost use Rattle.metric_descriptions.specs.Said.{said};
ghost use Rattle.prom_exporter.specs.Naming.{shown_name, title_text};

use metric_descriptions::{Described, Descriptions};
use metrics_core::{Memory, Unit};
use prom_format::{write_full_name, write_help_line, write_type_line};
use std::marker::Model;

/// What the names of families on a page follow from.
#[derive(Drop)]
pub(crate) struct Naming<'a> {
    /// Whether units stand in names.
    pub(crate) units: bool,
    /// What is said of metrics.
    pub(crate) descriptions: &'a Descriptions,
}

impl<'a> Model for Naming<'a> {
    ghost use Rattle.prom_exporter.specs.Naming.{NamingText};

    ghost Value = { NamingText };

    ghost view = { λ n. record { units = n.units; published = n.descriptions.now.published } };
}

impl<'a> Naming<'a> {
    /// Appends the lines above the rows of the family under a metric name: its help line, where it is described, and its type
    /// line. Its full name takes the place of what `full` had. After a refused call some may be missing.
    pub(crate) fn write_title(
        &self,
        name: &String,
        suffix: Option<&'static str>,
        metric_type: &str,
        full: &mut String,
        buffer: &mut String,
    ) -> Result<(), Memory>
        ensures title { OnOk result (string_bytes buffer.new
            ≡ string_bytes buffer.old ++ title_text self.now (option_copied suffix.entry) metric_type.now (string_bytes name.now)) }
        ensures named { OnOk result (string_bytes full.new ≡ shown_name self.now
            (option_copied suffix.entry) (string_bytes name.now)) }
    {
        let described = self.descriptions.of(name);
        let unit = self.shown_unit(&described);
        full.clear();
        write_full_name(full, name.as_str(), unit, suffix)?;
        if let Some(described) = described {
            write_help_line(buffer, name.as_str(), unit, suffix, described.text)?;
        }
        write_type_line(buffer, name.as_str(), unit, suffix, metric_type)
    }

    /// The unit that stands in the name of a family that is described so: none where units are off.
    fn shown_unit(&self, described: &Option<Described<'_>>) -> Option<Unit>
        ensures { result ≡ if self.now.units then option_and_then (λ d. d.1)
            (option_map said described.now) else None }
    {
        match described {
            Some(described) if self.units => described.unit,
            _ => None,
        }
    }
}
