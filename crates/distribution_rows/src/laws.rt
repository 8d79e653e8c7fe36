//! Laws of the rows of histogram series.

ghost use Rattle.std.specs.Prelude.{◌≡◌, ℤ};
ghost use Rattle.metrics_core.specs.Numbers.{page_number};
ghost use Rattle.prom_format.specs.Printed.{escaped_label_value};

/// A number as a page spells it has nothing that is escaped in a label value.
pub fn number_labels_print_as_they_are()
    ensures { (value : ℤ) → escaped_label_value (page_number value) ≡ page_number value }
{}
