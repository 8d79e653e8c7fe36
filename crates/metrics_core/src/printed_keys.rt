//! How keys are shown to people: `Key(name)`, or `Key(name, [k = v, k = v])`.

ghost use Rattle.std.specs.Prelude.{◌++◌, codes, flat_map, Some};
ghost use Rattle.std.specs.Fmt.{WritesOnOk};
ghost use Rattle.metrics_core.specs.Keys.{key_text, label_text, labels_text};

use crate::{Key, Label};
use std::fmt;

/// Writes labels, each behind a comma and a space.
fn write_behind<W: fmt::Write>(f: &mut fmt::Formatter<W>, labels: &[Label]) -> fmt::Result
    ensures { WritesOnOk W.write_str_gives f.old result (flat_map (λ label. codes ", " ++ label_text label) labels.now) f.new }
{
    for label in labels {
        write!(f, ", {} = {}", label.key(), label.value())?;
    }
    Ok(())
}

/// Writes the labels of a key in brackets behind a comma and a space, or nothing where it has none.
fn write_labels<W: fmt::Write>(f: &mut fmt::Formatter<W>, labels: &[Label]) -> fmt::Result
    ensures { WritesOnOk W.write_str_gives f.old result (labels_text labels.now) f.new }
{
    match labels.split_first() {
        None => Ok(()),
        Some((first, others)) => {
            write!(f, ", [{} = {}", first.key(), first.value())?;
            write_behind(f, others)?;
            write!(f, "]")
        }
    }
}

impl fmt::Display for Key {
    ghost output = { λ key. Some (key_text key) };

    fn fmt<W: fmt::Write>(&self, f: &mut fmt::Formatter<W>) -> fmt::Result {
        write!(f, "Key({}", self.name())?;
        write_labels(f, self.labels().as_slice())?;
        write!(f, ")")
    }
}
