//! What stands for a list of labels.

ghost use Rattle.std.specs.Prelude.{◌≡◌, IfOk, OnErr, map};
ghost use Rattle.std.specs.Slice.Iter.{iter_rest};
ghost use Rattle.metrics_core.specs.Pairs.{label_of_pair};

use crate::labels::clone_all;
use crate::{Label, Memory};
use std::alloc::Global;
use std::collections::BTreeMap;
use std::slice;

/// A value that stands for a list of labels.
pub trait IntoLabels {
    ghost use Rattle.std.specs.Prelude.{⊤, List};
    ghost use Rattle.metrics_core.specs.Keys.{LabelText};

    /// The labels that the value stands for, in their order.
    ghost labels: { Self → List LabelText };

    /// The call takes memory, and may be refused it.
    ghost may_refuse: { Self → Type 0 } = { λ _. ⊤ };

    /// Those labels.
    fn into_labels(self, alloc: Global) -> Result<Vec<Label>, Memory>
        ensures labels { IfOk result (λ list. list.items ≡ labels self) }
        ensures refused { OnErr result (may_refuse self) };
}

impl IntoLabels for Vec<Label> {
    ghost labels = { λ list. list.items };

    ghost may_refuse = { λ _. ⊥ };

    fn into_labels(self, _alloc: Global) -> Result<Vec<Label>, Memory> {
        Ok(self)
    }
}

impl IntoLabels for slice::Iter<'_, Label> {
    ghost labels = { iter_rest };

    fn into_labels(self, alloc: Global) -> Result<Vec<Label>, Memory> {
        clone_all(self.as_slice(), alloc)
    }
}

impl IntoLabels for &[(&'static str, &'static str)] {
    ghost labels = { λ pairs. map label_of_pair pairs.now };

    fn into_labels(self, alloc: Global) -> Result<Vec<Label>, Memory> {
        Ok(self.iter().map(|pair| Label::from(*pair)).collect(alloc)?)
    }
}

impl IntoLabels for &BTreeMap<&'static str, &'static str> {
    ghost labels = { λ entries. map label_of_pair entries.now.entries };

    fn into_labels(self, alloc: Global) -> Result<Vec<Label>, Memory> {
        Ok(
            self.iter()
                .map(|(key, value)| Label::from_static_parts(*key, *value))
                .collect(alloc)?,
        )
    }
}
