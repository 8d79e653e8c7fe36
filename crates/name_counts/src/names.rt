//! The pairs of a kind and a name under which counts are kept.

ghost use Rattle.std.specs.Hash as fed;
ghost use Rattle.std.specs.Prelude.{◌≡◌, ◌++◌, true, false, IfOk, OnErr, OnOk};
ghost use Rattle.name_counts.specs.Names.{is_named, is_ready};
ghost use Rattle.name_counts.specs.NameLaws.{respects_pairs, same_of};

use indexmap::Equivalent;
use metrics_core::{Memory, MetricKind};
use std::alloc::Global;
use std::hash::Hash;

/// A kind and a name.
#[derive(Drop, PartialEq, Eq, Hash)]
pub(crate) struct CountedName {
    pub(crate) kind: MetricKind,
    pub(crate) name: String,
}

/// A kind and a name that is lent, to look up by.
#[derive(Clone, Copy, PartialEq, Eq, Hash)]
pub(crate) struct LentName<'a> {
    pub(crate) kind: MetricKind,
    pub(crate) name: &'a str,
}

impl Equivalent<CountedName> for LentName<'_> {
    ghost equivalent = { λ lent. is_named lent.kind lent.name.now };

    ghost respects_hash = { λ lent. same_of
        (λ kind name. ⟦<MetricKind as Hash>⟧.hash_input kind ++ fed.str name) lent.kind lent.name.now };

    ghost respects_eq = { λ lent. respects_pairs lent.kind lent.name.now };

    fn equivalent(&self, key: &CountedName) -> bool {
        key.kind == self.kind && key.name.as_str() == self.name
    }
}

/// A pair to keep: the one that is ready, where it is the wanted one, or else a new one.
pub(crate) fn kept_name(
    ready: &mut Option<CountedName>,
    alloc: Global,
    kind: MetricKind,
    name: &str,
) -> Result<CountedName, Memory>
    ensures kept { IfOk result (λ key. is_named kind name.now key ≡ true) }
    ensures refused { OnErr result (is_ready kind name.now ready.old ≡ false) }
{
    let lent = LentName { kind, name };
    match ready.take() {
        Some(key) if lent.equivalent(&key) => return Ok(key),
        other => *ready = other,
    }
    let name = String::from_str(alloc, name)?;
    Ok(CountedName { kind, name })
}

/// Makes the pair of a kind and a name ready.
pub(crate) fn make_ready(
    ready: &mut Option<CountedName>,
    alloc: Global,
    kind: MetricKind,
    name: &str,
) -> Result<(), Memory>
    ensures { OnOk result (is_ready kind name.now ready.new ≡ true) }
{
    let key = kept_name(ready, alloc, kind, name)?;
    *ready = Some(key);
    Ok(())
}
