//! What follows from the clauses of the crates below, each proved by these clauses alone.

ghost use Rattle.std.specs.Prelude.{◌≡◌, true, false};
ghost use Rattle.std.specs.Fmt.{debug_str, debug_list, DisplaysOnOk};
ghost use Rattle.metrics_core.specs.declared.kinds.MetricKind.{MetricKind};
ghost use Rattle.metrics_core.specs.Kinds.{kind_eq, mask_has};
ghost use Rattle.metrics_core.specs.Lists.{cow_items};
ghost use Rattle.metrics_core.specs.Texts.{cow_text};
ghost use Rattle.metrics_registry.specs.Masks.{no_kinds, only, all_kinds};

use metrics_core::{CowSlice, CowStr};
use std::fmt;

/// `{:?}` of a text writes the literal of its bytes, whatever holds them.
pub fn text_prints_as_a_literal<W: fmt::Write>(
    text: &CowStr<'_>,
    f: &mut fmt::Formatter<W>,
) -> fmt::Result
    ensures { DisplaysOnOk W.write_str_gives f.old result (debug_str (cow_text text.now)) f.new }
{
    fmt::Debug::fmt(text, f)
}

/// `{:?}` of a list writes its items in order, whatever holds them.
pub fn list_prints_as_its_items<T: fmt::Debug, W: fmt::Write>(
    list: &CowSlice<'_, T>,
    f: &mut fmt::Formatter<W>,
) -> fmt::Result
    ensures { DisplaysOnOk W.write_str_gives f.old result (debug_list T.debug_output (cow_items list.now)) f.new }
{
    fmt::Debug::fmt(list, f)
}

/// The named sets of kinds have the kinds that their names say, and no other.
pub fn named_sets_have_their_kinds()
    ensures none { (kind : MetricKind) → mask_has no_kinds kind ≡ false }
    ensures only { (name kind : MetricKind) → mask_has (only name) kind ≡ kind_eq name kind }
    ensures all { (kind : MetricKind) → mask_has all_kinds kind ≡ true }
{}
