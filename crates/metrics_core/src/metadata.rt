//! What is known of a metric beside its key.

ghost use Rattle.std.specs.Prelude.{◌≡◌, Option, option_copied, IfOk};
ghost use Rattle.std.specs.Prelude.{bytes_eq};
ghost use Rattle.std.specs.Option.{option_eq};
ghost use Rattle.std.specs.Ordering.{on, eq_of_both};
ghost use Rattle.std.specs.Cmp.{on_equiv, and_equiv, partial_equiv_from_equiv};
ghost use Rattle.std.specs.Cmp.Lexicographic.{nat_list_eq_equiv, options_equiv};
ghost use Rattle.metrics_core.specs.contracts.levels.LevelEq.TheImpl.Laws.{laws-law as level_laws};

use crate::Level;
use std::alloc::AllocError;
use std::marker::Model;

/// What is known of a metric beside its key: where it comes from, how talkative it is, and the module that it stands
/// in, where that is known.
#[derive(Debug, Drop)]
pub struct Metadata<'a> {
    target: &'a str,
    level: Level,
    module_path: Option<&'a str>,
}

impl<'a> Model for Metadata<'a> {
    ghost use Rattle.std.specs.Option.{option_copied};
    ghost use Rattle.metrics_core.specs.Metadata.{MetadataText};

    ghost Value = { MetadataText };

    ghost view = { λ metadata. record { target = metadata.target.now; level = metadata.level; module_path = option_copied metadata.module_path } };
}

impl<'a> Metadata<'a> {
    /// The metadata of these three parts. The target is by custom the path of the module that the metric comes from.
    pub fn new(target: &'a str, level: Level, module_path: Option<&'a str>) -> Metadata<'a>
        ensures parts { result ≡ record { target = target.now; level = level; module_path = option_copied module_path.entry } }
    {
        Metadata {
            target,
            level,
            module_path,
        }
    }

    /// How talkative the metric is.
    pub fn level(&self) -> &Level
        ensures { result.now ≡ self.now.level }
    {
        &self.level
    }

    /// Where the metric comes from.
    pub fn target(&self) -> &'a str
        ensures { result.now ≡ self.now.target }
    {
        self.target
    }

    /// The module that the metric stands in, where it is known.
    pub fn module_path(&self) -> Option<&'a str>
        ensures { option_copied result ≡ self.now.module_path }
    {
        self.module_path
    }
}

impl Clone for Metadata<'_> {
    ghost is_clone = { λ metadata copy. copy ≡ metadata };

    fn clone(&self) -> Result<Self, AllocError> {
        Ok(Metadata {
            target: self.target,
            level: self.level,
            module_path: self.module_path,
        })
    }
}

impl PartialEq for Metadata<'_> {
    ghost eq = { eq_of_both (on (λ m. m.target) bytes_eq) (eq_of_both (on (λ m. m.level) ⟦<Level as PartialEq>⟧.eq) (on (λ m. m.module_path) (option_eq bytes_eq))) };

    ghost laws = { partial_equiv_from_equiv (and_equiv (on_equiv (λ m. m.target) nat_list_eq_equiv) (and_equiv (on_equiv (λ m. m.level) level_laws) (on_equiv (λ m. m.module_path) (options_equiv nat_list_eq_equiv)))) };

    fn eq(&self, other: &Self) -> bool {
        self.target == other.target
            && self.level == other.level
            && self.module_path == other.module_path
    }
}

impl Eq for Metadata<'_> {
    ghost laws = { and_equiv (on_equiv (λ m. m.target) nat_list_eq_equiv) (and_equiv (on_equiv (λ m. m.level) level_laws) (on_equiv (λ m. m.module_path) (options_equiv nat_list_eq_equiv))) };
}
