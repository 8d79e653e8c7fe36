//! The entries that stand in the history of a shared state. No value of the types here is made.

use dsd_exporter::StateConfiguration;
use metrics_core::{Key, MetricKind};
use std::marker::Model;

/// What a state was built with. Contracts see its settings.
#[derive(Drop)]
pub struct BuiltWith {
    configuration: StateConfiguration,
}

impl Model for BuiltWith {
    ghost use Rattle.dsd_exporter.specs.State.{DogStatsDSettings};
    ghost use Rattle.dsd_exporter.specs.Exporter.{settings_of};

    ghost Value = { DogStatsDSettings };

    ghost view = { λ built. settings_of built.configuration };
}

/// One entry of the history. Flushes and lends make none.
pub enum StateEntry {
    /// The state was built with these settings, and had no series. It is the first entry, and no other is one.
    Built(BuiltWith),
    /// A series of this kind with this key was registered, and was given this number.
    Register(MetricKind, Key, u64),
}
