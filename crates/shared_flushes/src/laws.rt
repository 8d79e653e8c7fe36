//! Laws of what the entries of a history make of a state.
ghost use Rattle.std.specs.Prelude.{◌≡◌, ℕ, List, Some, true};
ghost use Rattle.metrics_core.specs.declared.kinds.MetricKind.{MetricKind};
ghost use Rattle.metrics_core.specs.Keys.{KeyText, key_eq};
ghost use Rattle.legal_history.specs.declared.history.Entry.{Entry};
ghost use Rattle.legal_history.specs.declared.history.View.{View};
ghost use Rattle.legal_history.specs.History.{Sees, calls};
ghost use Rattle.dsd_exporter.specs.State.{DogStatsDSettings, no_series, number_found, number_given};
ghost use Rattle.dsd_exporter.specs.Exporter.{Exporter};
ghost use Rattle.shared_flushes.specs.declared.entries.StateEntry.{StateEntry};
ghost use Rattle.shared_flushes.specs.declared.entries.StateEntry.TheVariants.{Register};
ghost use Rattle.shared_flushes.specs.Registrations.{AreApart, AreRegistered, Called, of_kind};
ghost use Rattle.shared_flushes.specs.Stands.{KnowsBuilt, Makes, StandsFor};

/// A state that stands for a history has the settings that it was built with: whoever has seen the first entry knows those of each
/// flush.
pub fn settings_stay()
    ensures { (settings : DogStatsDSettings) (v : View StateEntry) (log : List (Entry StateEntry))
        (x : Exporter)
        → KnowsBuilt settings v → Sees v log → StandsFor (calls log) x → x.settings ≡ settings }
{}

/// The series of a state are the registrations of the history that it stands for, each once: each was registered, no two of a kind have
/// equal keys, and each that was registered is there, under the number that it was given, but for those past 2^64 - 1 series. So
/// is each registration that a pass has seen in the state that it then finds, and a pass has seen those that it makes.
pub fn series_are_registrations()
    ensures registered { (entries : List StateEntry) (x : Exporter) (kind : MetricKind)
        → StandsFor entries x → AreRegistered kind entries (of_kind kind x.series) }
    ensures apart { (entries : List StateEntry) (x : Exporter) (kind : MetricKind)
        → StandsFor entries x → AreApart (of_kind kind x.series) }
    ensures there { (entries : List StateEntry) (x : Exporter) (kind : MetricKind) (key : KeyText)
        (n : ℕ) → StandsFor entries x → Called (Register kind key n) entries → ¬ (n ≡ no_series)
        → number_found kind key x.series ≡ Some n }
    ensures seen { (v : View StateEntry) (log : List (Entry StateEntry)) (x : Exporter)
        (kind : MetricKind) (key : KeyText) (n : ℕ) → Called (Register kind key n) (calls v.seen)
        → Sees v log → StandsFor (calls log) x
        → ¬ (n ≡ no_series) → number_found kind key x.series ≡ Some n }
    ensures made { (v w : View StateEntry) (c : StateEntry) → Makes c v w
        → Called c (calls w.seen) }
{}

/// The number that a registration gave is its key's in every later state, and registrations of a kind under equal keys gave one
/// number.
pub fn numbers_are_keys()
    ensures number { (entries : List StateEntry) (x : Exporter) (kind : MetricKind) (key : KeyText)
        (n : ℕ) → StandsFor entries x → Called (Register kind key n) entries
        → n ≡ number_given kind key x.series }
    ensures equal { (entries : List StateEntry) (x : Exporter) (kind : MetricKind) (a b : KeyText)
        (n m : ℕ) → StandsFor entries x → Called (Register kind a n) entries
        → Called (Register kind b m) entries
        → key_eq a b ≡ true → n ≡ m }
{}
