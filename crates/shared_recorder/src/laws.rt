//! Laws of what entries make of a state, and of what pages show of it.
ghost use Rattle.std.specs.Prelude.{◌≡◌, ℕ, List, ◌∷◌, true, None};
ghost use Rattle.metrics_core.specs.declared.kinds.MetricKind.{MetricKind};
ghost use Rattle.metrics_core.specs.Keys.{KeyText, key_eq};
ghost use Rattle.legal_history.specs.declared.history.Entry.{Entry};
ghost use Rattle.legal_history.specs.declared.history.View.{View};
ghost use Rattle.legal_history.specs.History.{Sees, taker};
ghost use Rattle.prom_exporter.specs.Exporter.{Exporter, state_of, state_shown};
ghost use Rattle.prom_exporter.specs.State.{PrometheusState, number_given};
ghost use Rattle.prom_exporter.specs.Families.{ExporterSettings, Windows, families_by};
ghost use Rattle.shared_recorder.specs.declared.entries.Gone.{Gone};
ghost use Rattle.shared_recorder.specs.declared.entries.RecorderEntry.{RecorderEntry};
ghost use Rattle.shared_recorder.specs.declared.entries.RecorderEntry.TheVariants.{Built, Register, Page};
ghost use Rattle.shared_recorder.specs.Setup.{setup, Called, none_gone, entries_left};
ghost use Rattle.shared_recorder.specs.Stands.{Reached, StandsFor, Makes, KnowsBuilt};
ghost use Rattle.shared_recorder.specs.Pages.{heads};

/// A history has one state: that of its registrations, descriptions and pages, made one after the other on the state that the
/// recorder was built over. Where no idle timeout is set its pages removed nothing.
pub fn a_history_has_one_state()
    ensures state { (e : Exporter) (entries : List RecorderEntry) (settings : ExporterSettings)
        (state : PrometheusState) → Reached (Built e ∷ entries) settings state
        → state ≡ entries_left entries (setup (state_of e)) }
    ensures settings { (e : Exporter) (entries : List RecorderEntry) (settings : ExporterSettings)
        (state : PrometheusState) → Reached (Built e ∷ entries) settings state
        → settings ≡ e.settings }
    ensures pages { (entries : List RecorderEntry) (settings : ExporterSettings)
        (state : PrometheusState) (removed : Gone) → Reached entries settings state
        → settings.idle ≡ None → Called (Page removed) entries → removed ≡ none_gone }
{}

/// What a page shows of an exporter that stands for a history are the families of the state that the history reached, but for the
/// values of rows: their names, types and help texts, and the names and label sets of their rows, in this order. They are so whatever
/// is answered of windows.
pub fn pages_show_the_state_of_their_history()
    ensures { (entries : List RecorderEntry) (settings : ExporterSettings) (state : PrometheusState)
        (shown : Exporter) (one other : Windows)
        → Reached entries settings state → StandsFor entries shown
        → heads (families_by shown.settings one (state_shown shown)) ≡ heads (families_by settings other state) }
{}

/// Where no idle timeout is set, the number that a registration gave is its key's in every later state, and registrations of a kind
/// under equal keys gave one number.
pub fn numbers_are_keys()
    ensures number { (entries : List RecorderEntry) (settings : ExporterSettings)
        (state : PrometheusState) (kind : MetricKind) (key : KeyText) (n : ℕ) → settings.idle ≡ None
        → Reached entries settings state
        → Called (Register kind key n) entries → n ≡ number_given kind key state }
    ensures equal { (entries : List RecorderEntry) (settings : ExporterSettings)
        (state : PrometheusState) (kind : MetricKind) (a b : KeyText) (n m : ℕ)
        → settings.idle ≡ None → Reached entries settings state
        → Called (Register kind a n) entries → Called (Register kind b m) entries → key_eq a b ≡ true → n ≡ m }
{}

/// Two passes that were given back to the root, and that registered under equal keys at a recorder without idle timeout, were given one
/// number, whichever came first.
pub fn passes_beside_agree()
    ensures { (u v w p q : View RecorderEntry) (e : Exporter) (log : List (Entry RecorderEntry))
        (kind : MetricKind) (a b : KeyText) (n m : ℕ) → Sees (taker (taker u v) w) log
        → KnowsBuilt e p → KnowsBuilt e q
        → Makes (Register kind a n) p v → Makes (Register kind b m) q w → e.settings.idle ≡ None → key_eq a b ≡ true → n ≡ m }
{}
