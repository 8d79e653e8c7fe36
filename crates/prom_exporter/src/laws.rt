//! Laws of pages and worked examples of them, each the contract of a function that does nothing.

ghost use Rattle.std.specs.Prelude.{◌≡◌, ℕ, List, All, None};
ghost use mathlib.Core.List.{IsPrefix};
ghost use Rattle.legal_history.specs.declared.history.View.{View};
ghost use Rattle.legal_history.specs.History.{calls_by};
ghost use Rattle.metrics_core.specs.declared.calls.SeriesCall.{SeriesCall};
ghost use Rattle.metrics_core.specs.declared.kinds.MetricKind.{MetricKind};
ghost use Rattle.metrics_core.specs.Keys.{KeyText};
ghost use Rattle.prom_format.specs.Pages.{Family, IsPage, AreInRange, page_text};
ghost use Rattle.prom_exporter.specs.State.{PrometheusState, Series, register, number_given, with_series, number_of};
ghost use Rattle.prom_exporter.specs.Families.{ExporterSettings, Windows, window_of, kept_window, IsInTime, HaveSameQuantiles, families_by, families_at, families_written};
ghost use Rattle.prom_exporter.specs.Ranges.{IsFixed};
ghost use Rattle.prom_exporter.specs.Summaries.{IsSummary, AreSummariesTimely};
ghost use Rattle.prom_exporter.specs.Exporter.{Exporter, written_body, written_page, shown_body, page_body};
ghost use Rattle.prom_exporter.specs.Shared.{Shared, Looks, TakesBack};
ghost use Rattle.prom_exporter.specs.Vectors.{BasicPage};

/// The page of any state with any settings is read by the grammar of the Prometheus text exposition format, version 0.0.4, as
/// exactly the families that the state shows, whatever is answered of windows.
pub fn pages_are_read()
    ensures { (settings : ExporterSettings) (windows : Windows) (s : PrometheusState)
        → IsPage (page_text (families_by settings windows s)) (families_by settings windows s) }
{}

/// The values of the families of a state have 128 bits, where those of its calls and its counts of redirections have 64. So its page
/// has one reading.
pub fn pages_have_one_reading()
    ensures in_range { (settings : ExporterSettings) (t : ℕ) (s : PrometheusState) → IsFixed s
        → AreInRange (families_at settings t s) }
    ensures written_in_range { (settings : ExporterSettings) (t : ℕ) (s : PrometheusState)
        → IsFixed s → AreInRange (families_written settings t s) }
    ensures reading { (settings : ExporterSettings) (t : ℕ) (s : PrometheusState)
        (families : List Family) → IsFixed s → AreInRange families
        → IsPage (page_text (families_at settings t s)) families → families ≡ families_at settings t s }
{}

/// What a rolling summary keeps of the window of a series has the quantiles of the window, where the series' own moments never fall
/// and none is after the page's.
pub fn windows_in_time_are_kept()
    ensures { (settings : ExporterSettings) (t : ℕ) (series : Series) → IsInTime t series
        → HaveSameQuantiles (kept_window settings t series) (window_of settings t series) }
{}

/// Families hang on what is answered of windows by the quantiles of summaries alone.
pub fn families_hang_on_quantiles()
    ensures { (settings : ExporterSettings) (one other : Windows) (s : PrometheusState)
        → All (λ series. IsSummary settings series → HaveSameQuantiles (one series) (other series)) s.histograms
        → families_by settings one s ≡ families_by settings other s }
{}

/// Where of each summary the moments of samples never fall, and none is after the page's, what is written are the families of the
/// samples.
pub fn timely_pages_show_their_samples()
    ensures body { (moment : ℕ) (exporter : Exporter) → AreSummariesTimely moment exporter
        → written_body moment exporter ≡ shown_body moment exporter }
    ensures page { (moment : ℕ) (exporter : Exporter) → AreSummariesTimely moment exporter
        → written_page moment exporter ≡ page_body moment exporter }
{}

/// The body of the page of one counter, `basic_counter` at 42, is its type line, its row and an empty line.
pub fn basic_page()
    ensures { BasicPage }
{}

/// Where no limit is set, registering a key only makes sure that its series is there.
pub fn no_limit_redirects_nothing()
    ensures registers { (kind : MetricKind) (key : KeyText) (s : PrometheusState) → s.limit ≡ None
        → register kind key s ≡ with_series kind key s }
    ensures numbers { (kind : MetricKind) (key : KeyText) (s : PrometheusState) → s.limit ≡ None
        → number_given kind key s ≡ number_of kind key s }
{}

/// Looking on forgets nothing: what the exporter had seen of a cell is a beginning of what it sees then.
pub fn looking_forgets_nothing<F>()
    ensures { (s t : Shared F) → Looks s t → IsPrefix s.root.seen t.root.seen }
{}

/// After a pass was given back, what the exporter sees begins with all that the pass had seen, and has exactly the calls
/// that the pass had made.
pub fn given_back_is_seen<F>()
    ensures { (s t : Shared F) (known : View SeriesCall) → TakesBack known s t
        → IsPrefix known.seen t.root.seen × (calls_by known.number t.root.seen ≡ known.mine) }
{}
