//! What a page says of a family of metrics.

ghost use Rattle.std.specs.Prelude.{◌≡◌};
ghost use Rattle.prom_format.specs.Pages.{type_text};

/// The type that a page names for a family.
#[derive(Clone, Copy, Debug, PartialEq, Eq)]
pub enum FamilyType {
    Counter,
    Gauge,
    Histogram,
    Summary,
}

impl FamilyType {
    /// The word of the type on a page (text exposition format, "Comments, help text, and type information").
    pub fn as_str(&self) -> &'static str
        ensures text { result.now ≡ type_text self.now }
    {
        match self {
            FamilyType::Counter => "counter",
            FamilyType::Gauge => "gauge",
            FamilyType::Histogram => "histogram",
            FamilyType::Summary => "summary",
        }
    }
}
