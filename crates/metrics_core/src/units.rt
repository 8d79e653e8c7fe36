//! Units of measurement.

ghost use Rattle.std.specs.Prelude.{◌≡◌, Some, IfSome, find, bytes_eq};
ghost use Rattle.metrics_core.specs.declared.units.Unit.{Unit as UnitOf};
ghost use Rattle.metrics_core.specs.Units.{unit_text, unit_label, is_time, is_data, is_data_rate};

/// A unit of measurement.
#[derive(Clone, Copy, Debug, PartialEq, Eq, Hash)]
pub enum Unit {
    Count,
    Percent,
    Seconds,
    Milliseconds,
    Microseconds,
    Nanoseconds,
    /// 1024 gibibytes.
    Tebibytes,
    /// 1024 mebibytes.
    Gibibytes,
    /// 1024 kibibytes.
    Mebibytes,
    /// 1024 bytes.
    Kibibytes,
    Bytes,
    /// 1000 gigabits per second.
    TerabitsPerSecond,
    /// 1000 megabits per second.
    GigabitsPerSecond,
    /// 1000 kilobits per second.
    MegabitsPerSecond,
    /// 1000 bits per second.
    KilobitsPerSecond,
    BitsPerSecond,
    CountPerSecond,
}

const UNITS: [Unit; 17] = [
    Unit::Count,
    Unit::Percent,
    Unit::Seconds,
    Unit::Milliseconds,
    Unit::Microseconds,
    Unit::Nanoseconds,
    Unit::Tebibytes,
    Unit::Gibibytes,
    Unit::Mebibytes,
    Unit::Kibibytes,
    Unit::Bytes,
    Unit::TerabitsPerSecond,
    Unit::GigabitsPerSecond,
    Unit::MegabitsPerSecond,
    Unit::KilobitsPerSecond,
    Unit::BitsPerSecond,
    Unit::CountPerSecond,
];

/// The first unit of a list whose name is a text.
fn unit_among(units: &[Unit], text: &str) -> Option<Unit>
    ensures { result ≡ find (λ unit. bytes_eq (unit_text unit) text.now) units.now }
{
    units.iter().copied().find(|unit| unit.as_str() == text)
}

impl Unit {
    /// The name of the unit, and its short label.
    fn texts(self) -> (&'static str, &'static str)
        ensures name { result.0.now ≡ unit_text self }
        ensures label { result.1.now ≡ unit_label self }
    {
        match self {
            Unit::Count => ("count", ""),
            Unit::Percent => ("percent", "%"),
            Unit::Seconds => ("seconds", "s"),
            Unit::Milliseconds => ("milliseconds", "ms"),
            Unit::Microseconds => ("microseconds", "μs"),
            Unit::Nanoseconds => ("nanoseconds", "ns"),
            Unit::Tebibytes => ("tebibytes", "TiB"),
            Unit::Gibibytes => ("gibibytes", "GiB"),
            Unit::Mebibytes => ("mebibytes", "MiB"),
            Unit::Kibibytes => ("kibibytes", "KiB"),
            Unit::Bytes => ("bytes", "B"),
            Unit::TerabitsPerSecond => ("terabits_per_second", "Tbps"),
            Unit::GigabitsPerSecond => ("gigabits_per_second", "Gbps"),
            Unit::MegabitsPerSecond => ("megabits_per_second", "Mbps"),
            Unit::KilobitsPerSecond => ("kilobits_per_second", "kbps"),
            Unit::BitsPerSecond => ("bits_per_second", "bps"),
            Unit::CountPerSecond => ("count_per_second", "/s"),
        }
    }

    /// The name of the unit, as `seconds`.
    pub fn as_str(&self) -> &'static str
        ensures text { result.now ≡ unit_text self.now }
    {
        self.texts().0
    }

    /// The short label of the unit, as `s` for seconds. It is empty where the unit has none.
    pub fn as_canonical_label(&self) -> &'static str
        ensures text { result.now ≡ unit_label self.now }
    {
        self.texts().1
    }

    /// The unit of a name, as [`Unit::as_str`] gives it. No other text has a unit.
    pub fn from_string(text: &str) -> Option<Unit>
        ensures known { (unit : UnitOf) → text.now ≡ unit_text unit → result ≡ Some unit }
        ensures others { IfSome result (λ unit. unit_text unit ≡ text.now) }
    {
        unit_among(&UNITS, text)
    }

    /// Whether the unit measures time.
    pub fn is_time_based(&self) -> bool
        ensures { result ≡ is_time self.now }
    {
        matches!(
            self,
            Unit::Seconds | Unit::Milliseconds | Unit::Microseconds | Unit::Nanoseconds
        )
    }

    /// Whether the unit measures data, or data in a time.
    pub fn is_data_based(&self) -> bool
        ensures { result ≡ is_data self.now }
    {
        matches!(
            self,
            Unit::Tebibytes | Unit::Gibibytes | Unit::Mebibytes | Unit::Kibibytes | Unit::Bytes
        ) || self.is_data_rate_based()
    }

    /// Whether the unit measures data in a time.
    pub fn is_data_rate_based(&self) -> bool
        ensures { result ≡ is_data_rate self.now }
    {
        matches!(
            self,
            Unit::TerabitsPerSecond
                | Unit::GigabitsPerSecond
                | Unit::MegabitsPerSecond
                | Unit::KilobitsPerSecond
                | Unit::BitsPerSecond
        )
    }
}
