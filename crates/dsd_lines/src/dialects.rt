//! The dialects in which lines are read.

/// A dialect of lines. They differ in gauges and timers.
#[derive(Clone, Copy, Debug, PartialEq, Eq, Drop)]
pub enum Dialect {
    /// DogStatsD, protocol 1.3: a gauge is set to each of its values, a negative one too, and there are no timers.
    DogStatsd,
    /// StatsD: a gauge's value with a sign in front, `+` or `-`, moves the gauge, and a value without one sets it. A line of type `ms`
    /// is a timer, whose values are milliseconds. All else is as in DogStatsD, rates, tags and timestamps too.
    Statsd,
}
