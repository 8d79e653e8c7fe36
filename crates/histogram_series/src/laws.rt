//! Laws of histogram series.

ghost use Rattle.histogram_series.specs.Growth.{HeldIsLeft, PushesStandBehind, CallsTellSamples};
ghost use Rattle.histogram_series.specs.Rows.{ShowsSamples, ShowsRecorded};

/// What a series knows to stand in its queue is what a queue of one thread holds after the same calls.
pub fn held_is_left<T>()
    ensures { HeldIsLeft T }
{}

/// Where others pushed and made no other calls, what they pushed stands behind the entries of a series, in order.
pub fn pushes_stand_behind()
    ensures { PushesStandBehind }
{}

/// The entries of a series stand for the samples of the calls that they come from.
pub fn calls_tell_samples()
    ensures { CallsTellSamples }
{}

/// A distribution shows the rows of the samples that it stands for.
pub fn distributions_show_samples()
    ensures { ShowsSamples }
{}

/// A distribution shows the rows of what was recorded in it, whatever the moments.
pub fn distributions_show_what_is_recorded()
    ensures { ShowsRecorded }
{}
