//! Laws of the definitions, each the contract of a function that does nothing.

ghost use Rattle.rolling_summaries.specs.Standing.{SameInAnyCuts};

/// How samples are cut into calls of `add` doesn't matter where moments never fall: the same samples leave the same buckets
/// and the same count.
pub fn same_in_any_cuts()
    ensures { SameInAnyCuts }
{}
