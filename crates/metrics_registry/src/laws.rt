//! Laws of the definitions, each the contract of a function that does nothing.

ghost use Rattle.metrics_registry.specs.Cumulative.{SameInAnyCuts};

/// The same samples observed in any cuts give the same buckets, sum and count.
pub fn same_in_any_cuts()
    ensures { SameInAnyCuts }
{}
