//! Laws of the definitions, each the contract of a function that does nothing.

ghost use Rattle.native_histograms.specs.Native.{SameInAnyCuts};

/// The same values observed in any cuts give the same histogram.
pub fn same_in_any_cuts()
    ensures { SameInAnyCuts }
{}
