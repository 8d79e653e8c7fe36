//! Laws of cuts, lines and payloads, each the contract of a function that does nothing.

ghost use Rattle.std.specs.Prelude.{◌≡◌, ℕ, ◌+◌, ◌*◌, ◌≤◌, List, [], ◌∷◌, All, IsTrue, length};
ghost use Rattle.dsd_writer.specs.Cuts.{AreWithin, IsBestCut, IsFewest, IsFullCut, full_cut, joined, weigh_within};
ghost use Rattle.dsd_writer.specs.Lines.{ItemText, IsBestLines, lines_of, payload_fits, payloads_of};
ghost use Rattle.dsd_writer.specs.Packing.{prefix_length};
ghost use Rattle.dsd_writer.specs.Writers.{WriterText, added_bytes};

/// Of weights, each within the limit, the full cut is full; and among all cuts into runs whose weights, with a weight of
/// each run's own, are at most the limit, none has fewer runs.
pub fn full_cuts_have_the_fewest_runs()
    ensures full { (weights : List ℕ) (bare limit : ℕ)
        → All (λ weight. IsTrue (weigh_within bare limit (weight ∷ []))) weights
        → IsFullCut (weigh_within bare limit) weights (full_cut (weigh_within bare limit) weights) }
    ensures fewest { (weights : List ℕ) (bare limit : ℕ)
        → IsFewest (weigh_within bare limit) weights (full_cut (weigh_within bare limit) weights) }
{}

/// The lines of an item are within the limit; they are a full cut of its kept values, and no cut has fewer.
pub fn lines_are_within_and_fewest()
    ensures within { (limit : ℕ) (item : ItemText) (values : List (List ℕ))
        → AreWithin limit (lines_of limit item values) }
    ensures best { (limit : ℕ) (item : ItemText) (values : List (List ℕ))
        → IsBestLines limit item values }
{}

/// The payloads of lines that are each within the limit are within it; joined they are the lines in order, whole; and no
/// other cut of the lines has fewer.
pub fn payloads_are_whole_and_fewest()
    ensures within { (limit : ℕ) (lines : List (List ℕ)) → AreWithin limit lines
        → AreWithin limit (payloads_of limit lines) }
    ensures whole { (limit : ℕ) (lines : List (List ℕ)) → AreWithin limit lines
        → joined (payloads_of limit lines) ≡ joined lines }
    ensures best { (limit : ℕ) (lines : List (List ℕ)) → AreWithin limit lines
        → IsBestCut (payload_fits limit) lines (full_cut (payload_fits limit) lines) }
{}

/// Further lines of a writer add to its payloads at least their own bytes, and at most these and for each line what stands
/// before a payload: on a stream its length in four bytes.
pub fn lines_add_their_bytes()
    ensures least { (writer : WriterText) (lines : List (List ℕ))
        → length (joined lines) ≤ added_bytes writer lines }
    ensures most { (writer : WriterText) (lines : List (List ℕ))
        → added_bytes writer lines ≤ length (joined lines) + prefix_length writer.on_stream * length lines }
{}
