//! Laws of the map, each the contract of a function that does nothing.
ghost use Rattle.std.specs.Prelude.{◌<◌, ◌++◌, ℕ, List, All, IsPermutation, fold, length, reverse};
ghost use Rattle.std.specs.List.Sorted.{IsStrictlyIncreasing};
ghost use Rattle.value_bags.specs.declared.bag.BagForm.{BagForm};
ghost use Rattle.evmap_contents.specs.Fold.{without_place};
ghost use Rattle.evmap_core.specs.Marked.{entries_at};

use evmap_contents::KeyClone;
use std::hash::Hash;

/// The keys that a removal at random marks go with their bags, and no others: what it gave and what is left then are
/// together the entries from before.
pub fn marked_keys_go<K: KeyClone, V: Eq + Hash>()
    ensures { (entries : List (K.Plain × BagForm V)) (places : List ℕ) → IsStrictlyIncreasing places
        → All (λ place. place < length entries) places
        → IsPermutation entries
        (entries_at entries places ++ fold without_place entries (reverse places)) }
{}
