//! What holds of streams by their definitions alone. The functions do nothing.

ghost use Rattle.std.specs.Prelude.{◌≡◌, ℕ, List};
ghost use Rattle.prom_format.specs.Pages.{Family, page_text};
ghost use Rattle.page_relay.specs.Merge.{IsConflict, IsMerged};
ghost use Rattle.page_relay.specs.Streams.{IsFirstBadLine, IsRelayPage, IsStream};

/// A stream is read in one way: bytes are a stream of one list of pages at most.
pub fn one_stream()
    ensures { (bytes : List ℕ) (pages others : List (List Family))
        → IsStream bytes pages → IsStream bytes others → pages ≡ others }
{}

/// Bytes have at most one first bad line, and those that have one are no stream.
pub fn one_first_bad_line()
    ensures same { (bytes : List ℕ) (k l : ℕ) → IsFirstBadLine bytes k → IsFirstBadLine bytes l
        → k ≡ l }
    ensures no_stream { (bytes : List ℕ) (l : ℕ) (pages : List (List Family))
        → IsFirstBadLine bytes l → ¬ IsStream bytes pages }
{}

/// Pages that have a conflict don't merge, and they have one conflict at most.
pub fn conflicts_refuse()
    ensures no_merge { (pages : List (List Family)) (page : ℕ) (name : List ℕ)
        → IsConflict pages page name → (families : List Family) → ¬ IsMerged pages families }
    ensures same { (pages : List (List Family)) (p q : ℕ) (n m : List ℕ)
        → IsConflict pages p n → IsConflict pages q m → (p ≡ q) × (n ≡ m) }
{}

/// What the pages of a stream become is a page that can stand in a stream itself.
pub fn merged_pages_stand()
    ensures { (bytes : List ℕ) (pages : List (List Family)) (families : List Family)
        → IsStream bytes pages → IsMerged pages families
        → IsRelayPage (page_text families) families }
{}
