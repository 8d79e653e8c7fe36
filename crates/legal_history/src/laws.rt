//! Laws of histories, for every type of call.
ghost use Rattle.std.specs.Prelude.{◌≡◌, ◌≤◌, ℕ, List, [], ◌∷◌, ◌++◌, true, length, map};
ghost use Rattle.legal_history.specs.declared.history.Entry.{Entry};
ghost use Rattle.legal_history.specs.declared.history.Held.{Held};
ghost use Rattle.legal_history.specs.declared.history.View.{View};
ghost use mathlib.Core.List.{IsPrefix};
ghost use Rattle.legal_history.specs.History.{In, Among, Settled, Sees, after, taker};
ghost use Rattle.legal_history.specs.Places.{has, places, places_from, run_of, Ascend};
ghost use Rattle.legal_history.specs.Order.{GrewInOrder};
ghost use Rattle.legal_history.specs.News.{TookIn, lane_calls};
ghost use Rattle.legal_history.specs.Mapped.{IsOneToOne, mapped_log, mapped_view};

/// The places of a pass ascend, and are positions of what it has seen.
pub fn places_ascend<C>()
    ensures { (v : View C) → Ascend 0 (length v.seen) (places v) }
{}

/// A call has one new place of its pass: the last one, and not below the length of what the pass had seen.
pub fn a_call_stands_last<C>()
    ensures { (v : View C) (log : List (Entry C)) (c : C) → Sees v log
        → (places (after v log (c ∷ [])) ≡ places v ++ length log ∷ [])
        × (length v.seen ≤ length log) }
{}

/// A pass that was given back keeps its places in all that the root sees later.
pub fn given_back_places_stay<C>()
    ensures { (v : View C) (log : List (Entry C)) (h : Held C) → Sees v log → Among h v.joined
        → places_from (h.by ∷ []) 0 log ≡ places_from (h.by ∷ []) 0 h.seen }
{}

/// What a pass had seen that was taken back begins what the root has then seen: whatever the root is told next says so.
pub fn what_came_back_was_seen<C>()
    ensures { (v w : View C) (log : List (Entry C)) → Sees (taker v w) log
        → IsPrefix w.seen (taker v w).seen }
{}

/// A root with no pass out has every place of its history.
pub fn root_has_all_places<C>()
    ensures { (v : View C) → v.number ≡ 0 → Settled v → places v ≡ run_of 0 v.seen }
{}

/// Passes that share no number share no place.
pub fn places_are_apart<C>()
    ensures { (ns ms : List ℕ) (p : ℕ) (log : List (Entry C))
        → ((t : ℕ) → has t ns ≡ true → has t ms ≡ true → ⊥) → In p (places_from ns 0 log)
        → In p (places_from ms 0 log) → ⊥ }
{}

/// Where a root that knows whose each call is took back one pass of each lane, and knows it again, the history grew by
/// the calls of these passes, in one order of lanes.
pub fn lanes_stand_in_one_order<C>()
    ensures { (v w : View C) (news : List (ℕ × Held C)) (lists : ℕ → List C) → Settled v → Settled w
        → TookIn news v w → ((l : ℕ) → lane_calls news l ≡ lists l)
        → GrewInOrder lists v.seen w.seen }
{}

/// Where the calls of a history are seen as others, what a pass finds is seen so too.
pub fn a_mapped_pass_sees_as_much<C, D>()
    ensures { (f : C → D) (v : View C) (log : List (Entry C)) → Sees v log
        → Sees (mapped_view f v) (mapped_log f log) }
{}

/// Where no two calls are seen as one, and a history is seen to grow by the images of the calls of lanes, it grew by these calls,
/// in an order of lanes.
pub fn a_mapped_history_grew_by_its_own_calls<C, D>()
    ensures { (f : C → D) (lists : ℕ → List C) (before now : List (Entry C)) → IsOneToOne f
        → GrewInOrder (λ l. map f (lists l)) (mapped_log f before) (mapped_log f now)
        → GrewInOrder lists before now }
{}
