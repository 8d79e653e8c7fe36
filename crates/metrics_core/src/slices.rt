//! Lists that are owned, borrowed or shared.

ghost use Rattle.std.specs.Prelude.{◌≡◌, ◌⊎◌, ◌↔◌, [], IfOk, IsOk, IsNone};
ghost use Rattle.std.specs.Arc.{arc_value};
ghost use Rattle.std.specs.Cow.{cow_slice_items};
ghost use Rattle.std.specs.Fmt.{debug_list};
ghost use Rattle.std.specs.Hash as fed;
ghost use Rattle.std.specs.Hash.{on_Alike, items_Alike};
ghost use Rattle.std.specs.Cmp.{on_equiv, on_total, on_per, on_po};
ghost use Rattle.std.specs.Cmp.Lexicographic.{
  pointwise,
  slice_cmp,
  slice_partial_cmp,
  lists_equiv,
  lists_agrees,
  lists_total,
  lists_ties,
  lists_per,
  lists_po,
};
ghost use Rattle.metrics_core.specs.Texts.{handed_over, retained, Alone, Lent, Together};
ghost use Rattle.metrics_core.specs.Lists.{cow_items, holding_of_items, std_holding_of_items, ClonesAreEqual};

use crate::Memory;
use std::alloc::Global;
use std::cmp::Ordering;
use std::convert::AsSlice;
use std::hash::{Hash, Hasher};
use std::sync::Arc;
use std::{borrow, fmt};

/// A list that is owned, borrowed, or shared with other owners. Wherever it is, it counts as its items alone.
#[derive(Drop)]
pub enum CowSlice<'a, T> {
    /// The only owner has the items.
    Owned(Vec<T>),
    /// The items are borrowed.
    Borrowed(&'a [T]),
    /// The items have several owners.
    Shared(Arc<Vec<T>>),
}

impl<'a, T> CowSlice<'a, T> {
    /// The owned items.
    pub fn from_owned(items: Vec<T>) -> CowSlice<'a, T>
        ensures items { cow_items result ≡ items.items }
        ensures kind { holding_of_items result ≡ Alone }
    {
        CowSlice::Owned(items)
    }

    /// The borrowed items.
    pub fn from_borrowed(items: &'a [T]) -> CowSlice<'a, T>
        ensures items { cow_items result ≡ items.now }
        ensures kind { holding_of_items result ≡ Lent }
    {
        CowSlice::Borrowed(items)
    }

    /// The shared items.
    pub fn from_shared(items: Arc<Vec<T>>) -> CowSlice<'a, T>
        ensures items { cow_items result ≡ (arc_value items).items }
        ensures kind { holding_of_items result ≡ Together }
    {
        CowSlice::Shared(items)
    }

    /// The borrowed items. It is the same as [`CowSlice::from_borrowed`], by the name that callers of constants know.
    pub fn const_slice(items: &'a [T]) -> CowSlice<'a, T>
        ensures items { cow_items result ≡ items.now }
        ensures kind { holding_of_items result ≡ Lent }
    {
        CowSlice::Borrowed(items)
    }

    /// What std's type of this name holds, held in the same way.
    pub fn from_std(items: borrow::CowSlice<'a, T>) -> CowSlice<'a, T>
        ensures items { cow_items result ≡ cow_slice_items items.entry }
        ensures kind { holding_of_items result ≡ std_holding_of_items items.entry }
    {
        match items {
            borrow::CowSlice::Borrowed(items) => CowSlice::Borrowed(items),
            borrow::CowSlice::Owned(items) => CowSlice::Owned(items),
        }
    }

    /// The items themselves.
    pub fn as_slice(&self) -> &[T]
        ensures items { result.now ≡ cow_items self.now }
    {
        match self {
            CowSlice::Owned(items) => items.as_slice(),
            CowSlice::Borrowed(items) => items,
            CowSlice::Shared(items) => items.as_slice(),
        }
    }

    /// The allocator of the items, where they are not borrowed.
    pub(crate) fn allocator(&self) -> Option<Global>
        ensures { IsNone result ↔ (holding_of_items self.now ≡ Lent) }
    {
        match self {
            CowSlice::Owned(items) => Some(*items.allocator()),
            CowSlice::Borrowed(_) => None,
            CowSlice::Shared(items) => Some(*items.allocator()),
        }
    }
}

impl<'a, T: Clone + Drop> CowSlice<'a, T> {
    /// The same items, held in the same way.
    pub fn clone(&self, alloc: Global) -> Result<CowSlice<'a, T>, Memory>
        ensures items { IfOk result (λ copy. ClonesAreEqual T.is_clone → cow_items copy ≡ cow_items self.now) }
        ensures kind { IfOk result (λ copy. holding_of_items copy ≡ holding_of_items self.now) }
        ensures no_memory { holding_of_items self.now ≡ Lent → IsOk result }
    {
        match self {
            CowSlice::Owned(items) => Ok(CowSlice::Owned(Vec::from_clones(
                alloc,
                items.as_slice(),
            )?)),
            CowSlice::Borrowed(items) => Ok(CowSlice::Borrowed(items)),
            CowSlice::Shared(items) => Ok(CowSlice::Shared(Arc::try_clone(items)?)),
        }
    }

    /// The same items, held so that a copy of them takes no new items: owned ones become shared ones.
    pub fn to_retained(&self, alloc: Global) -> Result<CowSlice<'a, T>, Memory>
        ensures items { IfOk result (λ copy. ClonesAreEqual T.is_clone → cow_items copy ≡ cow_items self.now) }
        ensures kind { IfOk result (λ copy. holding_of_items copy ≡ retained (holding_of_items self.now)) }
        ensures no_memory { holding_of_items self.now ≡ Lent → IsOk result }
    {
        match self {
            CowSlice::Owned(items) => {
                let copies = Vec::from_clones(alloc, items.as_slice())?;
                Ok(CowSlice::Shared(Arc::new(alloc, copies)?))
            }
            CowSlice::Borrowed(items) => Ok(CowSlice::Borrowed(items)),
            CowSlice::Shared(items) => Ok(CowSlice::Shared(Arc::try_clone(items)?)),
        }
    }

    /// The items, owned. Those with one owner are handed out as they are.
    pub fn into_owned(self, alloc: Global) -> Result<Vec<T>, Memory>
        ensures items { IfOk result (λ items. ClonesAreEqual T.is_clone → items.items ≡ cow_items self.entry) }
        ensures no_memory { holding_of_items self.entry ≡ Alone → IsOk result }
    {
        match self {
            CowSlice::Owned(items) => Ok(items),
            CowSlice::Borrowed(items) => Ok(Vec::from_clones(alloc, items)?),
            CowSlice::Shared(items) => match Arc::try_unwrap(items) {
                Ok(items) => Ok(items),
                Err(shared) => Ok(Vec::from_clones(alloc, shared.as_slice())?),
            },
        }
    }

    /// The items in std's type of this name: borrowed where they are borrowed, and otherwise owned.
    pub fn to_std(self, alloc: Global) -> Result<borrow::CowSlice<'a, T>, Memory>
        ensures items { IfOk result (λ items. ClonesAreEqual T.is_clone → cow_slice_items items ≡ cow_items self.entry) }
        ensures kind { IfOk result (λ items. std_holding_of_items items ≡ handed_over (holding_of_items self.entry)) }
        ensures no_memory { (holding_of_items self.entry ≡ Lent) ⊎ (holding_of_items self.entry ≡ Alone) → IsOk result }
    {
        match self {
            CowSlice::Borrowed(items) => Ok(borrow::CowSlice::Borrowed(items)),
            held => Ok(borrow::CowSlice::Owned(held.into_owned(alloc)?)),
        }
    }
}

impl<T> AsSlice<T> for CowSlice<'_, T> {
    ghost items = { cow_items };

    fn as_slice(&self) -> &[T] {
        self.as_slice()
    }
}

impl<T> Default for CowSlice<'_, T> {
    ghost is_default = { λ cow. cow_items cow ≡ [] };

    fn default() -> Self {
        CowSlice::Borrowed(&[])
    }
}

impl<'a, T> From<&'a [T]> for CowSlice<'a, T> {
    ghost from_gives = { λ items cow. (cow_items cow ≡ items.now) × (holding_of_items cow ≡ Lent) };

    fn from(items: &'a [T]) -> Self {
        CowSlice::Borrowed(items)
    }
}

impl<T> From<Vec<T>> for CowSlice<'_, T> {
    ghost from_gives = { λ items cow. (cow_items cow ≡ items.items) × (holding_of_items cow ≡ Alone) };

    fn from(items: Vec<T>) -> Self {
        CowSlice::Owned(items)
    }
}

impl<T> From<Arc<Vec<T>>> for CowSlice<'_, T> {
    ghost from_gives = { λ items cow. (cow_items cow ≡ (arc_value items).items) × (holding_of_items cow ≡ Together) };

    fn from(items: Arc<Vec<T>>) -> Self {
        CowSlice::Shared(items)
    }
}

impl<T: PartialEq> PartialEq for CowSlice<'_, T> {
    ghost eq = { λ a b. pointwise T.eq (cow_items a) (cow_items b) };

    ghost laws = { on_per cow_items (lists_per T.laws) };

    fn eq(&self, other: &Self) -> bool {
        self.as_slice() == other.as_slice()
    }
}

impl<T: Eq> Eq for CowSlice<'_, T> {
    ghost laws = { on_equiv cow_items (lists_equiv T.Eq.laws) };
}

impl<T: PartialOrd> PartialOrd for CowSlice<'_, T> {
    ghost partial_cmp = { λ a b. slice_partial_cmp T.partial_cmp (cow_items a) (cow_items b) };

    ghost laws = { on_po cow_items (lists_po T.PartialOrd.laws) };

    fn partial_cmp(&self, other: &Self) -> Option<Ordering> {
        self.as_slice().partial_cmp(&other.as_slice())
    }
}

impl<T: Ord> Ord for CowSlice<'_, T> {
    ghost cmp = { λ a b. slice_cmp T.cmp (cow_items a) (cow_items b) };

    ghost total = { on_total cow_items (lists_total T.total) };

    ghost matches_partial_cmp = { λ a b. lists_agrees T.matches_partial_cmp (cow_items a) (cow_items b) };

    ghost matches_eq = { λ a b. lists_ties T.cmp T.matches_eq (cow_items a) (cow_items b) };

    fn cmp(&self, other: &Self) -> Ordering {
        self.as_slice().cmp(&other.as_slice())
    }
}

impl<T: Hash> Hash for CowSlice<'_, T> {
    ghost hash_input = { λ cow. fed.slice T.hash_input (cow_items cow) };

    ghost respects_eq = { (on_Alike cow_items (items_Alike (record { fed = T.respects_eq }))).fed };

    fn hash<H: Hasher>(&self, state: &mut H) {
        self.as_slice().hash(state);
    }
}

impl<T: fmt::Debug> fmt::Debug for CowSlice<'_, T> {
    ghost debug_output = { λ cow. debug_list T.debug_output (cow_items cow) };

    fn fmt<W: fmt::Write>(&self, f: &mut fmt::Formatter<W>) -> fmt::Result {
        let items = self.as_slice();
        fmt::Debug::fmt(&items, f)
    }
}
