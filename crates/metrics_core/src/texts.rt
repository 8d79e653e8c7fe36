//! Texts that are owned, borrowed or shared.

ghost use Rattle.std.specs.Prelude.{◌≡◌, ◌⊎◌, [], string_bytes, bytes_eq, IfOk, IsOk, Some, refl};
ghost use Rattle.std.specs.Arc.{arc_value};
ghost use Rattle.std.specs.Cow.{cow_str_bytes};
ghost use Rattle.std.specs.Ordering.{nat_cmp};
ghost use Rattle.std.specs.Fmt.{debug_str};
ghost use Rattle.std.specs.Hash as fed;
ghost use Rattle.std.specs.Cmp.{on_equiv, on_total, on_per, on_po, partial_equiv_from_equiv};
ghost use Rattle.std.specs.Cmp.Lexicographic.{slice_cmp, nat_list_eq_equiv, nat_list_cmp_total, texts_ties, texts_po};
ghost use Rattle.metrics_core.specs.Texts.{
  cow_text,
  holding_of,
  std_holding_of,
  handed_over,
  retained,
  Alone,
  Lent,
  Together,
};
ghost use Rattle.metrics_core.specs.TextLaws.{text_hash_input_respects};

use crate::Memory;
use std::alloc::{AllocError, Global};
use std::cmp::Ordering;
use std::convert::AsStr;
use std::hash::{Hash, Hasher};
use std::sync::Arc;
use std::{borrow, fmt};

/// A text that is owned, borrowed, or shared with other owners. Wherever it is, it counts as its text alone.
#[derive(Drop)]
pub enum CowStr<'a> {
    /// The only owner has the text.
    Owned(String),
    /// The text is borrowed.
    Borrowed(&'a str),
    /// The text has several owners.
    Shared(Arc<String>),
}

/// A text that lives as long as anyone needs it.
pub type SharedString = CowStr<'static>;

impl<'a> CowStr<'a> {
    /// The owned text.
    pub fn from_owned(text: String) -> CowStr<'a>
        ensures text { cow_text result ≡ string_bytes text }
        ensures kind { holding_of result ≡ Alone }
    {
        CowStr::Owned(text)
    }

    /// The borrowed text.
    pub fn from_borrowed(text: &'a str) -> CowStr<'a>
        ensures text { cow_text result ≡ text.now }
        ensures kind { holding_of result ≡ Lent }
    {
        CowStr::Borrowed(text)
    }

    /// The shared text.
    pub fn from_shared(text: Arc<String>) -> CowStr<'a>
        ensures text { cow_text result ≡ string_bytes (arc_value text) }
        ensures kind { holding_of result ≡ Together }
    {
        CowStr::Shared(text)
    }

    /// The borrowed text. It is the same as [`CowStr::from_borrowed`], by the name that callers of constants know.
    pub fn const_str(text: &'a str) -> CowStr<'a>
        ensures text { cow_text result ≡ text.now }
        ensures kind { holding_of result ≡ Lent }
    {
        CowStr::Borrowed(text)
    }

    /// What std's type of this name holds, held in the same way.
    pub fn from_std(text: borrow::CowStr<'a>) -> CowStr<'a>
        ensures text { cow_text result ≡ cow_str_bytes text.entry }
        ensures kind { holding_of result ≡ std_holding_of text.entry }
    {
        match text {
            borrow::CowStr::Borrowed(text) => CowStr::Borrowed(text),
            borrow::CowStr::Owned(text) => CowStr::Owned(text),
        }
    }

    /// The text itself.
    pub fn as_str(&self) -> &str
        ensures text { result.now ≡ cow_text self.now }
    {
        match self {
            CowStr::Owned(text) => text.as_str(),
            CowStr::Borrowed(text) => text,
            CowStr::Shared(text) => text.as_str(),
        }
    }

    /// The same text, held in the same way.
    pub fn clone(&self, alloc: Global) -> Result<CowStr<'a>, Memory>
        ensures text { IfOk result (λ copy. cow_text copy ≡ cow_text self.now) }
        ensures kind { IfOk result (λ copy. holding_of copy ≡ holding_of self.now) }
        ensures no_memory { holding_of self.now ≡ Lent → IsOk result }
    {
        match self {
            CowStr::Owned(text) => Ok(CowStr::Owned(String::from_str(alloc, text.as_str())?)),
            CowStr::Borrowed(text) => Ok(CowStr::Borrowed(text)),
            CowStr::Shared(text) => Ok(CowStr::Shared(text.clone()?)),
        }
    }

    /// The same text, held so that a copy of it takes no new text: an owned text becomes a shared one.
    pub fn to_retained(&self, alloc: Global) -> Result<CowStr<'a>, Memory>
        ensures text { IfOk result (λ copy. cow_text copy ≡ cow_text self.now) }
        ensures kind { IfOk result (λ copy. holding_of copy ≡ retained (holding_of self.now)) }
        ensures no_memory { holding_of self.now ≡ Lent → IsOk result }
    {
        match self {
            CowStr::Owned(text) => {
                let copy = String::from_str(alloc, text.as_str())?;
                Ok(CowStr::Shared(Arc::new(alloc, copy)?))
            }
            CowStr::Borrowed(text) => Ok(CowStr::Borrowed(text)),
            CowStr::Shared(text) => Ok(CowStr::Shared(text.clone()?)),
        }
    }

    /// The text, owned. A text with one owner is handed out as it is.
    pub fn into_owned(self, alloc: Global) -> Result<String, Memory>
        ensures text { IfOk result (λ text. string_bytes text ≡ cow_text self.entry) }
        ensures no_memory { holding_of self.entry ≡ Alone → IsOk result }
    {
        match self {
            CowStr::Owned(text) => Ok(text),
            CowStr::Borrowed(text) => Ok(String::from_str(alloc, text)?),
            CowStr::Shared(text) => match Arc::try_unwrap(text) {
                Ok(text) => Ok(text),
                Err(shared) => Ok(String::from_str(alloc, shared.as_str())?),
            },
        }
    }

    /// The text in std's type of this name: borrowed where it is borrowed, and otherwise owned.
    pub fn to_std(self, alloc: Global) -> Result<borrow::CowStr<'a>, Memory>
        ensures text { IfOk result (λ text. cow_str_bytes text ≡ cow_text self.entry) }
        ensures kind { IfOk result (λ text. std_holding_of text ≡ handed_over (holding_of self.entry)) }
        ensures no_memory { (holding_of self.entry ≡ Lent) ⊎ (holding_of self.entry ≡ Alone) → IsOk result }
    {
        match self {
            CowStr::Borrowed(text) => Ok(borrow::CowStr::Borrowed(text)),
            held => Ok(borrow::CowStr::Owned(held.into_owned(alloc)?)),
        }
    }
}

/// An owned text is copied by the allocator that it has.
impl Clone for CowStr<'_> {
    ghost is_clone = { λ cow copy. (cow_text copy ≡ cow_text cow) × (holding_of copy ≡ holding_of cow) };

    fn clone(&self) -> Result<Self, AllocError> {
        match self {
            CowStr::Owned(text) => Ok(CowStr::Owned(text.clone()?)),
            CowStr::Borrowed(text) => Ok(CowStr::Borrowed(text)),
            CowStr::Shared(text) => Ok(CowStr::Shared(text.clone()?)),
        }
    }
}

impl AsStr for CowStr<'_> {
    ghost text = { cow_text };

    fn as_str(&self) -> &str {
        self.as_str()
    }
}

impl Default for CowStr<'_> {
    ghost is_default = { λ cow. cow_text cow ≡ [] };

    fn default() -> Self {
        CowStr::Borrowed("")
    }
}

impl<'a> From<&'a str> for CowStr<'a> {
    ghost from_gives = { λ text cow. (cow_text cow ≡ text.now) × (holding_of cow ≡ Lent) };

    fn from(text: &'a str) -> Self {
        CowStr::Borrowed(text)
    }
}

impl From<String> for CowStr<'_> {
    ghost from_gives = { λ text cow. (cow_text cow ≡ string_bytes text) × (holding_of cow ≡ Alone) };

    fn from(text: String) -> Self {
        CowStr::Owned(text)
    }
}

impl From<Arc<String>> for CowStr<'_> {
    ghost from_gives = { λ text cow. (cow_text cow ≡ string_bytes (arc_value text)) × (holding_of cow ≡ Together) };

    fn from(text: Arc<String>) -> Self {
        CowStr::Shared(text)
    }
}

impl PartialEq for CowStr<'_> {
    ghost eq = { λ a b. bytes_eq (cow_text a) (cow_text b) };

    ghost laws = { on_per cow_text (partial_equiv_from_equiv nat_list_eq_equiv) };

    fn eq(&self, other: &Self) -> bool {
        self.as_str() == other.as_str()
    }
}

impl Eq for CowStr<'_> {
    ghost laws = { on_equiv cow_text nat_list_eq_equiv };
}

impl PartialOrd for CowStr<'_> {
    ghost partial_cmp = { λ a b. Some (slice_cmp nat_cmp (cow_text a) (cow_text b)) };

    ghost laws = { on_po cow_text texts_po };

    fn partial_cmp(&self, other: &Self) -> Option<Ordering> {
        Some(self.cmp(other))
    }
}

impl Ord for CowStr<'_> {
    ghost cmp = { λ a b. slice_cmp nat_cmp (cow_text a) (cow_text b) };

    ghost total = { on_total cow_text nat_list_cmp_total };

    ghost matches_partial_cmp = { λ a b. refl };

    ghost matches_eq = { λ a b. texts_ties (cow_text a) (cow_text b) };

    fn cmp(&self, other: &Self) -> Ordering {
        self.as_str().cmp(other.as_str())
    }
}

impl Hash for CowStr<'_> {
    ghost hash_input = { λ cow. fed.str (cow_text cow) };

    ghost respects_eq = { λ a b. text_hash_input_respects (cow_text a) (cow_text b) };

    fn hash<H: Hasher>(&self, state: &mut H) {
        self.as_str().hash(state);
    }
}

impl fmt::Display for CowStr<'_> {
    ghost output = { λ cow. Some (cow_text cow) };

    fn fmt<W: fmt::Write>(&self, f: &mut fmt::Formatter<W>) -> fmt::Result {
        let text = self.as_str();
        f.pad(text)
    }
}

impl fmt::Debug for CowStr<'_> {
    ghost debug_output = { λ cow. debug_str (cow_text cow) };

    fn fmt<W: fmt::Write>(&self, f: &mut fmt::Formatter<W>) -> fmt::Result {
        let text = self.as_str();
        fmt::Debug::fmt(&text, f)
    }
}
