//! Matchers of metric names: by the whole name, its prefix or its end.

ghost use Rattle.std.specs.Prelude.{◌≡◌, IfOk, string_bytes};
ghost use Rattle.prom_format.specs.Matchers.{fits, matcher_cmp, matcher_eq, sanitized_matcher, sanitized_or_empty};
ghost use Rattle.prom_format.specs.MatcherTexts.{matcher_text};
ghost use Rattle.prom_format.specs.declared.matchers.Matcher.{Matcher};

use crate::names::sanitize_metric_name;
use metrics_core::Memory;
use std::alloc::Global;

/// A matcher of metric names. Matchers are ordered: whole names before prefixes before suffixes, then by the bytes of the
/// text.
#[derive(Debug, Drop, PartialEq, Eq, PartialOrd, Ord, Hash)]
pub enum Matcher {
    /// Matches the name that is this text.
    Full(String),
    /// Matches each name that begins with this text; the empty one matches all.
    Prefix(String),
    /// Matches each name that ends with this text; the empty one matches all.
    Suffix(String),
}

impl Matcher {
    /// Whether it matches a name. It takes no memory.
    pub fn matches(&self, key: &str) -> bool
        ensures { result ≡ fits (matcher_text self.now) key.now }
    {
        match self {
            Matcher::Full(text) => text.as_str() == key,
            Matcher::Prefix(text) => key.starts_with(text.as_str()),
            Matcher::Suffix(text) => key.ends_with(text.as_str()),
        }
    }

    /// The matcher with its text made a metric name. The empty text stays empty, so that it still matches all.
    pub fn sanitized(self, alloc: Global) -> Result<Matcher, Memory>
        ensures { IfOk result (λ matcher.
            matcher_text matcher ≡ sanitized_matcher (matcher_text self)) }
    {
        Ok(match self {
            Matcher::Full(text) => Matcher::Full(sanitized_text(alloc, text)?),
            Matcher::Prefix(text) => Matcher::Prefix(sanitized_text(alloc, text)?),
            Matcher::Suffix(text) => Matcher::Suffix(sanitized_text(alloc, text)?),
        })
    }
}

/// A text made a metric name, or the empty text.
fn sanitized_text(alloc: Global, text: String) -> Result<String, Memory>
    ensures { IfOk result (λ name. string_bytes name ≡ sanitized_or_empty (string_bytes text)) }
{
    if text.is_empty() {
        return Ok(text);
    }
    sanitize_metric_name(alloc, text.as_str())
}

/// Matchers are ordered by their kind, whole names before prefixes before suffixes, and then by the bytes of their text; two
/// are equal exactly where kind and text are.
pub fn matchers_are_ordered()
    ensures order { (a b : Matcher)
        → ⟦<Matcher as Ord>⟧.cmp a b ≡ matcher_cmp (matcher_text a) (matcher_text b) }
    ensures equality { (a b : Matcher)
        → ⟦<Matcher as PartialEq>⟧.eq a b ≡ matcher_eq (matcher_text a) (matcher_text b) }
{}
