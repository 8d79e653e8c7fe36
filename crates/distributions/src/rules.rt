//! Rules for names: what holds for the names that a matcher fits.

ghost use Rattle.std.specs.Prelude.{◌≡◌, ◌≤◌, ◌<◌, ◌-◌, List, ℕ, Bool, true, length, IfOk, MatchOption, OnOk, option_map};
ghost use Rattle.std.specs.List.{list_all};
ghost use Rattle.std.specs.Option.{option_copied};
ghost use Rattle.prom_format.specs.Matchers.{rule_for};
ghost use Rattle.prom_format.specs.MatcherTexts.{matcher_text};
ghost use Rattle.distributions.specs.Rules.{rules_of, rule_behind, under, form, part_at, tried, IsMeasured};

use metrics_core::Memory;
use prom_format::Matcher;
use std::alloc::Global;
use std::collections::{BTreeMap, BTreeSet};
use std::marker::Model;

/// Rules, each under the bytes of a text.
type Texts<T> = BTreeMap<Vec<u8>, T>;

/// Rules, each under a matcher. A contract sees them in the order of their matchers, each matcher once. They are kept by the form of
/// their matchers, and how long the texts are is kept too, so that a name isn't held to each matcher: of each such length one
/// text is looked up.
#[derive(Drop)]
pub(crate) struct Rules<T> {
    /// Of the matchers by the whole name.
    wholes: Texts<T>,
    /// Of the matchers by the beginning of a name.
    beginnings: Texts<T>,
    /// Of the matchers by the end of a name.
    ends: Texts<T>,
    /// How long the texts of beginnings and ends are, in bytes.
    lengths: BTreeSet<usize>,
}

impl<T> Model for Rules<T> {
    ghost use Rattle.std.specs.Prelude.{List};
    ghost use Rattle.prom_format.specs.Matchers.{MatcherText};
    ghost use Rattle.std.specs.Map.{keys_of};
    ghost use Rattle.std.specs.List.Sorted.{IsStrictlySortedBy};
    ghost use Rattle.distributions.specs.Rules.{all_rules, text_cmp, IsMeasured};

    ghost Value = { List (MatcherText × T) };

    ghost view = { λ rules. all_rules rules.wholes.entries rules.beginnings.entries rules.ends.entries };

    ghost invariant = { λ rules. IsStrictlySortedBy text_cmp (keys_of rules.wholes.entries)
        × IsMeasured rules.lengths rules.beginnings × IsMeasured rules.lengths rules.ends };
}

/// On which side of a name a text stands.
#[derive(Clone, Copy)]
pub(crate) enum Side {
    Beginning,
    End,
}

impl<T> Rules<T> {
    /// These rules. Of equal matchers the last counts.
    pub(crate) fn new(alloc: Global, given: Vec<(Matcher, T)>) -> Result<Rules<T>, Memory>
    where
        T: Drop,
        ensures among { IfOk result (λ rules. (test : T → Bool)
            → list_all (λ rule. test rule.1) given.items ≡ true → list_all (λ rule. test rule.1) rules ≡ true) }
        ensures same { IfOk result (λ rules. (name : List ℕ)
            → rule_for rules name ≡ rule_for (rules_of given.items) name) }
    {
        let mut rules = Rules {
            wholes: BTreeMap::new(alloc),
            beginnings: BTreeMap::new(alloc),
            ends: BTreeMap::new(alloc),
            lengths: BTreeSet::new(alloc),
        };
        for (matcher, rule) in given {
            rules.put(matcher, rule)?;
        }
        Ok(rules)
    }

    /// Puts a rule under a matcher, in place of the one that stood there.
    fn put(&mut self, matcher: Matcher, rule: T) -> Result<(), Memory>
    where
        T: Drop,
        ensures among { OnOk result ((test : T → Bool)
            → list_all (λ rule. test rule.1) self.old ≡ true → test rule ≡ true → list_all (λ rule. test rule.1) self.new ≡ true) }
        ensures put { OnOk result ((name : List ℕ)
            → rule_for self.new name ≡ rule_behind name (rule_for self.old name) (matcher_text matcher, rule)) }
    {
        match matcher {
            Matcher::Full(text) => self.wholes.insert(text.into_bytes(), rule)?,
            Matcher::Prefix(text) => {
                let text = text.into_bytes();
                self.lengths.insert(text.len())?;
                self.beginnings.insert(text, rule)?
            }
            Matcher::Suffix(text) => {
                let text = text.into_bytes();
                self.lengths.insert(text.len())?;
                self.ends.insert(text, rule)?
            }
        };
        Ok(())
    }

    /// The rule for a name: that of the first matcher that fits it. It costs a look-up for each length of a text.
    pub(crate) fn get(&self, name: &str) -> Option<&T>
        ensures rule { option_copied result ≡ option_map (λ rule. rule.1)
            (rule_for self.now name.now) }
    {
        let name = name.as_bytes();
        if let Some(rule) = self.wholes.get(name) {
            return Some(rule);
        }
        if let Some(rule) = least(&self.beginnings, &self.lengths, name, Side::Beginning) {
            return Some(rule);
        }
        least(&self.ends, &self.lengths, name, Side::End)
    }
}

/// The rule under the least of the texts that stand on a side of a name. Lengths beyond that of the name aren't looked at.
fn least<'a, T>(
    texts: &'a Texts<T>,
    lengths: &BTreeSet<usize>,
    name: &[u8],
    side: Side,
) -> Option<&'a T>
    requires measured { IsMeasured lengths.now texts.now }
    ensures { option_copied result ≡ option_map (λ rule. rule.1)
        (rule_for (under (form side) texts.now.entries) name.now) }
{
    // The law that the lengths rise, which tells that no later one is shorter, is a clause of `len`.
    let _len = lengths.len();
    let mut best = None;
    for count in lengths {
        if *count > name.len() {
            break;
        }
        best = lesser(best, texts, name, side, *count);
    }
    match best {
        Some((_, rule)) => Some(rule),
        None => None,
    }
}

/// The least of the texts so far and of the part of a name on a side that is so long, with its rule, where it has one.
fn lesser<'a, 'b, T>(
    best: Option<(&'b [u8], &'a T)>,
    texts: &'a Texts<T>,
    name: &'b [u8],
    side: Side,
    count: usize,
) -> Option<(&'b [u8], &'a T)>
    ensures { option_map (λ b. (b.0.now, b.1.now)) result ≡ tried side name.now texts.now.entries
        (option_map (λ b. (b.0.now, b.1.now)) best.entry) count }
{
    let Some(part) = part_of(name, side, count) else {
        return best;
    };
    let Some(rule) = texts.get(part) else {
        return best;
    };
    if let Some((least, former)) = best {
        if part.cmp(&least).is_gt() {
            return Some((least, former));
        }
    }
    Some((part, rule))
}

/// The part of a name on a side that is so long, where the name is.
fn part_of(name: &[u8], side: Side, count: usize) -> Option<&[u8]>
    ensures { MatchOption result (length name.now < count)
        (λ part. (count ≤ length name.now) × (part.now ≡ part_at side name.now count)) }
{
    let rest = name.len().checked_sub(count)?;
    Some(match side {
        Side::Beginning => &name[..count],
        Side::End => &name[rest..],
    })
}
