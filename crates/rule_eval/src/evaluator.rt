//! Rules held to pages, one page after the other.

ghost use Rattle.std.specs.Prelude.{◌≡◌, ◌<◌, ◌^◌, ◌++◌, ◌∷◌, [], All, List, length, map, nat_le, if◌then◌else◌, option_copied, IfOk, OnOk, OnErr};
ghost use Rattle.page_relay.specs.Values.{families_of};
ghost use Rattle.rule_eval.specs.Evaluating.{AllGoOn, GoOn, entries_text, fired_from, fired_of, group_text, longer, run_in, runs_text};
ghost use Rattle.rule_eval.specs.Firing.{firing_text, firings, passes};
ghost use Rattle.rule_eval.specs.Rules.{rule_text, AsksForPages};

use crate::groups::{Group, Sums, rows_by_name, sums_by_name};
use crate::rules::Rule;
use hash_starts::HashStart;
use indexmap::IndexMap;
use metrics_core::Memory;
use page_relay::Page;
use std::alloc::Global;
use std::marker::Model;
use std::snapshot::Snapshot;

/// On how many pages in a row, up to the last, each group of a rule passed, at most as many as the rule asks for. A group that didn't
/// pass on the last page isn't there.
type Runs = IndexMap<Group, u32, HashStart>;

/// A group of rows that passes its rule's bound for as many pages as that asks for.
#[derive(Drop)]
pub struct Firing {
    /// The number of the rule, from 0.
    pub rule: u32,
    /// The values of the rule's keys.
    pub group: Vec<String>,
    /// The sum of the group's rows on the page, in billionths.
    pub value: i128,
}

/// Rules, and the pages that they were held to so far. Of these it keeps for each rule and group alone on how many pages in a row it
/// passed. A contract sees the rules and the pages.
#[derive(Drop)]
pub struct Evaluator {
    rules: Vec<Rule>,
    start: HashStart,
    /// The runs of each rule. There are none before the first page.
    runs: Vec<Runs>,
    /// The pages so far. Proofs alone see them, and they have no bytes.
    seen: Vec<Snapshot<Page>>,
}

impl Model for Evaluator {
    ghost use Rattle.std.specs.Prelude.{map};
    ghost use Rattle.rule_eval.specs.Evaluating.{IsKept, pages_seen};
    ghost use Rattle.rule_eval.specs.Firing.{Evaluation};
    ghost use Rattle.rule_eval.specs.Rules.{rule_text};

    ghost Value = { Evaluation };

    ghost view = { λ evaluator. record { rules = map rule_text evaluator.rules.items; pages = pages_seen evaluator.seen.items } };

    ghost invariant = { λ evaluator. IsKept (map rule_text evaluator.rules.items) (pages_seen evaluator.seen.items) evaluator.runs.items };
}

impl Evaluator {
    /// Rules, and no page so far. It takes no memory. Names and groups are looked up by hashes from a start, which should be drawn where
    /// the pages are a stranger's.
    pub fn new(alloc: Global, start: HashStart, rules: Vec<Rule>) -> Evaluator
        requires pages { All AsksForPages (map rule_text rules.items) }
        requires few { length rules.items < 2 ^ 32 }
        ensures { result ≡ record { rules = map rule_text rules.items; pages = [] } }
    {
        Evaluator {
            rules,
            start,
            runs: Vec::new(alloc),
            seen: Vec::new(alloc),
        }
    }

    /// The rules.
    pub fn rules(&self) -> &[Rule]
        ensures { map rule_text result.now ≡ self.now.rules }
    {
        self.rules.as_slice()
    }

    /// Holds the rules to the next page. Answers what fires on it: rules in order, and the groups of each in order of first appearance on
    /// the page. It takes time linear in the rows of the page and, for each rule, in the rows of its name. Where memory is refused,
    /// the page was not seen.
    pub fn page(&mut self, alloc: Global, page: &Page) -> Result<Vec<Firing>, Memory>
        ensures fired { IfOk result (λ fired. map firing_text fired.items
            ≡ firings self.old.rules self.old.pages (families_of page.now)) }
        ensures next { OnOk result (self.new
            ≡ record { rules = self.old.rules; pages = self.old.pages ++ families_of page.now ∷ [] }) }
        ensures refused { OnErr result (self.new ≡ self.old) }
    {
        let (runs, firings) = hold_all(
            alloc,
            self.start,
            self.rules.as_slice(),
            self.runs.as_slice(),
            page,
        )?;
        self.seen.push(Snapshot::of(page))?;
        self.runs = runs;
        Ok(firings)
    }
}

/// Holds rules to a page behind pages with these runs. Answers the runs behind it, and what fires on it.
fn hold_all(
    alloc: Global,
    start: HashStart,
    rules: &[Rule],
    before: &[Runs],
    page: &Page,
) -> Result<(Vec<Runs>, Vec<Firing>), Memory>
    requires few { length rules.now < 2 ^ 32 }
    ensures runs { IfOk result (λ held.
        AllGoOn (map rule_text rules.now) before.now (families_of page.now) held.0.items) }
    ensures fired { IfOk result (λ held. map firing_text held.1.items
        ≡ fired_from 0 (map rule_text rules.now) before.now (families_of page.now)) }
{
    let rows = rows_by_name(alloc, start, page)?;
    let mut runs = Vec::new(alloc);
    let mut firings = Vec::new(alloc);
    let mut number = 0;
    for rule in rules {
        let sums = sums_by_name(alloc, start, rule, &rows)?;
        runs.push(hold(
            alloc,
            number,
            rule,
            before.get(number as usize),
            sums,
            &mut firings,
        )?)?;
        number += 1;
    }
    Ok((runs, firings))
}

/// Holds the rule of this number to the sums of its groups on a page, behind pages with these runs. Answers the runs behind it, and
/// adds what fires on it.
fn hold(
    alloc: Global,
    number: u32,
    rule: &Rule,
    before: Option<&Runs>,
    sums: Sums,
    firings: &mut Vec<Firing>,
) -> Result<Runs, Memory>
    ensures runs { IfOk result (λ runs.
        GoOn (rule_text rule.now) (runs_text (option_copied before.entry))
        (entries_text sums.entries) (entries_text runs.entries)) }
    ensures fired { OnOk result (map firing_text firings.new.items
        ≡ map firing_text firings.old.items
        ++ fired_of number (rule_text rule.now) (runs_text (option_copied before.entry)) (entries_text sums.entries)) }
{
    let mut runs: Runs = IndexMap::with_hasher(alloc, *sums.hasher());
    for (group, sum) in sums {
        if !passes(rule, sum) {
            continue;
        }
        let run = longer(rule, before, &group);
        push_fired(alloc, number, rule, run, &group, sum, firings)?;
        runs.insert(group, run)?;
    }
    Ok(runs)
}

/// Adds the group to what fires, where its run is as long as the rule asks for.
fn push_fired(
    alloc: Global,
    number: u32,
    rule: &Rule,
    run: u32,
    group: &Group,
    sum: i128,
    firings: &mut Vec<Firing>,
) -> Result<(), Memory>
    ensures { OnOk result (map firing_text firings.new.items ≡ map firing_text firings.old.items
        ++ (if nat_le rule.now.pages run then record { rule = number; group = group_text group.now; value = sum } ∷ [] else [])) }
{
    if rule.pages <= run {
        firings.push(Firing {
            rule: number,
            group: copy_of(alloc, group)?,
            value: sum,
        })?;
    }
    Ok(())
}

/// Whether a sum is on the rule's side of the bound.
fn passes(rule: &Rule, sum: i128) -> bool
    ensures { result ≡ passes (rule_text rule.now) sum }
{
    let bound = i128::from(rule.bound.0);
    if rule.over { bound < sum } else { sum < bound }
}

/// The run of a group that passes once more, at most as long as the rule asks for.
fn longer(rule: &Rule, before: Option<&Runs>, group: &Group) -> u32
    ensures { result ≡ longer (rule_text rule.now) (runs_text (option_copied before.entry))
        (group_text group.now) }
{
    let run = run_of(before, group);
    if run < rule.pages {
        run + 1
    } else {
        rule.pages
    }
}

/// On how many pages in a row the group passed.
fn run_of(before: Option<&Runs>, group: &Group) -> u32
    ensures { result ≡ run_in (runs_text (option_copied before.entry)) (group_text group.now) }
{
    match before {
        Some(runs) => runs.get(group).copied().unwrap_or(0),
        None => 0,
    }
}

/// A copy of the group.
fn copy_of(alloc: Global, group: &Group) -> Result<Group, Memory>
    ensures { IfOk result (λ copy. group_text copy ≡ group_text group.now) }
{
    let mut copy = Vec::new(alloc);
    for value in group {
        copy.push(String::from_str(alloc, value.as_str())?)?;
    }
    Ok(copy)
}
