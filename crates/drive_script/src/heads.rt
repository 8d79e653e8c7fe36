//! Which register lines print alike: what the rows of each begin with, and whose that is.

ghost use Rattle.std.specs.Prelude.{◌≡◌, ◌↔◌, List, [], ◌∷◌, ◌++◌, All, IfOk, IsTrue, MatchBool, OnOk, string_bytes};
ghost use Rattle.std.specs.List.{list_any};
ghost use Rattle.metrics_core.specs.Kinds.{kind_text};
ghost use Rattle.prom_format.specs.LabelSets.{labels_of};
ghost use Rattle.prom_format.specs.Names.{sanitized_metric_name};
ghost use Rattle.drive_script.specs.Heads.{text_of_head, keys_by_head, AreHeadsOf, AllPrintPlainly, AreNoted, shows_overflow};
ghost use Rattle.drive_script.specs.Growth.{globals_with};
ghost use Rattle.drive_script.specs.Texts.{header_of, registrations_in, registrations_of};
ghost use Rattle.drive_script.specs.Valid.{Registration, PrintApart, IsNoOverflow, head_of, overflow_head};

use crate::headers::HeaderLine;
use crate::{Round, Setup};
use hash_starts::HashStart;
use indexmap::IndexMap;
use metrics_core::{Key, KeyName, Label, Memory, MetricKind};
use prom_format::{prints_plainly, put_label, row_head, sanitize_metric_name};
use std::alloc::Global;

/// The metric name of the counts of what is past a limit on series.
const OVERFLOW_NAME: &str = "series_overflow";

/// The key of the one label of an overflow series.
const OVERFLOW_LABEL: &str = "overflow";

/// The value of that label.
const OVERFLOW_VALUE: &str = "true";

/// The global labels, and the table of heads. As long as each key so far prints plainly there is no table, since no two
/// such keys print alike.
#[derive(Drop)]
pub(crate) struct Heads {
    globals: IndexMap<String, String, HashStart>,
    table: Option<HeadTable>,
}

impl Heads {
    /// No global label and no key. Both are looked up by hashes from a start.
    pub(crate) fn new(alloc: Global, start: HashStart) -> Heads
        ensures globals { labels_of result.globals.entries ≡ [] }
        ensures noted { AreNoted [] result.table [] }
    {
        Heads {
            globals: IndexMap::with_hasher(alloc, start),
            table: None,
        }
    }

    /// Adds the global label of a header line that has one. Where another has its key, that one's value is replaced.
    pub(crate) fn add_header(&mut self, alloc: Global, line: &HeaderLine) -> Result<(), Memory>
        ensures added { OnOk result (labels_of self.new.globals.entries
            ≡ globals_with (labels_of self.old.globals.entries) (header_of line.now)) }
        ensures table { self.new.table ≡ self.old.table }
    {
        match line {
            HeaderLine::Global(key, value) => {
                put_label(&mut self.globals, key.as_str(), value.as_str(), alloc)
            }
            _ => Ok(()),
        }
    }

    /// Notes one more register line behind those of the rounds. Answers whether all that print like it have an equal key.
    pub(crate) fn note(
        &mut self,
        alloc: Global,
        kind: MetricKind,
        key: &Key,
        rounds: &[Round],
    ) -> Result<bool, Memory>
        ensures globals { self.new.globals ≡ self.old.globals }
        ensures apart { AreNoted (labels_of self.old.globals.entries) self.old.table
            (registrations_of rounds.now)
            → IfOk result (λ apart. MatchBool apart
            (AreNoted (labels_of self.old.globals.entries) self.new.table (registrations_of rounds.now ++ record { kind = kind; key = key.now } ∷ [])
            × All (λ r. PrintApart (labels_of self.old.globals.entries) r (record { kind = kind; key = key.now })) (registrations_of rounds.now))
            (¬ All (λ r. PrintApart (labels_of self.old.globals.entries) r (record { kind = kind; key = key.now })) (registrations_of rounds.now))) }
    {
        if let Some(table) = &mut self.table {
            return table.note(alloc, &self.globals, kind, key);
        }
        if prints_plainly(key, &self.globals) {
            return Ok(true);
        }
        let mut table = HeadTable::of_rounds(alloc, &self.globals, rounds)?;
        let apart = table.note(alloc, &self.globals, kind, key)?;
        self.table = Some(table);
        Ok(apart)
    }

    /// Whether a key stands apart from what is made where series are past their limit: the counts of that, and the overflow
    /// series of its metric name.
    pub(crate) fn is_no_overflow(&self, alloc: Global, key: &Key) -> Result<bool, Memory>
        ensures { IfOk result (λ apart. MatchBool apart
            (IsNoOverflow (labels_of self.now.globals.entries) key.now)
            (¬ IsNoOverflow (labels_of self.now.globals.entries) key.now)) }
    {
        let name = sanitize_metric_name(alloc, key.name())?;
        if name.as_str() == OVERFLOW_NAME {
            return Ok(false);
        }
        Ok(!self.prints_as_overflow(alloc, key, name)?)
    }

    /// Whether the rows of a key begin as those of the overflow series of its metric name do. Where neither it nor a global
    /// label has the key `overflow`, they don't.
    fn prints_as_overflow(&self, alloc: Global, key: &Key, name: String) -> Result<bool, Memory>
        requires { string_bytes name ≡ sanitized_metric_name key.now.name }
        ensures { let globals = labels_of self.now.globals.entries in
            IfOk result (λ alike. IsTrue alike ↔ (head_of globals key.now ≡ overflow_head globals (sanitized_metric_name key.now.name))) }
    {
        if !self.globals.contains_key(OVERFLOW_LABEL) && !shows_overflow(key) {
            return Ok(false);
        }
        let label = Label::from_static_parts(OVERFLOW_LABEL, OVERFLOW_VALUE);
        let overflow = Key::from_parts(KeyName::from(name), vec![in alloc; label]?);
        let head = row_head(alloc, key, &self.globals)?;
        Ok(head == row_head(alloc, &overflow, &self.globals)?)
    }
}

/// Whether one of the labels of a key is shown with the key of the label of overflow series.
fn shows_overflow(key: &Key) -> bool
    ensures { result ≡ list_any shows_overflow key.now.labels }
{
    key.labels().any(|label| is_overflow_label(label))
}

/// Whether a label is shown with the key of the label of overflow series, as only that key itself is.
fn is_overflow_label(label: &Label) -> bool
    ensures { result ≡ shows_overflow label.now }
{
    label.key() == OVERFLOW_LABEL
}

/// Under what the rows of each register line begin with, its key.
#[derive(Drop)]
pub(crate) struct HeadTable {
    keys: IndexMap<String, Key, HashStart>,
}

impl HeadTable {
    /// The table of the register lines of rounds, all of which print plainly.
    fn of_rounds(
        alloc: Global,
        globals: &IndexMap<String, String, HashStart>,
        rounds: &[Round],
    ) -> Result<HeadTable, Memory>
        ensures { AllPrintPlainly (labels_of globals.now.entries) (registrations_of rounds.now)
            → IfOk result (λ table. AreHeadsOf (labels_of globals.now.entries) (keys_by_head table.keys.entries) (registrations_of rounds.now)) }
    {
        let mut table = HeadTable {
            keys: IndexMap::with_hasher(alloc, *globals.hasher()),
        };
        for round in rounds {
            table.note_setup(alloc, globals, &round.setup)?;
        }
        Ok(table)
    }

    /// Notes the register lines of a round, which print plainly, as all before them do.
    fn note_setup(
        &mut self,
        alloc: Global,
        globals: &IndexMap<String, String, HashStart>,
        setup: &[Setup],
    ) -> Result<(), Memory>
        ensures { (earlier : List Registration)
            → AreHeadsOf (labels_of globals.now.entries) (keys_by_head self.old.keys.entries) earlier
            → AllPrintPlainly (labels_of globals.now.entries) (earlier ++ registrations_in setup.now)
            → OnOk result (AreHeadsOf (labels_of globals.now.entries) (keys_by_head self.new.keys.entries) (earlier ++ registrations_in setup.now)) }
    {
        for line in setup {
            if let Setup::Register { kind, key } = line {
                self.note(alloc, globals, *kind, key)?;
            }
        }
        Ok(())
    }

    /// Notes one more register line. Answers whether all that print like it have an equal key.
    fn note(
        &mut self,
        alloc: Global,
        globals: &IndexMap<String, String, HashStart>,
        kind: MetricKind,
        key: &Key,
    ) -> Result<bool, Memory>
        ensures { (registered : List Registration)
            → AreHeadsOf (labels_of globals.now.entries) (keys_by_head self.old.keys.entries) registered
            → IfOk result (λ apart. MatchBool apart
            (AreHeadsOf (labels_of globals.now.entries) (keys_by_head self.new.keys.entries) (registered ++ record { kind = kind; key = key.now } ∷ [])
            × All (λ r. PrintApart (labels_of globals.now.entries) r (record { kind = kind; key = key.now })) registered)
            (¬ All (λ r. PrintApart (labels_of globals.now.entries) r (record { kind = kind; key = key.now })) registered)) }
    {
        let head = head_of(alloc, globals, kind, key)?;
        if let Some(known) = self.keys.get(&head) {
            return Ok(known == key);
        }
        let key = key.clone(alloc)?;
        self.keys.insert(head, key)?;
        Ok(true)
    }
}

/// The kind, and what each row of a series with this key begins with.
fn head_of(
    alloc: Global,
    globals: &IndexMap<String, String, HashStart>,
    kind: MetricKind,
    key: &Key,
) -> Result<String, Memory>
    ensures { IfOk result (λ text. string_bytes text
        ≡ text_of_head (labels_of globals.now.entries) (record { kind = kind; key = key.now })) }
{
    let head = row_head(alloc, key, globals)?;
    let kind = match kind {
        MetricKind::Counter => "counter",
        MetricKind::Gauge => "gauge",
        MetricKind::Histogram => "histogram",
    };
    Ok(format!(in alloc; "{kind} {head}")?)
}
