//! What is read from the front of one line.

ghost use Rattle.std.specs.Prelude.{
  bytes_eq,
  ◌≡◌,
  ℕ,
  ◌<◌,
  ◌≤◌,
  ◌^◌,
  ◌≢◌,
  decimal,
  MatchOption,
  IfNone,
  IfOk,
  IfSome,
  codes,
  option_map,
  string_bytes,
  Some,
  None,
  length,
  take,
  slice_index,
  drop,
  [],
};
ghost use Rattle.std.specs.Cow.{cow_str_bytes};
ghost use Rattle.std.specs.Str.Parse.{AllDigits, digits_value, digits_value_after};
ghost use Rattle.drive_script.specs.Reading.{
  after,
  and_then,
  argument_at,
  behind,
  character_at,
  characters_at,
  digit_count,
  end_at,
  escaped_by,
  fixed_at,
  fraction_at,
  fraction_of,
  label_at,
  kind_at,
  kind_of_letter,
  kind_word_at,
  labels_at,
  mask_at,
  matcher_at,
  matcher_form_at,
  native_numbers_at,
  number_at,
  positive_at,
  registered_kind_at,
  run_length,
  text_at,
  text_behind,
  unit_at,
  unit_named,
  value_of,
  values_at,
  verb_at,
  whole,
  word_length,
};
ghost use Rattle.std.specs.Int.NonZero.{non_zero_u32_get};
ghost use Rattle.metrics_registry.specs.Masks.{only};
ghost use Rattle.prom_format.specs.MatcherTexts.{matcher_text};
ghost use Rattle.drive_script.specs.Texts.{act_of, values_of};
ghost use Rattle.drive_script.specs.declared.lines.Verb.TheVariants as verbs;

use crate::Act;
use crate::headers::MatcherForm;
use crate::lines::Verb;
use crate::recent::Recent;
use metrics_core::{BILLIONTHS, Fixed, Label, Memory, MetricKind, SharedString, Unit};
use metrics_registry::MetricKindMask;
use prom_format::Matcher;
use std::alloc::Global;
use std::borrow::CowStr;
use std::num::NonZeroU32;

const ONE: u64 = BILLIONTHS as u64;

/// How many places billionths have behind the point.
const PLACES: usize = 9;

/// The greatest whole part of a value.
const MOST_WHOLE: u64 = 9_223_372_036;

/// Up to this value another digit has room behind a number in 64 bits.
const MOST_GROWING: u64 = 999_999_999_999_999_999;

/// So many digits are read without a look whether their value has room in 64 bits.
const MOST_SHORT: usize = 19;

/// How many samples one line may record.
const MOST_SAMPLES: u32 = 1_000_000;

/// What reads a line from its front, by the grammar of scripts. A method that answers `None` ends the reading of the line.
#[derive(Drop)]
pub struct Cursor<'a> {
    /// The bytes that are still to be read.
    pub rest: &'a [u8],
}

impl<'a> Cursor<'a> {
    /// A line of which nothing was read.
    pub fn new(line: &'a [u8]) -> Cursor<'a>
        ensures { result.rest.now ≡ line.now }
    {
        Cursor { rest: line }
    }

    /// Takes a literal.
    pub fn literal(&mut self, literal: &[u8]) -> Option<()>
        ensures taken { MatchOption result (behind literal.now self.old.rest.now ≡ None)
            (λ _. behind literal.now self.old.rest.now ≡ Some self.new.rest.now) }
        ensures stays { IfNone result (self.new ≡ self.old) }
    {
        self.rest = behind(literal, self.rest)?;
        Some(())
    }

    /// Takes a number of at most `most`, which has no zero at its front and which no digit follows.
    pub fn number(&mut self, most: u64) -> Option<u64>
        ensures value { MatchOption result (number_at most self.old.rest.now ≡ None)
            (λ n. number_at most self.old.rest.now ≡ Some (n, self.new.rest.now)) }
        ensures most { IfSome result (λ n. n ≤ most) }
    {
        let Some((value, rest)) = short_number(self.rest) else {
            return self.any_number(most);
        };
        if value > most {
            return None;
        }
        self.rest = rest;
        Some(value)
    }

    /// Takes a number as `number` does, however many digits it has.
    fn any_number(&mut self, most: u64) -> Option<u64>
        ensures value { MatchOption result (number_at most self.old.rest.now ≡ None)
            (λ n. number_at most self.old.rest.now ≡ Some (n, self.new.rest.now)) }
        ensures most { IfSome result (λ n. n ≤ most) }
    {
        let (digits, rest) = self.rest.split_at(digit_count(self.rest));
        let value = number_of(digits)?;
        if value > most {
            return None;
        }
        self.rest = rest;
        Some(value)
    }

    /// Takes a number from 1 to `most`.
    #[tactic(auto, unfolding(crate::specs::Reading::positive_at))]
    pub fn positive(&mut self, most: u32) -> Option<NonZeroU32>
        ensures { MatchOption result (positive_at most self.old.rest.now ≡ None)
            (λ n. positive_at most self.old.rest.now ≡ Some (non_zero_u32_get n, self.new.rest.now)) }
    {
        let number = self.number(u64::from(most))?;
        NonZeroU32::new(number as u32)
    }

    /// Takes a value: a sign or none, a whole part, and a point with one to nine digits or none.
    #[tactic(auto, unfolding(crate::specs::Reading::fixed_at))]
    pub fn fixed(&mut self) -> Option<Fixed>
        ensures { MatchOption result (fixed_at self.old.rest.now ≡ None)
            (λ value. fixed_at self.old.rest.now ≡ Some (value.0, self.new.rest.now)) }
    {
        let negative = self.literal(b"-").is_some();
        let whole = self.number(MOST_WHOLE)?;
        let fraction = self.fraction()?;
        let value = value_of(negative, whole * ONE + fraction)?;
        Some(Fixed(value))
    }

    /// Takes a point with one to nine digits, or nothing. Answers how many billionths they are.
    #[tactic(auto, unfolding(crate::specs::Reading::fraction_at))]
    fn fraction(&mut self) -> Option<u64>
        ensures value { MatchOption result (fraction_at self.old.rest.now ≡ None)
            (λ n. fraction_at self.old.rest.now ≡ Some (n, self.new.rest.now)) }
        ensures below { IfSome result (λ n. n < 10 ^ 9) }
    {
        if self.literal(b".").is_none() {
            return Some(0);
        }
        let (digits, rest) = self.rest.split_at(digit_count(self.rest));
        self.rest = rest;
        fraction_of(digits)
    }

    /// Takes values up to the end of the line, each behind a space.
    pub(crate) fn values(&mut self, alloc: Global) -> Result<Option<Vec<Fixed>>, Memory>
        ensures { IfOk result (λ values. MatchOption values (values_at self.old.rest.now ≡ None)
            (λ values. values_at self.old.rest.now ≡ Some (values_of values.items, []))) }
    {
        let mut values = Vec::new(alloc);
        while !self.rest.is_empty() {
            let Some(value) = self.spaced_value() else {
                return Ok(None);
            };
            values.push(value)?;
        }
        Ok(Some(values))
    }

    /// Takes a space and a value.
    pub(crate) fn spaced_value(&mut self) -> Option<Fixed>
        ensures { MatchOption result (after (codes " ") fixed_at self.old.rest.now ≡ None)
            (λ value. after (codes " ") fixed_at self.old.rest.now ≡ Some (value.0, self.new.rest.now)) }
    {
        self.literal(b" ")?;
        self.fixed()
    }

    /// Takes a text in quotes: as it stands in the line, or as a text of its own where something in it is escaped.
    #[tactic(auto, unfolding(crate::specs::Reading::text_at))]
    pub fn text(&mut self, alloc: Global) -> Result<Option<CowStr<'a>>, Memory>
        ensures { IfOk result (λ text. MatchOption text (text_at self.old.rest.now ≡ None)
            (λ text. text_at self.old.rest.now ≡ Some (cow_str_bytes text, self.new.rest.now))) }
    {
        if self.literal(b"\"").is_none() {
            return Ok(None);
        }
        let run = self.run();
        if self.literal(b"\"").is_none() {
            return self.escaped_text(alloc, run);
        }
        match str::from_utf8(run) {
            Ok(text) => Ok(Some(CowStr::Borrowed(text))),
            Err(_) => Ok(None),
        }
    }

    /// Takes a space and a text.
    pub fn spaced_text(&mut self, alloc: Global) -> Result<Option<CowStr<'a>>, Memory>
        ensures { IfOk result (λ text.
            MatchOption text (after (codes " ") text_at self.old.rest.now ≡ None)
            (λ text. after (codes " ") text_at self.old.rest.now ≡ Some (cow_str_bytes text, self.new.rest.now))) }
    {
        match self.literal(b" ") {
            Some(()) => self.text(alloc),
            None => Ok(None),
        }
    }

    /// Takes what follows the first run of a text, up to its quote. Answers the whole text.
    fn escaped_text(&mut self, alloc: Global, run: &[u8]) -> Result<Option<CowStr<'a>>, Memory>
        ensures { IfOk result (λ text. MatchOption text
            (text_behind run.now self.old.rest.now ≡ None)
            (λ text. text_behind run.now self.old.rest.now ≡ Some (cow_str_bytes text, self.new.rest.now))) }
    {
        let Some(text) = self.characters(alloc, run)? else {
            return Ok(None);
        };
        match String::from_utf8(text) {
            Ok(text) => Ok(Some(CowStr::Owned(text))),
            Err(_) => Ok(None),
        }
    }

    /// Takes the bytes at the front that stand for themselves in a text.
    fn run(&mut self) -> &'a [u8]
        ensures run { result.now ≡ take (run_length self.old.rest.now) self.old.rest.now }
        ensures rest { self.new.rest.now ≡ drop (run_length self.old.rest.now) self.old.rest.now }
    {
        let (run, rest) = self.rest.split_at(run_length(self.rest));
        self.rest = rest;
        run
    }

    /// Takes the characters before the next quote, and the quote. Answers them behind the run that was taken before.
    fn characters(&mut self, alloc: Global, run: &[u8]) -> Result<Option<Vec<u8>>, Memory>
        ensures { IfOk result (λ text.
            MatchOption text (and_then run.now (characters_at self.old.rest.now) ≡ None)
            (λ text. and_then run.now (characters_at self.old.rest.now) ≡ Some (text.items, self.new.rest.now))) }
    {
        let mut text = Vec::from_slice(alloc, run)?;
        while let [first, rest @ ..] = self.rest {
            self.rest = rest;
            if *first == b'"' {
                return Ok(Some(text));
            }
            let Some(character) = self.character(*first) else {
                return Ok(None);
            };
            text.push(character)?;
            text.extend_from_slice(self.run())?;
        }
        Ok(None)
    }

    /// The character that begins with a byte: the byte, or what the escape with the next one stands for.
    fn character(&mut self, first: u8) -> Option<u8>
        ensures { MatchOption result (character_at first self.old.rest.now ≡ None)
            (λ c. character_at first self.old.rest.now ≡ Some (c, self.new.rest.now)) }
    {
        if first == b'\n' {
            return None;
        }
        if first != b'\\' {
            return Some(first);
        }
        let (second, rest) = self.rest.split_first()?;
        self.rest = rest;
        escaped_by(*second)
    }

    /// Takes labels up to the end of the line, each behind a space. The list has room for just as many as there are.
    #[tactic(auto, unfolding(crate::specs::Reading::labels_at))]
    pub(crate) fn labels(
        &mut self,
        alloc: Global,
        recent: &mut Recent<'a>,
    ) -> Result<Option<Vec<Label>>, Memory>
        ensures { IfOk result (λ labels. MatchOption labels (labels_at self.old.rest.now ≡ None)
            (λ labels. labels_at self.old.rest.now ≡ Some (labels.items, self.new.rest.now))) }
    {
        let mut labels = Vec::with_capacity(alloc, usize::from(!self.rest.is_empty()))?;
        while !self.rest.is_empty() {
            let Some((key, value)) = self.spaced_label(alloc)? else {
                return Ok(None);
            };
            let key = recent.shared(alloc, labels.len() + 1, key)?;
            labels.push(Label::new(key, SharedString::from(value)))?;
        }
        labels.shrink_to_fit();
        Ok(Some(labels))
    }

    /// Takes a space and a label. Answers its key and its value.
    #[tactic(auto, unfolding(crate::specs::Reading::label_at))]
    fn spaced_label(&mut self, alloc: Global) -> Result<Option<(CowStr<'a>, String)>, Memory>
        ensures { IfOk result (λ label.
            MatchOption label (after (codes " ") label_at self.old.rest.now ≡ None)
            (λ label. after (codes " ") label_at self.old.rest.now
            ≡ Some (record { key = cow_str_bytes label.0; value = string_bytes label.1 }, self.new.rest.now))) }
    {
        if self.literal(b" ").is_none() {
            return Ok(None);
        }
        let Some(key) = self.text(alloc)? else {
            return Ok(None);
        };
        if self.literal(b"=").is_none() {
            return Ok(None);
        }
        let Some(value) = self.text(alloc)? else {
            return Ok(None);
        };
        Ok(Some((key, value.into_owned(alloc)?)))
    }

    /// Takes a matcher: how it takes its text, and the text.
    #[tactic(auto, unfolding(crate::specs::Reading::matcher_at))]
    pub(crate) fn matcher(&mut self, alloc: Global) -> Result<Option<Matcher>, Memory>
        ensures { IfOk result (λ matcher. MatchOption matcher (matcher_at self.old.rest.now ≡ None)
            (λ matcher. matcher_at self.old.rest.now ≡ Some (matcher_text matcher, self.new.rest.now))) }
    {
        let Some(form) = self.matcher_form() else {
            return Ok(None);
        };
        let Some(text) = self.text(alloc)? else {
            return Ok(None);
        };
        let text = text.into_owned(alloc)?;
        Ok(Some(match form {
            MatcherForm::Full => Matcher::Full(text),
            MatcherForm::Prefix => Matcher::Prefix(text),
            MatcherForm::Suffix => Matcher::Suffix(text),
        }))
    }

    /// Takes the word that says how a matcher takes its text.
    #[tactic(auto, unfolding(crate::specs::Reading::matcher_form_at))]
    fn matcher_form(&mut self) -> Option<MatcherForm>
        ensures { MatchOption result (matcher_form_at self.old.rest.now ≡ None)
            (λ form. matcher_form_at self.old.rest.now ≡ Some (form, self.new.rest.now)) }
    {
        if self.literal(b"full ").is_some() {
            return Some(MatcherForm::Full);
        }
        if self.literal(b"prefix ").is_some() {
            return Some(MatcherForm::Prefix);
        }
        self.literal(b"suffix ")?;
        Some(MatcherForm::Suffix)
    }

    /// Takes the three numbers of a native-for line, each behind a space, and the end of the line.
    pub(crate) fn native_numbers(&mut self) -> Option<(Fixed, u32, Fixed)>
        ensures { option_map (λ numbers. (numbers.0.0, (numbers.1, numbers.2.0))) result
            ≡ whole (after (codes " ") native_numbers_at) self.old.rest.now }
    {
        let factor = self.spaced_value()?;
        self.literal(b" ")?;
        let max_buckets = self.number(u64::from(u32::MAX))?;
        let threshold = self.spaced_value()?;
        self.end()?;
        Some((factor, max_buckets as u32, threshold))
    }

    /// Takes a space, and the name of a unit, or `-` where there is none.
    pub(crate) fn spaced_unit(&mut self) -> Option<Option<Unit>>
        ensures { MatchOption result (after (codes " ") unit_at self.old.rest.now ≡ None)
            (λ unit. after (codes " ") unit_at self.old.rest.now ≡ Some (unit, self.new.rest.now)) }
    {
        self.literal(b" ")?;
        self.unit()
    }

    /// Takes the bytes before the next space: the name of a unit, or `-` where there is none.
    #[tactic(auto, unfolding(crate::specs::Reading::unit_at))]
    fn unit(&mut self) -> Option<Option<Unit>>
        ensures { MatchOption result (unit_at self.old.rest.now ≡ None)
            (λ unit. unit_at self.old.rest.now ≡ Some (unit, self.new.rest.now)) }
    {
        let (word, rest) = self.rest.split_at(word_length(self.rest));
        let unit = unit_named(word)?;
        self.rest = rest;
        Some(unit)
    }

    /// Takes the letters of one to three different kinds.
    #[tactic(auto, unfolding(crate::specs::Reading::mask_at))]
    pub(crate) fn mask(&mut self) -> Option<MetricKindMask>
        ensures { MatchOption result (mask_at self.old.rest.now ≡ None)
            (λ mask. mask_at self.old.rest.now ≡ Some (mask, self.new.rest.now)) }
    {
        let mut mask = mask_of(self.kind()?);
        while let Some(kind) = self.kind() {
            if mask.matches(kind) {
                return None;
            }
            mask = mask.union(mask_of(kind));
        }
        Some(mask)
    }

    /// Takes the letter of a kind.
    fn kind(&mut self) -> Option<MetricKind>
        ensures kind { MatchOption result (kind_at self.old.rest.now ≡ None)
            (λ kind. kind_at self.old.rest.now ≡ Some (kind, self.new.rest.now)) }
        ensures stays { IfNone result (self.new ≡ self.old) }
        ensures shorter { IfSome result (λ _. length self.new.rest.now < length self.old.rest.now) }
    {
        let (letter, rest) = self.rest.split_first()?;
        let kind = kind_of_letter(*letter)?;
        self.rest = rest;
        Some(kind)
    }

    /// Takes what a call line does.
    #[tactic(auto, unfolding(crate::specs::Reading::verb_at))]
    pub(crate) fn verb(&mut self) -> Option<Verb>
        ensures { MatchOption result (verb_at self.old.rest.now ≡ None)
            (λ verb. verb_at self.old.rest.now ≡ Some (verb, self.new.rest.now)) }
    {
        if self.literal(b" inc ").is_some() {
            Some(Verb::Inc)
        } else if self.literal(b" abs ").is_some() {
            Some(Verb::Abs)
        } else if self.literal(b" add ").is_some() {
            Some(Verb::Add)
        } else if self.literal(b" sub ").is_some() {
            Some(Verb::Sub)
        } else if self.literal(b" set ").is_some() {
            Some(Verb::Set)
        } else if self.literal(b" rec ").is_some() {
            Some(Verb::Rec)
        } else if self.literal(b" recn ").is_some() {
            Some(Verb::RecN)
        } else {
            None
        }
    }

    /// Takes the first words of a register line.
    #[tactic(auto, unfolding(crate::specs::Reading::registered_kind_at))]
    pub(crate) fn registered_kind(&mut self) -> Option<MetricKind>
        ensures { MatchOption result (registered_kind_at self.old.rest.now ≡ None)
            (λ kind. registered_kind_at self.old.rest.now ≡ Some (kind, self.new.rest.now)) }
    {
        self.literal(b"register ")?;
        self.kind_word()
    }

    /// Takes the first words of a describe line.
    pub(crate) fn described_kind(&mut self) -> Option<MetricKind>
        ensures { MatchOption result
            (after (codes "describe ") kind_word_at self.old.rest.now ≡ None)
            (λ kind. after (codes "describe ") kind_word_at self.old.rest.now ≡ Some (kind, self.new.rest.now)) }
    {
        self.literal(b"describe ")?;
        self.kind_word()
    }

    /// Takes the word of a kind, and the space behind it.
    #[tactic(auto, unfolding(crate::specs::Reading::kind_word_at))]
    fn kind_word(&mut self) -> Option<MetricKind>
        ensures { MatchOption result (kind_word_at self.old.rest.now ≡ None)
            (λ kind. kind_word_at self.old.rest.now ≡ Some (kind, self.new.rest.now)) }
    {
        if self.literal(b"counter ").is_some() {
            return Some(MetricKind::Counter);
        }
        if self.literal(b"gauge ").is_some() {
            return Some(MetricKind::Gauge);
        }
        self.literal(b"histogram ")?;
        Some(MetricKind::Histogram)
    }

    /// Takes the argument of a call line.
    pub(crate) fn argument(&mut self, verb: Verb) -> Option<Act>
        ensures { MatchOption result (argument_at verb self.old.rest.now ≡ None)
            (λ act. argument_at verb self.old.rest.now ≡ Some (act_of act, self.new.rest.now)) }
    {
        match verb {
            Verb::Inc => Some(Act::Inc(self.number(u64::MAX)?)),
            Verb::Abs => Some(Act::Abs(self.number(u64::MAX)?)),
            Verb::Add => Some(Act::Add(self.fixed()?)),
            Verb::Sub => Some(Act::Sub(self.fixed()?)),
            Verb::Set => Some(Act::Set(self.fixed()?)),
            Verb::Rec => Some(Act::Rec(self.fixed()?)),
            Verb::RecN => self.repeated(),
        }
    }

    /// Takes a value and how many times it is recorded.
    fn repeated(&mut self) -> Option<Act>
        ensures { MatchOption result (argument_at verbs.RecN self.old.rest.now ≡ None)
            (λ act. argument_at verbs.RecN self.old.rest.now ≡ Some (act_of act, self.new.rest.now)) }
    {
        let value = self.fixed()?;
        self.literal(b" ")?;
        let count = self.positive(MOST_SAMPLES)?;
        Some(Act::RecN(value, count.get()))
    }

    /// Takes the end of the line.
    pub fn end(&self) -> Option<()>
        ensures { result ≡ end_at self.now.rest.now }
    {
        if self.rest.is_empty() { Some(()) } else { None }
    }
}

/// How many bytes at the front stand for themselves in a text.
fn run_length(bytes: &[u8]) -> usize
    ensures count { result ≡ run_length bytes.now }
    ensures within { result ≤ length bytes.now }
{
    bytes
        .iter()
        .position(|byte| matches!(*byte, b'"' | b'\\' | b'\n'))
        .unwrap_or(bytes.len())
}

/// How many bytes stand before the next space.
fn word_length(bytes: &[u8]) -> usize
    ensures count { result ≡ word_length bytes.now }
    ensures within { result ≤ length bytes.now }
{
    bytes
        .iter()
        .position(|byte| *byte == b' ')
        .unwrap_or(bytes.len())
}

/// The unit of a name, or none for `-`.
fn unit_named(word: &[u8]) -> Option<Option<Unit>>
    ensures { result ≡ unit_named word.now }
{
    if is_same(word, b"-") {
        return Some(None);
    }
    let unit = Unit::from_string(str::from_utf8(word).ok()?)?;
    Some(Some(unit))
}

/// Whether two runs of bytes are the same.
pub(crate) fn is_same(one: &[u8], other: &[u8]) -> bool
    ensures { result ≡ bytes_eq one.now other.now }
{
    one == other
}

/// How many digits stand at the front.
fn digit_count(bytes: &[u8]) -> usize
    ensures count { result ≡ digit_count bytes.now }
    ensures within { result ≤ length bytes.now }
{
    bytes
        .iter()
        .position(|byte| !byte.is_ascii_digit())
        .unwrap_or(bytes.len())
}

/// The number in the digits at the front and the bytes behind it, in one pass, where no zero stands in front of others and it
/// has at most nineteen digits. Elsewhere it tells nothing.
fn short_number(bytes: &[u8]) -> Option<(u64, &[u8])>
    ensures number { IfSome result (λ found.
        take (digit_count bytes.now) bytes.now ≡ decimal found.0) }
    ensures fits { IfSome result (λ found. found.0 < 2 ^ 64) }
    ensures rest { IfSome result (λ found. found.1.now ≡ drop (digit_count bytes.now) bytes.now) }
{
    let (first, behind) = bytes.split_first()?;
    if !first.is_ascii_digit() {
        return None;
    }
    if *first == b'0' {
        return zero_before(behind);
    }
    let (value, rest) = digits_behind(u64::from(*first - b'0'), behind)?;
    Some((value, rest))
}

/// The number 0 and the bytes behind it, where they don't begin with a digit.
fn zero_before(bytes: &[u8]) -> Option<(u64, &[u8])>
    ensures { IfSome result (λ found. (digit_count bytes.now ≡ 0) × (found.0 ≡ 0)
        × (found.1.now ≡ bytes.now)) }
{
    if let Some(next) = bytes.first()
        && next.is_ascii_digit()
    {
        return None;
    }
    Some((0, bytes))
}

/// A value that goes on with the digits at the front, and the bytes behind them, where it has room.
fn digits_behind(begun: u64, bytes: &[u8]) -> Option<(u64, &[u8])>
    ensures value { IfSome result (λ found.
        found.0 ≡ digits_value_after 10 begun (take (digit_count bytes.now) bytes.now)) }
    ensures fits { IfSome result (λ found. found.0 < 2 ^ 64) }
    ensures rest { IfSome result (λ found. found.1.now ≡ drop (digit_count bytes.now) bytes.now) }
{
    let mut value = begun;
    let mut rest = bytes;
    while let Some((first, behind)) = rest.split_first() {
        if !first.is_ascii_digit() {
            return Some((value, rest));
        }
        if value > MOST_GROWING {
            return None;
        }
        value = value * 10 + u64::from(*first - b'0');
        rest = behind;
    }
    Some((value, rest))
}

/// The bytes behind a literal that stands at the front. Literals are short: they are held to the bytes one by one, up to the first
/// that differs.
fn behind<'a>(literal: &[u8], bytes: &'a [u8]) -> Option<&'a [u8]>
    ensures { MatchOption result (behind literal.now bytes.now ≡ None)
        (λ rest. behind literal.now bytes.now ≡ Some rest.now) }
{
    let mut wanted = literal;
    let mut rest = bytes;
    while let [byte, others @ ..] = wanted {
        let [first, past @ ..] = rest else {
            return None;
        };
        if *first != *byte {
            return None;
        }
        wanted = others;
        rest = past;
    }
    Some(rest)
}

/// The number that the digits are the decimal form of.
fn number_of(digits: &[u8]) -> Option<u64>
    requires { AllDigits 10 digits.now }
    ensures { MatchOption result ((n : ℕ) → n < 2 ^ 64 → digits.now ≢ decimal n)
        (λ n. digits.now ≡ decimal n) }
{
    if digits.len() > 1 && digits[0] == b'0' {
        return None;
    }
    if digits.is_empty() {
        return None;
    }
    if digits.len() > MOST_SHORT {
        return parsed_number(digits);
    }
    Some(short_value(digits))
}

/// The same of any digits without a zero in front of others.
fn parsed_number(digits: &[u8]) -> Option<u64>
    requires all { AllDigits 10 digits.now }
    requires plain { 1 < length digits.now → slice_index digits.now 0 ≢ 48 }
    ensures { MatchOption result ((n : ℕ) → n < 2 ^ 64 → digits.now ≢ decimal n)
        (λ n. digits.now ≡ decimal n) }
{
    str::from_utf8(digits).ok()?.parse().ok()
}

/// The value of at most nineteen digits, which 64 bits hold whatever they are.
fn short_value(digits: &[u8]) -> u64
    requires all { AllDigits 10 digits.now }
    requires few { length digits.now ≤ 19 }
    ensures value { result ≡ digits_value 10 digits.now }
    ensures below { result < 10 ^ 19 }
{
    let mut value: u64 = 0;
    let mut rest = digits;
    while let [first, behind @ ..] = rest {
        value = value * 10 + u64::from(*first - b'0');
        rest = behind;
    }
    value
}

/// How many billionths one to nine digits behind a point are.
fn fraction_of(digits: &[u8]) -> Option<u64>
    requires { AllDigits 10 digits.now }
    ensures value { result ≡ fraction_of digits.now }
    ensures below { IfSome result (λ n. n < 10 ^ 9) }
{
    if digits.is_empty() || digits.len() > PLACES {
        return None;
    }
    Some(short_value(digits) * 10_u64.pow((PLACES - digits.len()) as u32))
}

/// The value of a sign and so many billionths, if it fits.
fn value_of(negative: bool, billionths: u64) -> Option<i64>
    ensures { result ≡ value_of negative billionths }
{
    if negative {
        0_i64.checked_sub_unsigned(billionths)
    } else {
        0_i64.checked_add_unsigned(billionths)
    }
}

/// The kind that a letter stands for.
fn kind_of_letter(letter: u8) -> Option<MetricKind>
    ensures { result ≡ kind_of_letter letter }
{
    match letter {
        b'c' => Some(MetricKind::Counter),
        b'g' => Some(MetricKind::Gauge),
        b'h' => Some(MetricKind::Histogram),
        _ => None,
    }
}

/// The set of one kind.
fn mask_of(kind: MetricKind) -> MetricKindMask
    ensures { result ≡ only kind }
{
    match kind {
        MetricKind::Counter => MetricKindMask::COUNTER,
        MetricKind::Gauge => MetricKindMask::GAUGE,
        MetricKind::Histogram => MetricKindMask::HISTOGRAM,
    }
}

/// The character that a backslash and another character stand for.
fn escaped_by(second: u8) -> Option<u8>
    ensures { result ≡ escaped_by second }
{
    if second == b'\\' || second == b'"' {
        Some(second)
    } else if second == b'n' {
        Some(b'\n')
    } else {
        None
    }
}
