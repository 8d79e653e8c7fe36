//! What lines want of the gauges: their keys, and the line that was last made of each.

ghost use Rattle.std.specs.Prelude.{◌≡◌, ℕ, List, Option, [], ◌∷◌, ◌++◌, slice_get, Some, IfOk, IfSome, OnOk, OnErr};
ghost use Rattle.std.specs.Bool.{OnTrue};
ghost use Rattle.metrics_core.specs.Keys.{KeyText, LabelText};
ghost use Rattle.dsd_writer.specs.Writers.{IsGaugeLine};
ghost use Rattle.dsd_exporter.specs.Exporter.{settings_of};
ghost use Rattle.dsd_exporter.specs.GaugeTexts.{AreLines, IsLineOf, gauge_text, prefix_text};

use crate::configuration::StateConfiguration;
use dsd_writer::{KeptKey, KeptKeys, PayloadWriter};
use metrics_core::{Fixed, Key, Label, Memory};
use std::alloc::Global;
use std::marker::Model;

/// The line that was last made of a gauge, with its value; none where there is no value.
#[derive(Drop)]
pub(crate) struct GaugeLine {
    value: Option<Fixed>,
    text: Vec<u8>,
}

/// The keys of the gauges, in order, and of each the line that was last made of it, as long as lines begin and end alike. A contract
/// sees the keys.
#[derive(Drop)]
pub(crate) struct GaugeTexts {
    keys: KeptKeys,
    /// What stands before the names in the lines.
    prefix: Option<String>,
    /// The tags that each line has behind its own.
    tags: Vec<Label>,
    /// The lines of the first gauges.
    lines: Vec<GaugeLine>,
}

impl Model for GaugeTexts {
    ghost use Rattle.std.specs.Prelude.{List};
    ghost use Rattle.metrics_core.specs.Keys.{KeyText};
    ghost use Rattle.dsd_exporter.specs.GaugeTexts.{AreLines, prefix_text};

    ghost Value = { List KeyText };

    ghost view = { λ texts. texts.keys };

    ghost invariant = { λ texts. AreLines (prefix_text texts.prefix) texts.tags.items texts.keys texts.lines.items };
}

impl GaugeTexts {
    /// No gauge. It takes no memory.
    pub(crate) fn new(alloc: Global) -> GaugeTexts
        ensures { result ≡ [] }
    {
        GaugeTexts {
            keys: KeptKeys::new(alloc),
            prefix: None,
            tags: Vec::new(alloc),
            lines: Vec::new(alloc),
        }
    }

    /// Makes room for the keys of so many more gauges, but for their text.
    pub(crate) fn reserve(&mut self, count: usize) -> Result<(), Memory>
        ensures same { self.new ≡ self.old }
    {
        self.keys.reserve(count)
    }

    /// Keeps the key of a gauge behind the others.
    pub(crate) fn push(&mut self, key: &Key) -> Result<(), Memory>
        ensures pushed { OnOk result (self.new ≡ self.old ++ key.now ∷ []) }
        ensures refused { OnErr result (self.new ≡ self.old) }
    {
        self.keys.push(key)
    }

    /// The key of the gauge at a place, from 0, if there is one.
    pub(crate) fn get(&self, place: usize) -> Option<KeptKey<'_>>
        ensures { result ≡ slice_get self.now place }
    {
        self.keys.get(place)
    }

    /// The line of the gauge at a place with this value, as a writer without a timestamp makes it, where it is kept.
    pub(crate) fn line(
        &self,
        place: usize,
        value: Fixed,
        configuration: &StateConfiguration,
        writer: &PayloadWriter,
    ) -> Option<&[u8]>
        ensures is { IfSome result (λ line. (key : KeyText) → slice_get self.now place ≡ Some key
            → line.now ≡ gauge_text (settings_of configuration.now).name_prefix writer.now.global_tags key value.0) }
        ensures some { IfSome result (λ line. IsGaugeLine line.now) }
    {
        if !are_for(&self.prefix, self.tags.as_slice(), configuration, writer) {
            return None;
        }
        let line = self.lines.get(place)?;
        match line.value {
            Some(held) if held.0 == value.0 => Some(line.text.as_slice()),
            _ => None,
        }
    }

    /// Keeps the line of the gauge at a place with this value, where there is memory for it. Lines that begin or end otherwise are
    /// let go.
    pub(crate) fn keep(
        &mut self,
        place: usize,
        value: Fixed,
        configuration: &StateConfiguration,
        writer: &PayloadWriter,
    )
        ensures { self.new ≡ self.old }
    {
        let _ = self.try_keep(place, value, configuration, writer);
    }

    /// Keeps the line of the gauge at a place with this value.
    fn try_keep(
        &mut self,
        place: usize,
        value: Fixed,
        configuration: &StateConfiguration,
        writer: &PayloadWriter,
    ) -> Result<(), Memory>
        ensures { self.new ≡ self.old }
    {
        let alloc = *self.lines.allocator();
        begin(
            alloc,
            &mut self.prefix,
            &mut self.tags,
            &mut self.lines,
            configuration,
            writer,
        )?;
        let Some(key) = self.keys.get(place) else {
            return Ok(());
        };
        keep_line(
            alloc,
            &mut self.lines,
            place,
            value,
            &key,
            configuration,
            writer,
        )
    }
}

/// Whether two prefixes are the same.
fn is_same_prefix(prefix: &Option<String>, other: &Option<String>) -> bool
    ensures { OnTrue result (prefix_text prefix.now ≡ prefix_text other.now) }
{
    match (prefix, other) {
        (Some(prefix), Some(other)) => prefix.as_str() == other.as_str(),
        (None, None) => true,
        _ => false,
    }
}

/// Whether two lists have the same labels in the same order.
fn are_same_tags(tags: &[Label], others: &[Label]) -> bool
    ensures { OnTrue result (tags.now ≡ others.now) }
{
    tags == others
}

/// Whether lines begin with this prefix, and end with these tags.
fn are_for(
    prefix: &Option<String>,
    tags: &[Label],
    configuration: &StateConfiguration,
    writer: &PayloadWriter,
) -> bool
    ensures { OnTrue result ((prefix_text prefix.now ≡ (settings_of configuration.now).name_prefix)
        × (tags.now ≡ writer.now.global_tags)) }
{
    is_same_prefix(prefix, &configuration.global_prefix)
        && are_same_tags(tags, writer.global_tags())
}

/// A copy of a prefix.
fn copied(alloc: Global, prefix: &Option<String>) -> Result<Option<String>, Memory>
    ensures { IfOk result (λ copy. prefix_text copy ≡ prefix_text prefix.now) }
{
    match prefix {
        Some(prefix) => Ok(Some(String::from_str(alloc, prefix.as_str())?)),
        None => Ok(None),
    }
}

/// Copies of labels.
fn copies(alloc: Global, tags: &[Label]) -> Result<Vec<Label>, Memory>
    ensures { IfOk result (λ copies. copies.items ≡ tags.now) }
{
    let mut copies = Vec::new(alloc);
    for tag in tags {
        copies.push(tag.clone(alloc)?)?;
    }
    Ok(copies)
}

/// Lets all lines go, unless they are such as this writer makes, and begins to keep those.
fn begin(
    alloc: Global,
    prefix: &mut Option<String>,
    tags: &mut Vec<Label>,
    lines: &mut Vec<GaugeLine>,
    configuration: &StateConfiguration,
    writer: &PayloadWriter,
) -> Result<(), Memory>
    ensures lines { (keys : List KeyText)
        → AreLines (prefix_text prefix.old) tags.old.items keys lines.old.items
        → AreLines (prefix_text prefix.new) tags.new.items keys lines.new.items }
    ensures begun { OnOk result ((prefix_text prefix.new ≡
        (settings_of configuration.now).name_prefix) × (tags.new.items ≡ writer.now.global_tags)) }
{
    if are_for(prefix, tags.as_slice(), configuration, writer) {
        return Ok(());
    }
    lines.clear();
    *prefix = copied(alloc, &configuration.global_prefix)?;
    *tags = copies(alloc, writer.global_tags())?;
    Ok(())
}

/// Keeps the line of the gauge at a place with this value. The place is one of a line that is there, or the next.
fn keep_line(
    alloc: Global,
    lines: &mut Vec<GaugeLine>,
    place: usize,
    value: Fixed,
    key: &KeptKey<'_>,
    configuration: &StateConfiguration,
    writer: &PayloadWriter,
) -> Result<(), Memory>
    ensures { (keys : List KeyText) → slice_get keys place ≡ Some key.now
        → AreLines (settings_of configuration.now).name_prefix writer.now.global_tags keys lines.old.items
        → AreLines (settings_of configuration.now).name_prefix writer.now.global_tags keys lines.new.items }
{
    add_place(alloc, lines, place)?;
    if place < lines.len() {
        set_line(&mut lines[place], value, key, configuration, writer)?;
    }
    Ok(())
}

/// Adds a place for a line where this is the next.
fn add_place(alloc: Global, lines: &mut Vec<GaugeLine>, place: usize) -> Result<(), Memory>
    ensures { (prefix : Option (List ℕ)) (tags : List LabelText) (keys : List KeyText)
        (key : KeyText) → slice_get keys place ≡ Some key
        → AreLines prefix tags keys lines.old.items → AreLines prefix tags keys lines.new.items }
{
    if place == lines.len() {
        lines.push(GaugeLine {
            value: None,
            text: Vec::new(alloc),
        })?;
    }
    Ok(())
}

/// Makes the line of a gauge with this value, where it isn't of this value.
fn set_line(
    line: &mut GaugeLine,
    value: Fixed,
    key: &KeptKey<'_>,
    configuration: &StateConfiguration,
    writer: &PayloadWriter,
) -> Result<(), Memory>
    ensures { IsLineOf (settings_of configuration.now).name_prefix writer.now.global_tags key.now
        line.old
        → IsLineOf (settings_of configuration.now).name_prefix writer.now.global_tags key.now line.new }
{
    if let Some(held) = line.value
        && held.0 == value.0
    {
        return Ok(());
    }
    line.value = None;
    let prefix = configuration.prefix_before(key.name());
    writer.make_gauge_line(&mut line.text, key, value, prefix)?;
    line.value = Some(value);
    Ok(())
}
