//! The descriptions of metrics, and their readers.

ghost use Rattle.std.specs.Prelude.{◌≡◌, true, is_some, string_bytes, option_map, IfOk, OnOk, OnErr};
ghost use Rattle.std.specs.Option.{option_copied};
ghost use Rattle.evmap_contents.specs.Fold.{after};
ghost use Rattle.evmap_core.specs.Known.{known};
ghost use Rattle.metrics_core.specs.Texts.{cow_text};
ghost use Rattle.metric_descriptions.specs.Descriptions.{nothing_described, describe, publish, description_of};
ghost use Rattle.metric_descriptions.specs.Said.{said};
ghost use Rattle.metric_descriptions.specs.Written.{said_of, stored, written, IsToldOf};
ghost use Rattle.metric_descriptions.specs.Book.{IsBook, HasBook, text_of, text_in};

use evmap_contents::KeyClone;
use evmap_core::{EvmapFault, Keep, KeepAll, Options, ReadHandle, WriteHandle};
use hash_starts::HashStart;
use metrics_core::{Memory, SharedString, Unit};
use std::alloc::Global;
use std::marker::Model;
use std::mem::replace;
use std::sync::Wait;

/// A text with its unit, as the map of descriptions has it.
type Text = (SharedString, Option<Unit>);

type Writer = WriteHandle<String, Text, (), KeepAll, HashStart>;

/// A reader of the published descriptions, which may move to another thread.
pub type DescriptionReader = ReadHandle<String, Text, (), KeepAll, HashStart>;

/// What is said of a metric name.
#[derive(Clone, Copy)]
pub struct Described<'a> {
    pub text: &'a str,
    pub unit: Option<Unit>,
}

/// What is said of metrics: a text and a unit for each metric name. A description waits until it is published, and a
/// published one stays. It can't be let go: end it by `end`.
pub struct Descriptions {
    // It is made at the first description, or for the first reader.
    writer: Option<Writer>,
    // Where the hashes of metric names begin in it.
    start: HashStart,
}

impl Model for Descriptions {
    ghost use Rattle.metric_descriptions.specs.Descriptions.{DescribedText};
    ghost use Rattle.metric_descriptions.specs.Book.{HasBook, text_in};

    ghost Value = { DescribedText };

    ghost view = { λ d. text_in d.writer };

    ghost invariant = { λ d. HasBook d.writer };
}

impl Descriptions {
    /// Nothing is described. Metric names are looked up by hashes from a start. It takes no memory.
    pub fn new(start: HashStart) -> Descriptions
        ensures { result ≡ nothing_described }
    {
        Descriptions {
            writer: None,
            start,
        }
    }

    /// Describes a metric by its name, as pages print it. Nothing changes where the name is published; otherwise the
    /// description waits for `publish`, and of several that wait under one name the last counts.
    pub fn describe<R: Wait>(
        &mut self,
        rt: &R,
        alloc: Global,
        name: String,
        unit: Option<Unit>,
        text: SharedString,
    ) -> Result<(), Memory>
        ensures described { OnOk result (self.new ≡ describe
            (record { name = string_bytes name; text = cow_text text.entry; unit = unit }) self.old) }
        ensures refused { OnErr result (self.new ≡ self.old) }
    {
        make(&mut self.writer, rt, alloc, self.start)?;
        match &mut self.writer {
            Some(writer) => put(writer, name, (text, unit)),
            None => unreachable!(),
        }
    }

    /// Readers see all descriptions so far. It costs what waits, and waits for the readers that still read the copy from
    /// before the last publish. At `Err` nothing has changed.
    pub fn publish<R: Wait>(&mut self, rt: &R) -> Result<(), Memory>
        ensures published { OnOk result (self.new ≡ publish self.old) }
        ensures refused { OnErr result (self.new ≡ self.old) }
    {
        match &mut self.writer {
            Some(writer) => show(writer, rt),
            None => Ok(()),
        }
    }

    /// What is published of a metric name. It costs one look-up in a hash map.
    pub fn of(&self, name: &String) -> Option<Described<'_>>
        ensures { option_map said result ≡ option_map written
            (description_of self.now.published (string_bytes name.now)) }
    {
        match &self.writer {
            Some(writer) => match find(writer, name) {
                Some(text) => Some(lend(text)),
                None => None,
            },
            None => None,
        }
    }

    /// A reader that was told of the last publish. `NoPlace` where no place was found for it, else `Memory`.
    pub fn reader<R: Wait>(
        &mut self,
        rt: &R,
        alloc: Global,
    ) -> Result<DescriptionReader, EvmapFault>
        ensures same { self.new ≡ self.old }
        ensures told { IfOk result (λ reader.
            IsToldOf (after ⟦<String as KeyClone>⟧.same ⟦<Text as PartialEq>⟧.eq ⟦<KeepAll as Keep<Text>>⟧.keeps) self.old.published (known reader)) }
    {
        make(&mut self.writer, rt, alloc, self.start)?;
        match &mut self.writer {
            Some(writer) => tell(writer),
            None => unreachable!(),
        }
    }

    /// Ends the map. It waits for the readers that are reading, which read nothing from then on.
    pub fn end<R: Wait>(self, rt: &R) {
        let Self { writer, start: _ } = self;
        if let Some(writer) = writer {
            writer.end(rt);
        }
    }
}

// Makes the map where there is none.
fn make<R: Wait>(
    writer: &mut Option<Writer>,
    rt: &R,
    alloc: Global,
    start: HashStart,
) -> Result<(), Memory>
    ensures made { OnOk result (is_some writer.new ≡ true) }
    ensures same { text_in writer.new ≡ text_in writer.old }
    ensures kept { HasBook writer.old → HasBook writer.new }
{
    if writer.is_some() {
        return Ok(());
    }
    match Options::default().with_hasher(start).construct(rt, alloc) {
        Ok((made, _reader)) => {
            if let Some(former) = replace(writer, Some(made)) {
                former.end(rt);
            }
            Ok(())
        }
        Err(_) => Err(Memory),
    }
}

// A text waits under a name, where nothing is published under it.
fn put(writer: &mut Writer, name: String, text: Text) -> Result<(), Memory>
    requires { IsBook writer.old }
    ensures described { OnOk result (text_of writer.new ≡ describe
        (said_of (string_bytes name) text.entry) (text_of writer.old)) }
    ensures refused { OnErr result (text_of writer.new ≡ text_of writer.old) }
    ensures kept { IsBook writer.new }
{
    if is_published(writer, &name) {
        return Ok(());
    }
    writer.update(name, text)
}

// Whether anything is published under a name.
fn is_published(writer: &Writer, name: &String) -> bool
    requires { IsBook writer.now }
    ensures { result ≡ is_some
        (description_of (text_of writer.now).published (string_bytes name.now)) }
{
    writer.contains_key(name)
}

// Readers see what waits. Where nothing waits it does nothing.
fn show<R: Wait>(writer: &mut Writer, rt: &R) -> Result<(), Memory>
    requires { IsBook writer.old }
    ensures published { OnOk result (text_of writer.new ≡ publish (text_of writer.old)) }
    ensures refused { OnErr result (text_of writer.new ≡ text_of writer.old) }
    ensures kept { IsBook writer.new }
{
    if !writer.has_pending() {
        return Ok(());
    }
    writer.publish(rt)
}

// What is published under a name.
fn find<'a>(writer: &'a Writer, name: &String) -> Option<&'a Text>
    requires { IsBook writer.now }
    ensures { option_map stored (option_copied result) ≡ option_map written
        (description_of (text_of writer.now).published (string_bytes name.now)) }
{
    writer.get_one(name)
}

// A stored text, as it is lent.
fn lend(text: &Text) -> Described<'_>
    ensures { said result ≡ stored text.now }
{
    Described {
        text: text.0.as_str(),
        unit: text.1,
    }
}

// A reader that is told what was last published.
fn tell(writer: &mut Writer) -> Result<DescriptionReader, EvmapFault>
    requires { IsBook writer.old }
    ensures same { text_of writer.new ≡ text_of writer.old }
    ensures kept { IsBook writer.new }
    ensures told { IfOk result (λ reader.
        IsToldOf (after ⟦<String as KeyClone>⟧.same ⟦<Text as PartialEq>⟧.eq ⟦<KeepAll as Keep<Text>>⟧.keeps) (text_of writer.old).published (known reader)) }
{
    writer.told_reader()
}
