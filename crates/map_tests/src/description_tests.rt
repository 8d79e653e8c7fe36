//! What is published of a metric name is found, also by a reader in another thread.
use evmap_core::EvmapFault;
use hash_starts::HashStart;
use metric_descriptions::{DescriptionReader, Descriptions};
use metrics_core::{Memory, SharedString, Unit};
use std::alloc::Global;
use std::sync::Wait;
use std::test::Fail;
use std::thread::{Threads, join};

fn name(alloc: Global) -> Result<String, Memory> {
    Ok(String::from_str(alloc, "requests")?)
}

fn describe<R: Wait>(
    rt: &R,
    alloc: Global,
    descriptions: &mut Descriptions,
    text: &'static str,
) -> Result<(), Memory> {
    let text = SharedString::const_str(text);
    descriptions.describe(rt, alloc, name(alloc)?, Some(Unit::Count), text)
}

/// Whether this is what is published.
fn says(descriptions: &Descriptions, name: &String, text: &str) -> bool {
    match descriptions.of(name) {
        Some(said) => said.text == text && said.unit == Some(Unit::Count),
        None => false,
    }
}

/// Whether what waits is not found, of two descriptions that wait the last counts, and a published one stays.
fn last_counts<R: Wait>(
    rt: &R,
    alloc: Global,
    descriptions: &mut Descriptions,
) -> Result<bool, Memory> {
    let name = name(alloc)?;
    describe(rt, alloc, descriptions, "one")?;
    describe(rt, alloc, descriptions, "two")?;
    let waits = descriptions.of(&name).is_none();
    descriptions.publish(rt)?;
    describe(rt, alloc, descriptions, "three")?;
    descriptions.publish(rt)?;
    Ok(waits && says(descriptions, &name, "two"))
}

/// Whether a reader finds the name.
fn finds(mut reader: DescriptionReader, name: &String) -> bool {
    reader.contains_key(name)
}

/// Whether a reader in another thread finds the name, while this thread reads nothing.
fn found_beside<R: Threads + Sync>(rt: &R, reader: DescriptionReader, name: &String) -> bool {
    let (found, ()) = join(rt, move || finds(reader, name), || ());
    found
}

fn read_beside<R: Wait + Threads + Sync>(
    rt: &R,
    alloc: Global,
    descriptions: &mut Descriptions,
) -> Result<bool, EvmapFault> {
    let name = name(alloc)?;
    let reader = descriptions.reader(rt, alloc)?;
    Ok(found_beside(rt, reader, &name))
}

/// Whether all of it holds. Here alone descriptions are made and ended.
fn holds<R: Wait + Threads + Sync>(rt: &R, alloc: Global) -> Result<bool, EvmapFault> {
    let mut descriptions = Descriptions::new(HashStart::fixed());
    let last = last_counts(rt, alloc, &mut descriptions);
    let read = read_beside(rt, alloc, &mut descriptions);
    descriptions.end(rt);
    Ok(last? && read?)
}

#[test]
fn the_last_description_counts_and_readers_find_it(rt: HostRuntime) -> Result<(), Fail> {
    assert!(rt; holds(&rt, rt.alloc())?);
    Ok(())
}
