//! Readers in other threads.
use crate::asking::{Factory, Reader, Writer, at_key};
use evmap_core::{EvmapFault, Options};
use std::alloc::Global;
use std::sync::Wait;
use std::test::Fail;
use std::thread::{Threads, join};

/// The one value that a reader finds at key 1.
fn found(r: &mut Reader) -> Option<u32> {
    at_key(r, 1)?.one
}

/// Reads beside the writer until it finds the last number. Answers the reader, and whether the number never fell.
fn read_to_the_last(mut r: Reader) -> (Reader, bool) {
    let mut last = None;
    let mut rising = true;
    for _ in 0..u64::MAX {
        let number = found(&mut r);
        rising = rising && last <= number;
        last = number;
        if last == Some(99) {
            break;
        }
    }
    (r, rising)
}

/// Publishes one number after another. Answers whether none was refused.
fn write_often<R: Wait>(rt: &R, w: &mut Writer) -> bool {
    let mut told = true;
    for number in 0..100u32 {
        told = told && w.update(1, number).is_ok() && w.publish(rt).is_ok();
    }
    told
}

fn beside<R: Wait + Threads + Sync>(rt: &R, w: &mut Writer, r: Reader) -> ((Reader, bool), bool) {
    join(rt, move || read_to_the_last(r), || write_often(rt, w))
}

/// Whether a reader in a second thread, beside the writer, never goes back and ends with the last number.
fn reads_beside<R: Wait + Threads + Sync>(rt: &R, alloc: Global) -> Result<bool, EvmapFault> {
    let (mut w, r): (Writer, Reader) = Options::default().with_meta(1).construct(rt, alloc)?;
    let ((mut r, rising), told) = beside(rt, &mut w, r);
    let last = found(&mut r);
    w.end(rt);
    Ok(rising && told && last == Some(99))
}

#[test]
fn a_reader_beside_a_writer(rt: HostRuntime) -> Result<(), Fail> {
    assert!(rt; reads_beside(&rt, rt.alloc())?);
    Ok(())
}

/// Whether a reader that a factory makes finds 5.
fn finds_five(factory: &Factory) -> bool {
    match factory.handle() {
        Ok(mut r) => found(&mut r) == Some(5),
        Err(_) => false,
    }
}

/// Whether readers that two threads make of one factory find 5.
fn find_five<R: Threads + Sync>(rt: &R, factory: &Factory) -> (bool, bool) {
    join(rt, || finds_five(factory), || finds_five(factory))
}

fn shared<R: Wait + Threads + Sync>(rt: &R, w: &mut Writer, r: &Reader) -> bool {
    let published = w.insert(1, 5).is_ok() && w.publish(rt).is_ok();
    match r.factory() {
        Ok(factory) => published && find_five(rt, &factory) == (true, true),
        Err(_) => false,
    }
}

/// Whether two threads make readers of one factory.
fn shares_a_factory<R: Wait + Threads + Sync>(rt: &R, alloc: Global) -> Result<bool, EvmapFault> {
    let (mut w, r): (Writer, Reader) = Options::default().with_meta(1).construct(rt, alloc)?;
    let held = shared(rt, &mut w, &r);
    w.end(rt);
    Ok(held)
}

#[test]
fn threads_share_a_factory(rt: HostRuntime) -> Result<(), Fail> {
    assert!(rt; shares_a_factory(&rt, rt.alloc())?);
    Ok(())
}
