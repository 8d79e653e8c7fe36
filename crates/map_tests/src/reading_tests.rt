//! Published writes as readers find them. Readers find nothing before the first publish and after the writer's end.
use crate::asking::{Reader, Writer, at_key, beside_key, guard_shows_five, meta_alone, one_at_key};
use evmap_core::{EvmapFault, KeepAll, Options, Values, marked_keys_go};
use metrics_core::Memory;
use rand::rngs::SmallRng;
use rand_core::SeedableRng;
use std::alloc::Global;
use std::sync::Wait;
use std::test::Fail;

/// What is looked at.
#[derive(Clone, Copy)]
enum Look {
    EqualValues,
    FirstMeta,
    RemovedKey,
    Forms,
    Entries,
    Guards,
    EachWrite,
    MarkedKeys,
    ToldReader,
}

/// Whether it holds of a new map whose meta is 1. Here alone such a map is made and ended.
fn holds<R: Wait>(rt: &R, alloc: Global, look: Look) -> Result<bool, EvmapFault> {
    let (mut w, mut r): (Writer, Reader) = Options::default().with_meta(1).construct(rt, alloc)?;
    let early = finds_nothing(&mut r) && !r.was_dropped();
    let held = look_at(rt, alloc, &mut w, &mut r, look);
    w.end(rt);
    let late = finds_nothing(&mut r) && r.was_dropped();
    Ok(early && held == Ok(true) && late)
}

fn look_at<R: Wait>(
    rt: &R,
    alloc: Global,
    w: &mut Writer,
    r: &mut Reader,
    look: Look,
) -> Result<bool, Memory> {
    match look {
        Look::EqualValues => equal_values(rt, alloc, w, r),
        Look::FirstMeta => the_first_meta(rt, w, r),
        Look::RemovedKey => a_removed_key(rt, alloc, w, r),
        Look::Forms => forms(rt, w, r),
        Look::Entries => entries(rt, w, r),
        Look::Guards => guards(rt, w, r),
        Look::EachWrite => each_write(rt, w, r),
        Look::MarkedKeys => marked_keys(rt, alloc, w),
        Look::ToldReader => a_told_reader(rt, w),
    }
}

/// Whether a reader finds nothing, whatever it is asked.
fn finds_nothing(r: &mut Reader) -> bool {
    let no_key = !r.contains_key(&1) && !r.contains_value(&1, &5) && r.len() == 0;
    no_key && r.is_empty() && at_key(r, 1).is_none() && guard_shows_five(r).is_none()
}

/// Whether the bag of key 1 is short, and how many values it has.
fn form(r: &mut Reader) -> Option<(bool, usize)> {
    at_key(r, 1)?.form
}

/// A reader that a clone of a reader's factory makes.
fn others_reader(r: &Reader) -> Result<Reader, EvmapFault> {
    r.factory()?.clone()?.handle()
}

/// One value twice, and then a cleared bag, as a reader of a cloned factory finds them.
fn equal_values<R: Wait>(
    rt: &R,
    alloc: Global,
    w: &mut Writer,
    r: &mut Reader,
) -> Result<bool, Memory> {
    match others_reader(r) {
        Ok(mut other) => fill_and_clear(rt, alloc, w, &mut other),
        Err(_) => Ok(false),
    }
}

fn fill_and_clear<R: Wait>(
    rt: &R,
    alloc: Global,
    w: &mut Writer,
    r: &mut Reader,
) -> Result<bool, Memory> {
    w.insert(1, 5)?;
    let waits = w.has_pending() && form(r).is_none();
    w.publish(rt)?;
    let one = form(r) == Some((true, 1)) && !w.has_pending();
    w.insert(1, 5)?;
    w.publish(rt)?;
    let two = form(r) == Some((true, 2)) && r.contains_value(&1, &5);
    w.clear(1)?;
    w.publish(rt)?;
    let none = form(r) == Some((true, 0)) && r.len() == 1;
    let there = r.contains_key(&1) && !r.is_empty() && sizes(alloc, r)? == Some(1);
    Ok(waits && one && two && none && there)
}

/// How many answers a function has given at the keys.
fn sizes(alloc: Global, r: &mut Reader) -> Result<Option<usize>, Memory> {
    let sizes = r.map_into(alloc, |_: &u32, bag: &Values<u32>| bag.len())?;
    Ok(sizes.map(|sizes| sizes.len()))
}

/// The meta from before the first publish is kept, also through a second one.
fn the_first_meta<R: Wait>(rt: &R, w: &mut Writer, r: &mut Reader) -> Result<bool, Memory> {
    w.set_meta(7)?;
    w.publish(rt)?;
    w.publish(rt)?;
    let read = meta_alone(r).map(|shown| shown.meta);
    Ok(*w.meta() == 7 && read == Some(7) && !r.was_dropped())
}

/// The last key takes the place of one that is removed.
fn a_removed_key<R: Wait>(
    rt: &R,
    alloc: Global,
    w: &mut Writer,
    r: &mut Reader,
) -> Result<bool, Memory> {
    w.extend(Vec::from_array(alloc, [(1, 5), (2, 5), (3, 6)])?)?;
    w.remove_entry(1)?;
    w.publish(rt)?;
    match r.map_into(alloc, |key: &u32, _: &Values<u32>| *key)? {
        Some(keys) => Ok(keys.as_slice() == [3, 2].as_slice()),
        None => Ok(false),
    }
}

/// A published bag is short with 31 values, long with 32, and short again when all are gone.
fn forms<R: Wait>(rt: &R, w: &mut Writer, r: &mut Reader) -> Result<bool, Memory> {
    for value in 0..31 {
        w.insert(1, value)?;
    }
    w.publish(rt)?;
    let few = form(r) == Some((true, 31));
    w.insert(1, 31)?;
    w.publish(rt)?;
    let many = form(r) == Some((false, 32));
    for value in 0..32 {
        w.remove_value(1, value)?;
    }
    w.fit(1)?;
    w.publish(rt)?;
    Ok(few && many && form(r) == Some((true, 0)))
}

/// Entries show a bag and the meta.
fn entries<R: Wait>(rt: &R, w: &mut Writer, r: &mut Reader) -> Result<bool, Memory> {
    w.insert(1, 5)?;
    w.clear(2)?;
    w.publish(rt)?;
    let found = form(r) == Some((true, 1)) && one_at_key(r, 1).is_some();
    let absent = beside_key(r, 3).map(|shown| (shown.form, shown.meta));
    Ok(found && one_at_key(r, 2).is_none() && absent == Some((None, 1)))
}

/// A guard shows its front in each way.
fn guards<R: Wait>(rt: &R, w: &mut Writer, r: &mut Reader) -> Result<bool, Memory> {
    w.insert(1, 5)?;
    w.publish(rt)?;
    Ok(guard_shows_five(r) == Some(true))
}

/// Each write succeeds, and is published.
fn each_write<R: Wait>(rt: &R, w: &mut Writer, r: &mut Reader) -> Result<bool, Memory> {
    w.insert(1, 5)?;
    w.update(2, 6)?;
    w.clear(3)?;
    w.remove(1, 5)?;
    w.remove_value(2, 7)?;
    w.retain(2, KeepAll)?;
    w.fit(1)?;
    w.fit_all()?;
    w.reserve(4, 33)?;
    w.empty(3)?;
    w.remove_entry(1)?;
    w.publish(rt)?;
    let left = w.len() == 2 && r.len() == 2 && w.contains_key(&4);
    let one = w.get(&2).map(|bag| bag.len()) == Some(1) && w.get_one(&2) == Some(&6);
    w.purge()?;
    w.publish(rt)?;
    Ok(left && one && w.is_empty() && r.is_empty())
}

/// A removal at random of more keys than there are marks them all, and the next publish removes them.
fn marked_keys<R: Wait>(rt: &R, alloc: Global, w: &mut Writer) -> Result<bool, Memory> {
    let mut rng = SmallRng::seed_from_u64(7);
    let mut keys = Vec::new(alloc);
    for key in 1..4 {
        w.insert(key, 5)?;
    }
    let emptied = w.empty_random(rt, &mut rng, 5)?;
    let amount = emptied.len();
    for (key, _) in emptied {
        keys.push(*key)?;
    }
    let there = w.len();
    w.publish(rt)?;
    marked_keys_go::<u32, u32>();
    Ok(keys.as_slice() == [1, 2, 3].as_slice() && amount == 3 && there == 3 && w.is_empty())
}

/// A reader that was told of the last publish reads it.
fn a_told_reader<R: Wait>(rt: &R, w: &mut Writer) -> Result<bool, Memory> {
    w.insert(1, 5)?;
    w.publish(rt)?;
    match w.told_reader() {
        Ok(mut told) => Ok(told.contains_value(&1, &5)),
        Err(_) => Ok(false),
    }
}

#[test]
fn equal_values_and_a_cleared_bag(rt: HostRuntime) -> Result<(), Fail> {
    assert!(rt; holds(&rt, rt.alloc(), Look::EqualValues)?);
    Ok(())
}

#[test]
fn the_meta_from_before_the_first_publish_is_kept(rt: HostRuntime) -> Result<(), Fail> {
    assert!(rt; holds(&rt, rt.alloc(), Look::FirstMeta)?);
    Ok(())
}

#[test]
fn the_last_key_takes_the_place(rt: HostRuntime) -> Result<(), Fail> {
    assert!(rt; holds(&rt, rt.alloc(), Look::RemovedKey)?);
    Ok(())
}

#[test]
fn a_published_bag_changes_its_form(rt: HostRuntime) -> Result<(), Fail> {
    assert!(rt; holds(&rt, rt.alloc(), Look::Forms)?);
    Ok(())
}

#[test]
fn entries_show_a_bag_and_the_meta(rt: HostRuntime) -> Result<(), Fail> {
    assert!(rt; holds(&rt, rt.alloc(), Look::Entries)?);
    Ok(())
}

#[test]
fn a_guard_shows_its_front(rt: HostRuntime) -> Result<(), Fail> {
    assert!(rt; holds(&rt, rt.alloc(), Look::Guards)?);
    Ok(())
}

#[test]
fn each_write_is_published(rt: HostRuntime) -> Result<(), Fail> {
    assert!(rt; holds(&rt, rt.alloc(), Look::EachWrite)?);
    Ok(())
}

#[test]
fn marked_keys_go_at_the_next_publish(rt: HostRuntime) -> Result<(), Fail> {
    assert!(rt; holds(&rt, rt.alloc(), Look::MarkedKeys)?);
    Ok(())
}

#[test]
fn a_told_reader_reads_the_last_publish(rt: HostRuntime) -> Result<(), Fail> {
    assert!(rt; holds(&rt, rt.alloc(), Look::ToldReader)?);
    Ok(())
}
