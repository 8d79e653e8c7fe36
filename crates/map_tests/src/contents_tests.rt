//! What a few writes leave of one copy; and each write succeeds.
use evmap_contents::{Inner, KeyClone, Write, forms_change_no_value};
use std::alloc::{AllocError, Global};
use std::collections::LinkedList;
use std::hash::{BuildHasherDefault, FoldHasher};
use std::sync::Arc;
use std::test::Fail;
use value_bags::KeepAll;

type Stored = Write<u32, Arc<u32>, Arc<u32>, KeepAll>;

type Copy = Inner<u32, u32, u32, BuildHasherDefault<FoldHasher>>;

/// Whether keys 1, 2 and 3 stand as 3 and 2 once key 1 is removed.
fn moves_the_last(alloc: Global, copy: &mut Copy) -> Result<bool, AllocError> {
    for key in 1..4 {
        copy.write(&Stored::Insert(key, Arc::new(alloc, 7)?))?;
    }
    copy.write(&Stored::RemoveEntry(1))?;
    let first = copy.map.get_index(0).map(|entry| *entry.0);
    let second = copy.map.get_index(1).map(|entry| *entry.0);
    Ok(copy.len() == 2 && first == Some(3) && second == Some(2))
}

/// Makes each write that takes more than its key.
fn write_values(alloc: Global, copy: &mut Copy) -> Result<(), AllocError> {
    copy.write(&Stored::Insert(1, Arc::new(alloc, 7)?))?;
    copy.write(&Stored::RemoveValue(1, Arc::new(alloc, 7)?))?;
    copy.write(&Stored::Update(2, Arc::new(alloc, 8)?))?;
    copy.write(&Stored::Retain(2, KeepAll))?;
    copy.write(&Stored::Reserve(3, 33))?;
    copy.write(&Stored::SetMeta(Arc::new(alloc, 5)?))
}

/// Makes each of the others, and a removal at the first place.
fn write_others(alloc: Global, copy: &mut Copy) -> Result<(), AllocError> {
    let mut places = LinkedList::new(alloc);
    places.push_back(0)?;
    copy.write(&Stored::RemovePlaces(places))?;
    copy.write(&Stored::Fit(3))?;
    copy.write(&Stored::FitAll)?;
    copy.write(&Stored::Clear(4))?;
    copy.write(&Stored::Ready)
}

/// Whether each write succeeds, and leaves three keys and then none.
fn makes_each(alloc: Global, copy: &mut Copy) -> Result<bool, AllocError> {
    copy.write(&Stored::Purge)?;
    write_values(alloc, copy)?;
    write_others(alloc, copy)?;
    let bag = copy.get(&2).map(|bag| bag.len());
    let there = copy.len() == 3 && !copy.contains_key(&1) && bag == Some(1);
    let shown = *copy.meta() == 5 && copy.ready;
    copy.write(&Stored::Purge)?;
    Ok(there && shown && copy.is_empty())
}

#[test]
fn writes_leave_their_keys(rt: HostRuntime) -> Result<(), Fail> {
    let alloc = rt.alloc();
    let mut copy: Copy = Inner::new(alloc, Arc::new(alloc, 0)?, BuildHasherDefault::new());
    let moved = moves_the_last(alloc, &mut copy);
    let made = makes_each(alloc, &mut copy);
    forms_change_no_value::<u32, u32, u32, KeepAll>();
    assert!(rt; matches!((moved, made), (Ok(true), Ok(true))));
    Ok(())
}

#[test]
fn keys_are_copied(rt: HostRuntime) -> Result<(), Fail> {
    let name = String::from_str(rt.alloc(), "name")?;
    let copied = name.clone_key(rt.alloc())?;
    assert!(rt; copied == name);
    Ok(())
}
