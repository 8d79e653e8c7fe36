//! When a bag is short and when it is long; and its calls succeed.
use std::alloc::{AllocError, Global};
use std::sync::Arc;
use std::test::Fail;
use value_bags::{KeepAll, Values, counts_of_values};

/// Adds the values from 0 on to a bag, so many of them.
fn fill(alloc: Global, bag: &mut Values<u32>, count: u32) -> Result<(), AllocError> {
    for number in 0..count {
        bag.push(&Arc::new(alloc, number)?)?;
    }
    Ok(())
}

/// Takes them out again, and gives back the memory.
fn drain(alloc: Global, bag: &mut Values<u32>, count: u32) -> Result<(), AllocError> {
    for number in 0..count {
        bag.remove_one(&Arc::new(alloc, number)?);
    }
    bag.fit()
}

/// Whether a bag is short with 31 values, long with 32, and short again when all are gone.
fn changes_its_form(alloc: Global, bag: &mut Values<u32>) -> Result<bool, AllocError> {
    fill(alloc, bag, 31)?;
    let few = bag.is_short() && bag.len() == 31;
    bag.push(&Arc::new(alloc, 31)?)?;
    let many = !bag.is_short() && bag.len() == 32;
    drain(alloc, bag, 32)?;
    Ok(few && many && bag.is_short() && bag.is_empty())
}

#[test]
fn the_thirty_second_value_makes_a_bag_long(rt: HostRuntime) -> Result<(), Fail> {
    let mut bag = Values::new(rt.alloc());
    let held = changes_its_form(rt.alloc(), &mut bag);
    assert!(rt; held?);
    Ok(())
}

/// Whether a bag of one 7 holds two once another was added, and then none.
fn counts(alloc: Global, bag: &mut Values<u32>) -> Result<bool, AllocError> {
    bag.push(&Arc::new(alloc, 7)?)?;
    bag.reserve(40)?;
    bag.retain(&KeepAll);
    let both = !bag.is_short() && bag.len() == 2 && bag.contains(&7);
    counts_of_values(bag, &KeepAll);
    let mut values = bag.iter();
    let listed = values.len() == 2 && values.next() == Some(&7) && values.len() == 1;
    bag.clear();
    Ok(both && listed && bag.get_one().is_none())
}

#[test]
fn equal_values_are_counted(rt: HostRuntime) -> Result<(), Fail> {
    let value = Arc::new(rt.alloc(), 7)?;
    let mut bag = Values::of(rt.alloc(), &value)?;
    let held = counts(rt.alloc(), &mut bag);
    assert!(rt; held?);
    Ok(())
}

#[test]
fn room_for_thirty_three_makes_a_new_bag_long(rt: HostRuntime) -> Result<(), Fail> {
    let bag: Values<u32> = Values::with_room(rt.alloc(), 33)?;
    assert!(rt; !bag.is_short() && bag.capacity() >= 33);
    Ok(())
}
