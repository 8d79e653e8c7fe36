//! Each way to make a map succeeds, and the places of readers are counted.
ghost use Rattle.std.specs.Prelude.{◌<◌};

use evmap_core::{
    EvmapFault, Handles, KeepAll, Options, PlainHasher, ReadHandle, new, new_assert_stable,
    with_hasher,
};
use std::hash::BuildHasherDefault;
use std::sync::Wait;

type Made = Handles<u32, u32, (), KeepAll, PlainHasher>;

type Reader = ReadHandle<u32, u32, (), KeepAll, PlainHasher>;

/// Whether a map was made, and for how many more readers there is room beside its first, counted up to 80.
fn made<R: Wait>(rt: &R, map: Result<Made, EvmapFault>) -> Option<u32> {
    match map {
        Ok((w, r)) => {
            w.end(rt);
            Some(room(&r, 80))
        }
        Err(_) => None,
    }
}

/// For how many more readers there is room, while all those before stay, counted so far.
fn room(r: &Reader, most: u32) -> u32 {
    if most == 0 {
        return 0;
    }
    match r.clone() {
        Ok(next) => room(&next, most - 1).saturating_add(1),
        Err(_) => 0,
    }
}

#[test]
fn each_way_makes_a_map(rt: HostRuntime) {
    let alloc = rt.alloc();
    let plain = made(&rt, new(&rt, alloc));
    let lawful = made(&rt, new_assert_stable(&rt, alloc));
    let stable = made(&rt, Options::default().assert_stable(&rt, alloc));
    let hashing = made(&rt, with_hasher(&rt, alloc, (), BuildHasherDefault::new()));
    assert!(rt; [plain, lawful, stable, hashing] == [Some(63); 4]);
}

/// Options with room for so many readers.
fn with_room(places: u32) -> Options<(), PlainHasher>
    requires { 0 < places }
{
    Options::default().with_capacity(9).with_places(places)
}

#[test]
fn readers_have_as_many_places_as_were_asked_for(rt: HostRuntime) {
    let one = made(&rt, with_room(1).construct(&rt, rt.alloc()));
    let two = made(&rt, with_room(2).construct(&rt, rt.alloc()));
    let many = made(&rt, with_room(65).construct(&rt, rt.alloc()));
    assert!(rt; [one, two, many] == [Some(0), Some(1), Some(64)]);
}
