//! Keys and labels: their hashes (FNV-1a of names), what is printed of them, and the ways to make and to copy them.

use metrics_core::{IntoLabels, Key, KeyHasher, KeyName, Label, Memory, SharedString};
use std::alloc::Global;
use std::collections::BTreeMap;
use std::hash::Hasher;
use std::test::Fail;

/// The key `x` with labels.
fn key_of(alloc: Global, labels: &[(&'static str, &'static str)]) -> Result<Key, Memory> {
    let name = KeyName::from(SharedString::from_borrowed("x"));
    Ok(Key::from_parts(name, labels.into_labels(alloc)?))
}

/// The hash of such a key.
fn hash_of(alloc: Global, labels: &[(&'static str, &'static str)]) -> Result<u64, Memory> {
    Ok(key_of(alloc, labels)?.get_hash())
}

#[test]
fn a_hash_does_not_tell_the_order(rt: HostRuntime) -> Result<(), Fail> {
    let one = hash_of(rt.alloc(), &[("a", "1"), ("a", "2")])?;
    let other = hash_of(rt.alloc(), &[("a", "2"), ("a", "1")])?;
    assert!(rt; one == other);
    Ok(())
}

#[test]
fn hashes_of_names(rt: HostRuntime) {
    let hashes = ["a", "foobar", ""].map(|name| Key::from_static_name(name).get_hash());
    assert!(rt; hashes == [0xaf63dc4c8601ec8c, 0x85944171f73967e8, 0xcbf29ce484222325]);
}

#[test]
fn a_hasher_of_numbers_and_bytes(rt: HostRuntime) {
    let mut numbers = KeyHasher::default();
    let fresh = numbers.finish();
    numbers.write_u64(7);
    let mut bytes = KeyHasher::default();
    bytes.write(b"a");
    assert!(rt; [fresh, numbers.finish(), bytes.finish()] == [0, 7, 0xaf63dc4c8601ec8c]);
}

/// Whether a key is printed so.
fn prints(alloc: Global, key: &Key, text: &str) -> Result<bool, Fail> {
    Ok(format!(in alloc; "{key}")?.as_str() == text)
}

/// Whether the key `x` with labels is printed so. Here alone such a key is dropped.
fn is_shown(
    alloc: Global,
    labels: &[(&'static str, &'static str)],
    text: &str,
) -> Result<bool, Fail> {
    let key = key_of(alloc, labels)?;
    prints(alloc, &key, text)
}

#[test]
fn a_key_is_shown(rt: HostRuntime) -> Result<(), Fail> {
    let labels = [("a", "1"), ("b", "2")];
    assert!(rt; is_shown(rt.alloc(), &labels, "Key(x, [a = 1, b = 2])")?);
    assert!(rt; is_shown(rt.alloc(), &[], "Key(x)")?);
    Ok(())
}

/// The key of no name with one empty label, retained.
fn empty_label(alloc: Global) -> Result<Key, Memory> {
    let labels = [("", "")].as_slice().into_labels(alloc)?;
    let key = Key::from_static_name("").with_extra_labels(alloc, labels)?;
    key.to_retained(alloc)
}

/// The hash of that key.
fn hash_of_empty_label(alloc: Global) -> Result<u64, Memory> {
    Ok(empty_label(alloc)?.get_hash())
}

/// How many labels that key has.
fn labels_of_empty_label(alloc: Global) -> Result<usize, Memory> {
    let (_name, labels) = empty_label(alloc)?.into_parts(alloc)?;
    Ok(labels.len())
}

#[test]
fn a_key_is_taken_apart(rt: HostRuntime) -> Result<(), Fail> {
    assert!(rt; hash_of_empty_label(rt.alloc())? == 0xcbf29ce484222328);
    assert!(rt; labels_of_empty_label(rt.alloc())? == 1);
    Ok(())
}

const PAIRS: [(&str, &str); 2] = [("b", "2"), ("a", "1")];

const PRINTED: &str = "[Label { key: \"b\", value: \"2\" }, Label { key: \"a\", value: \"1\" }]";

const ASCENDING: &str = "[Label { key: \"a\", value: \"1\" }, Label { key: \"b\", value: \"2\" }]";

/// Whether the labels that something is made into are printed so.
fn are_shown(alloc: Global, labels: impl IntoLabels, text: &str) -> Result<bool, Fail> {
    let labels = labels.into_labels(alloc)?;
    Ok(format!(in alloc; "{labels:?}")?.as_str() == text)
}

/// Whether labels given one by one stay as they are.
fn labels_of_labels(alloc: Global) -> Result<bool, Fail> {
    let labels = PAIRS.as_slice().into_labels(alloc)?;
    are_shown(alloc, labels.iter(), PRINTED)
}

/// The pairs as a map, whose keys ascend.
fn map_of_pairs(alloc: Global) -> Result<BTreeMap<&'static str, &'static str>, Memory> {
    let mut entries = BTreeMap::new(alloc);
    for (key, value) in &PAIRS {
        entries.insert(*key, *value)?;
    }
    Ok(entries)
}

/// Whether the labels of a map ascend.
fn labels_of_map(alloc: Global) -> Result<bool, Fail> {
    let entries = map_of_pairs(alloc)?;
    are_shown(alloc, &entries, ASCENDING)
}

/// Whether labels given as a list stay as they are.
fn labels_of_list(alloc: Global) -> Result<bool, Fail> {
    are_shown(alloc, PAIRS.as_slice().into_labels(alloc)?, PRINTED)
}

#[test]
fn labels_are_made_of_pairs_labels_and_maps(rt: HostRuntime) -> Result<(), Fail> {
    let alloc = rt.alloc();
    assert!(rt; are_shown(alloc, PAIRS.as_slice(), PRINTED)?);
    assert!(rt; labels_of_list(alloc)?);
    assert!(rt; labels_of_labels(alloc)?);
    assert!(rt; labels_of_map(alloc)?);
    Ok(())
}
