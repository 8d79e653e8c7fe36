//! How names, labels and keys are held: a retained one is copied without a new text and without a new list, and a copy is held
//! as its source is. Contracts see the texts alone.
//!
//! No function here has two ways out beside a live name, label or key, since each costs a proof of what is dropped.

use metrics_core::{CowStr, IntoLabels, Key, KeyName, Label, Memory, SharedString};
use std::alloc::Global;
use std::sync::Arc;
use std::test::Fail;

/// Whether a text has several owners.
fn is_shared(text: SharedString) -> bool {
    matches!(text, CowStr::Shared(_))
}

/// Whether there is a name whose text has several owners.
fn is_shared_name(name: Result<KeyName, Memory>) -> bool {
    match name {
        Ok(name) => is_shared(name.into_inner()),
        Err(_) => false,
    }
}

/// Whether a retained name, and so its copy, is shared.
fn retains_name(alloc: Global, name: &KeyName) -> bool {
    match name.to_retained(alloc) {
        Ok(retained) => is_shared_name(retained.clone(alloc)),
        Err(_) => false,
    }
}

/// The name `x` with one owner.
fn owned_name(alloc: Global) -> Result<KeyName, Memory> {
    Ok(KeyName::from(String::from_str(alloc, "x")?))
}

/// Whether a name with one owner is shared only once it is retained.
fn name_is_retained(alloc: Global) -> Result<bool, Memory> {
    let name = owned_name(alloc)?;
    Ok(retains_name(alloc, &name) && !is_shared_name(name.clone(alloc)))
}

/// The text `x`, shared.
fn shared_text(alloc: Global) -> Result<SharedString, Memory> {
    Ok(CowStr::from_shared(Arc::new(alloc, String::from_str(alloc, "x")?)?))
}

/// Whether a copy of a label is shared in both texts.
fn copies_label(alloc: Global, label: &Label) -> bool {
    match label.clone(alloc) {
        Ok(copy) => {
            let (key, value) = copy.into_parts();
            is_shared(key) & is_shared(value)
        }
        Err(_) => false,
    }
}

/// Whether a copy of a label of shared texts is shared.
fn label_is_copied(alloc: Global) -> Result<bool, Memory> {
    let key = shared_text(alloc)?;
    let label = Label::new(key, shared_text(alloc)?);
    Ok(copies_label(alloc, &label))
}

/// Whether the name of a copy of a key is shared.
fn copies_name(alloc: Global, key: &Key) -> bool {
    match key.clone(alloc) {
        Ok(copy) => is_shared_name(copy.name_shared(alloc)),
        Err(_) => false,
    }
}

/// Whether the name of a retained key is shared, and so is that of its copy.
fn retains_name_of(alloc: Global, key: &Key) -> bool {
    match key.to_retained(alloc) {
        Ok(retained) => copies_name(alloc, &retained),
        Err(_) => false,
    }
}

/// Whether a key whose name has one owner has a shared one once it is retained.
fn key_is_retained(alloc: Global) -> Result<bool, Memory> {
    let key = Key::from_name(owned_name(alloc)?);
    Ok(retains_name_of(alloc, &key))
}

/// The key `x` with a list of labels.
fn key_with(labels: Arc<Vec<Label>>) -> Key {
    Key::from_shared_labels(KeyName::from_const_str("x"), labels)
}

/// A copy of the key with a list of labels.
fn copied(alloc: Global, labels: Arc<Vec<Label>>) -> Result<Key, Memory> {
    key_with(labels).clone(alloc)
}

/// The key with a list of labels, retained.
fn retained(alloc: Global, labels: Arc<Vec<Label>>) -> Result<Key, Memory> {
    key_with(labels).to_retained(alloc)
}

/// Whether there is a key that has the list of labels too.
fn has_list(key: Result<Key, Memory>, labels: Arc<Vec<Label>>) -> bool {
    let alone = Arc::try_unwrap(labels).is_ok();
    key.is_ok() && !alone
}

/// The list of one label.
fn list(alloc: Global) -> Result<Arc<Vec<Label>>, Memory> {
    let labels = [("a", "1")].as_slice().into_labels(alloc)?;
    Ok(Arc::new(alloc, labels)?)
}

/// Whether a copy of a key has the list of the key.
fn list_is_copied(alloc: Global) -> Result<bool, Memory> {
    let labels = list(alloc)?;
    let same = labels.clone()?;
    Ok(has_list(copied(alloc, same), labels))
}

/// Whether a retained key has the list of the key.
fn list_is_retained(alloc: Global) -> Result<bool, Memory> {
    let labels = list(alloc)?;
    let same = labels.clone()?;
    Ok(has_list(retained(alloc, same), labels))
}

#[test]
fn copies_are_held_as_their_sources_are(rt: HostRuntime) -> Result<(), Fail> {
    let alloc = rt.alloc();
    let retained = name_is_retained(alloc)? && key_is_retained(alloc)?;
    assert!(rt; retained && label_is_copied(alloc)?);
    assert!(rt; list_is_copied(alloc)? && list_is_retained(alloc)?);
    Ok(())
}
