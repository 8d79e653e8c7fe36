//! Texts and lists that are owned, borrowed or shared.

use metrics_core::{CowSlice, CowStr, Memory};
use std::alloc::Global;
use std::borrow;
use std::sync::Arc;
use std::test::Fail;

/// A text that is owned.
fn owned_text(alloc: Global) -> Result<CowStr<'static>, Memory> {
    Ok(CowStr::from_owned(String::from_str(alloc, "hello")?))
}

/// Whether a shared text is copied as a shared one, which is handed out owned.
fn text_is_copied(alloc: Global, shared: &CowStr<'static>) -> Result<bool, Memory> {
    let copy = shared.clone(alloc)?;
    let held = matches!(*shared, CowStr::Shared(_)) && matches!(copy, CowStr::Shared(_));
    let text = copy.into_owned(alloc)?;
    Ok(held && text.as_str() == "hello")
}

/// Whether an owned text is retained as a shared one.
fn text_is_shared(alloc: Global) -> Result<bool, Memory> {
    let owned = owned_text(alloc)?;
    let shared = owned.to_retained(alloc)?;
    let ordered = shared == owned && shared >= CowStr::const_str("hallo");
    Ok(ordered & text_is_copied(alloc, &shared)?)
}

/// Whether std's type holds a borrowed text as such.
fn std_borrows_text(alloc: Global) -> Result<bool, Memory> {
    let lent = CowStr::from("hello").to_std(alloc)?;
    let borrowed = matches!(lent, borrow::CowStr::Borrowed(_));
    Ok(borrowed && matches!(CowStr::from_std(lent), CowStr::Borrowed("hello")))
}

/// A text that is shared.
fn shared_text(alloc: Global) -> Result<CowStr<'static>, Memory> {
    Ok(CowStr::from(Arc::new(alloc, String::from_str(alloc, "hello")?)?))
}

/// Whether std's type holds a shared text owned.
fn std_owns_text(alloc: Global) -> Result<bool, Memory> {
    let held = shared_text(alloc)?.to_std(alloc)?;
    Ok(matches!(held, borrow::CowStr::Owned(_)))
}

/// Whether a text is printed as it is, and as a literal.
fn text_is_printed(alloc: Global) -> Result<bool, Fail> {
    let shared = shared_text(alloc)?;
    let shown = format!(in alloc; "{shared} {shared:?}")?;
    Ok(shown.as_str() == "hello \"hello\"")
}

#[test]
fn texts(rt: HostRuntime) -> Result<(), Fail> {
    assert!(rt; text_is_shared(rt.alloc())?);
    assert!(rt; std_borrows_text(rt.alloc())?);
    assert!(rt; std_owns_text(rt.alloc())?);
    assert!(rt; text_is_printed(rt.alloc())?);
    assert!(rt; CowStr::default().as_str().is_empty());
    Ok(())
}

/// Whether shared items are copied as shared ones, which are handed out owned.
fn items_are_copied(alloc: Global, shared: &CowSlice<'static, u8>) -> Result<bool, Memory> {
    let copy = shared.clone(alloc)?;
    let held = matches!(*shared, CowSlice::Shared(_)) && matches!(copy, CowSlice::Shared(_));
    let items = copy.into_owned(alloc)?;
    Ok(held && items.as_slice() == [1, 2].as_slice())
}

/// Whether owned items are retained as shared ones.
fn items_are_shared(alloc: Global) -> Result<bool, Memory> {
    let owned = CowSlice::from_owned(Vec::from_slice(alloc, &[1u8, 2])?);
    let shared = owned.to_retained(alloc)?;
    let ordered = shared == owned && shared > CowSlice::const_slice(&[1]);
    Ok(ordered & items_are_copied(alloc, &shared)?)
}

/// Whether std's type holds borrowed items as such.
fn std_borrows_items(alloc: Global) -> Result<bool, Memory> {
    let lent = CowSlice::from([1u8, 2].as_slice()).to_std(alloc)?;
    let borrowed = matches!(lent, borrow::CowSlice::Borrowed(_));
    Ok(borrowed && matches!(CowSlice::from_std(lent), CowSlice::Borrowed(_)))
}

/// A list that is shared.
fn shared_items(alloc: Global) -> Result<CowSlice<'static, u8>, Memory> {
    Ok(CowSlice::from(Arc::new(alloc, Vec::from_slice(alloc, &[1u8])?)?))
}

/// Whether std's type holds shared items owned.
fn std_owns_items(alloc: Global) -> Result<bool, Memory> {
    let held = shared_items(alloc)?.to_std(alloc)?;
    Ok(matches!(held, borrow::CowSlice::Owned(_)))
}

/// Whether items are printed as a list.
fn items_are_printed(alloc: Global) -> Result<bool, Fail> {
    let shared = shared_items(alloc)?;
    let shown = format!(in alloc; "{shared:?}")?;
    Ok(shown.as_str() == "[1]")
}

#[test]
fn items(rt: HostRuntime) -> Result<(), Fail> {
    assert!(rt; items_are_shared(rt.alloc())?);
    assert!(rt; std_borrows_items(rt.alloc())?);
    assert!(rt; std_owns_items(rt.alloc())?);
    assert!(rt; items_are_printed(rt.alloc())?);
    assert!(rt; CowSlice::<u8>::default().as_slice().is_empty());
    Ok(())
}
