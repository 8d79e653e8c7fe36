//! What one thread is to do, and how counters are named and counted.

use metrics_core::{Key, KeyName, Label, Memory, SharedString};
use std::alloc::Global;

/// What a thread is to do.
#[derive(Clone, Copy, Debug)]
pub enum Task {
    /// To register so many counters, from this number on.
    Register(u64, u64),
    /// To render so many pages.
    Render(u64),
}

/// The key of the counter with this number.
pub fn counter_key(alloc: Global, number: u64) -> Result<Key, Memory> {
    let number = format!(in alloc; "{number}")?;
    let label = Label::new(
        SharedString::const_str("number"),
        SharedString::from_owned(number),
    );
    let mut labels = Vec::with_capacity(alloc, 1)?;
    labels.push_reserved(label);
    Ok(Key::from_parts(KeyName::from_const_str("counted"), labels))
}

/// The task of the thread with this number: the first renders, and the others register.
pub fn task_of(thread: u64, before: u64, each: u64, pages: u64) -> Task {
    match thread {
        0 => Task::Render(pages),
        _ => Task::Register(before.wrapping_add((thread - 1).wrapping_mul(each)), each),
    }
}

/// How many counters a page shows.
pub fn counters_on(page: &str) -> usize {
    page.lines()
        .filter(|line| line.starts_with("counted{"))
        .count()
}
