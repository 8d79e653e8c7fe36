//! What a flush notes for the next one: which counters are idle.

ghost use Rattle.std.specs.Prelude.{◌≡◌, ◌<◌, [], vec_len, vec_capacity, OnOk};
ghost use Rattle.dsd_exporter.specs.State.{idle_at};
ghost use Rattle.dsd_exporter.specs.Flushing.{with_mark};

use metrics_core::Memory;
use std::alloc::Global;
use std::marker::Model;

/// Which counters are idle: a counter without updates is sent once, and then not again until it has some. A contract sees the
/// marks of the counters, in order of registration.
#[derive(Drop)]
pub struct FlushState {
    pub(crate) idle: Vec<bool>,
}

impl Model for FlushState {
    ghost use Rattle.std.specs.Prelude.{List, Bool};

    ghost Value = { List Bool };

    ghost view = { λ state. state.idle.items };
}

impl FlushState {
    /// No counter is idle. It takes no memory.
    pub fn new(alloc: Global) -> FlushState
        ensures { result ≡ [] }
    {
        FlushState {
            idle: Vec::new(alloc),
        }
    }
}

/// Makes room for one more mark.
pub(crate) fn reserve_mark(marks: &mut Vec<bool>) -> Result<(), Memory>
    ensures same { marks.new.items ≡ marks.old.items }
    ensures room { OnOk result (vec_len marks.new < vec_capacity marks.new) }
{
    marks.reserve(1)?;
    Ok(())
}

/// Whether the counter at a place is marked as idle.
pub(crate) fn has_mark(marks: &[bool], place: usize) -> bool
    ensures { result ≡ idle_at marks.now place }
{
    match marks.get(place) {
        Some(mark) => *mark,
        None => false,
    }
}

/// Whether the counter at a place was marked as idle; it has this mark then. There is room for one more.
pub(crate) fn replace_mark(marks: &mut Vec<bool>, place: usize, mark: bool) -> bool
    requires { vec_len marks.old < vec_capacity marks.old }
    ensures was { result ≡ idle_at marks.old.items place }
    ensures marked { marks.new.items ≡ with_mark place mark marks.old.items }
{
    if place < marks.len() {
        let was = marks[place];
        marks[place] = mark;
        was
    } else {
        let _ = marks.push(mark);
        false
    }
}
