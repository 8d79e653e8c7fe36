//! A call for each element of a slice, all but the last in a new thread.

ghost use Rattle.std.specs.Prelude.{◌≡◌, ◌+◌, ◌<◌, ◌^◌, length};
ghost use denote.Param.Send.{IsSync, IsSend};
ghost use Rattle.std.specs.Fork.{AcceptsAt, ChangesAt, AcceptsEach, ChangesEach};
ghost use Rattle.side_by_side.specs.Places.{EachFrom, EachChangeFrom};

use std::thread::{Threads, join_mut};

/// Calls `f(place, &mut items[place])` at each place, the last in this thread and each other in a new one, or in this one where none
/// can be made. This thread starts all the others, one after another: a new thread that itself starts the next is often given the
/// processor that it stands on, and the next then waits for it while another processor idles.
pub fn for_each_beside<R: Threads + Sync, T: Send, F: Fn(usize, &mut T) + Sync>(
    rt: &R,
    items: &mut [T],
    f: &F,
)
    requires accepts { AcceptsEach F.Fn f.now items.old }
    ensures { ChangesEach F.Fn f.now items.old items.new }
{
    call_from(rt, f, 0, items);
}

/// Calls `f` at each element, of which the first stands at this place.
#[cycle(chain)]
fn call_from<R: Threads + Sync, T: Send, F: Fn(usize, &mut T) + Sync>(
    rt: &R,
    f: &F,
    place: usize,
    items: &mut [T],
)
    requires room { place + length items.old < 2 ^ 64 }
    requires accepts { EachFrom (AcceptsAt F.Fn f.now) place items.old }
    ensures { EachChangeFrom (ChangesAt F.Fn f.now) place items.old items.new }
{
    if items.len() < 2 {
        call_few(rt, f, place, items);
        return;
    }
    let (first, others) = items.split_at_mut(1);
    call_both(rt, f, place, first, place + 1, others);
}

/// Calls `f` at the first element, in a new thread, and at the others. Apart from `call_from`, so that what the closures require is
/// what this function is given.
#[cycle(chain)]
fn call_both<R: Threads + Sync, T: Send, F: Fn(usize, &mut T) + Sync>(
    rt: &R,
    f: &F,
    place: usize,
    first: &mut [T],
    next: usize,
    others: &mut [T],
)
    requires few { length first.old < 2 }
    requires first { EachFrom (AcceptsAt F.Fn f.now) place first.old }
    requires room { next + length others.old < 2 ^ 64 }
    requires others { EachFrom (AcceptsAt F.Fn f.now) next others.old }
    ensures first { EachChangeFrom (ChangesAt F.Fn f.now) place first.old first.new }
    ensures others { EachChangeFrom (ChangesAt F.Fn f.now) next others.old others.new }
{
    let mut one = ||
        requires { IsSync R.row × IsSync F.row × IsSend T.row × (length first.now < 2)
            × EachFrom (AcceptsAt F.Fn f.now) place first.now }
        ensures { EachChangeFrom (ChangesAt F.Fn f.entry.now) place first.entry.now first.exit.now }
    { call_few(rt, f, place, first) };
    let mut rest = ||
        requires { IsSync R.row × IsSync F.row × IsSend T.row × (next + length others.now < 2 ^ 64)
            × EachFrom (AcceptsAt F.Fn f.now) next others.now }
        ensures { EachChangeFrom (ChangesAt F.Fn f.entry.now) next others.entry.now others.exit.now }
    { call_from(rt, f, next, others) };
    join_mut(rt, &mut one, &mut rest);
}

/// Calls `f` at the one element that there may be. It borrows the runtime since the borrow checker doesn't cover two closures side by
/// side of which only one does.
fn call_few<R, T, F: Fn(usize, &mut T)>(_rt: &R, f: &F, place: usize, items: &mut [T])
    requires few { length items.old < 2 }
    requires accepts { EachFrom (AcceptsAt F.Fn f.now) place items.old }
    ensures { EachChangeFrom (ChangesAt F.Fn f.now) place items.old items.new }
{
    if !items.is_empty() {
        call_at(f, place, &mut items[0]);
    }
}

/// Calls `f` at an element.
fn call_at<T, F: Fn(usize, &mut T)>(f: &F, place: usize, item: &mut T)
    requires { AcceptsAt F.Fn f.now place item.old }
    ensures { ChangesAt F.Fn f.now place item.old item.new }
{
    f(place, item);
}
