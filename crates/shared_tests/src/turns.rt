//! A sum that threads add to in turns.

ghost use Rattle.std.specs.Prelude.{◌≡◌};
ghost use Rattle.shared_turns.specs.Passes.{view_of};

use shared_turns::pass::TurnPass;
use shared_turns::rules::{Named, Stands};
use shared_turns::turns::Turns;
use std::sync::Wait;
use std::test::Fail;
use std::thread::join;

/// A sum, of which nothing is said by its history.
#[derive(Drop)]
struct Sum {
    value: u64,
}

impl Stands<()> for Sum {
    ghost use Rattle.std.specs.Prelude.{⊤};

    ghost stands = { λ _ _. ⊤ };

    ghost opens = { λ _. tt };
}

/// The one call of the history: one was added.
struct Adds;

impl Named<()> for Adds {
    ghost call = { tt };
}

/// Adds one, in a turn.
fn add_one<R: Wait>(rt: &R, turns: &Turns<Sum, ()>, pass: &mut TurnPass<Sum, ()>)
    requires { pass.old.seat.table_id ≡ turns.now.table.shared.table_id }
    ensures table { pass.new.seat.table_id ≡ pass.old.seat.table_id }
    ensures number { (view_of pass.new).number ≡ (view_of pass.old).number }
{
    let mut sum = turns.enter(rt, &mut pass.seat);
    sum.value = sum.value.wrapping_add(1);
    turns.count::<Adds>(&mut pass.seat);
    pass.entries = pass.entries.wrapping_add(1);
    turns.leave(&mut pass.seat, sum);
}

/// Adds one so many times.
fn add<R: Wait>(
    rt: &R,
    turns: &Turns<Sum, ()>,
    mut pass: TurnPass<Sum, ()>,
    times: u64,
) -> TurnPass<Sum, ()>
    requires { pass.seat.table_id ≡ turns.now.table.shared.table_id }
    ensures table { result.seat.table_id ≡ pass.seat.table_id }
    ensures number { (view_of result).number ≡ (view_of pass).number }
{
    for _ in 0..times {
        add_one(rt, turns, &mut pass);
    }
    pass
}

#[test]
fn threads_add_in_turns(rt: HostRuntime) -> Result<(), Fail> {
    let Ok((turns, mut root)) = Turns::new(rt.alloc(), Sum { value: 0 }) else {
        return Err(Fail::new("no memory"));
    };
    let first = turns.split(&mut root);
    let second = turns.split(&mut root);
    let (first, second) = join(
        &rt,
        || add(&rt, &turns, first, 20_000),
        || add(&rt, &turns, second, 20_000),
    );
    turns.join(&mut root, first);
    turns.join(&mut root, second);
    assert!(rt; root.calls() == 40_000);
    assert!(rt; turns.end(root).is_some_and(|sum| sum.value == 40_000));
    Ok(())
}
