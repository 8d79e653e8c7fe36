//! Laws of bags, each the contract of a function that does nothing.
ghost use Rattle.std.specs.Prelude.{◌≡◌, ℕ, ◌+◌, ◌-◌, if◌then◌else◌, count_by};
ghost use Rattle.value_bags.specs.Bags as bags;

use crate::{Keep, Values};
use std::hash::Hash;

/// How often each value is in a bag after each call, whichever form holds it: a push adds one of the values that are equal
/// to the pushed one, a removal takes one away where there is one, and fitting and reserving change nothing.
pub fn counts_of_values<V: Eq + Hash, P: Keep<V>>(bag: &Values<V>, test: &P)
    ensures listed { (w : V) → count_by (V.eq w)
        (bags.values_of bag.now) ≡ bags.times V.eq bag.now w }
    ensures pushed { (v w : V) → bags.times V.eq
        (bags.pushed V.eq bag.now v) w ≡ bags.times V.eq bag.now w + (if V.eq w v then 1 else 0) }
    ensures removed { (v w : V) → bags.times V.eq
        (bags.removed V.eq bag.now v) w ≡ bags.times V.eq bag.now w - (if V.eq w v then 1 else 0) }
    ensures cleared { (w : V) → bags.times V.eq (bags.cleared bag.now) w ≡ 0 }
    ensures retained { (w : V) → bags.times V.eq (bags.retained (P.keeps test.now) bag.now) w ≡
        (if P.keeps test.now w then bags.times V.eq bag.now w else 0) }
    ensures fitted { (w : V) → bags.times V.eq (bags.fitted bag.now) w ≡ bags.times V.eq bag.now w }
    ensures reserved { (n : ℕ) (w : V)
        → bags.times V.eq (bags.reserved V.eq n bag.now) w ≡ bags.times V.eq bag.now w }
{
    // `len` is called for its clause that each value is counted once.
    let _len = bag.len();
    let _test = test;
}
