//! What a function that is called at a bag is shown of it.
ghost use Rattle.std.specs.Prelude.{◌≡◌};

use std::hash::Hash;
use value_bags::Values;

/// What is shown as a `B`. A bag is shown as itself: a bound `F: FnMut(&Values<V>)` can't be stated, since `Values` itself
/// has bounds.
pub trait ShownAs<B> {
    ghost shows: { Self → B };

    /// What is shown.
    fn shown(&self) -> &B
        ensures { result.now ≡ shows self.now };
}

impl<V: Eq + Hash> ShownAs<Values<V>> for Values<V> {
    ghost shows = { λ bag. bag };

    fn shown(&self) -> &Values<V> {
        self
    }
}
