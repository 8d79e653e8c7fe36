//! Which values a bag keeps.
ghost use Rattle.std.specs.Prelude.{◌≡◌, Bool, true};

/// A test of values, by which a bag is thinned out. It is a function of the value alone.
pub trait Keep<V: Eq> {
    /// Which values are kept.
    ghost keeps: { Self → V → Bool };

    /// Whether a value is kept.
    fn keep(&self, value: &V) -> bool
        ensures { result ≡ keeps self.now value.now };

    // equal values are kept alike
    ghost alike: { (test : Self) (a b : V) → V.eq a b ≡ true → keeps test a ≡ keeps test b };
}

/// Keeps every value.
#[derive(Clone, Copy)]
pub struct KeepAll;

impl<V: Eq> Keep<V> for KeepAll {
    ghost use Rattle.std.specs.Prelude.{refl};

    ghost keeps = { λ _ _. true };

    fn keep(&self, _value: &V) -> bool {
        true
    }

    ghost alike = { λ _ _ _ _. refl };
}
