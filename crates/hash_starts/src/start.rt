//! The start of hashes.

ghost use Rattle.std.specs.Prelude.{◌≡◌, ℕ};
ghost use Rattle.std.specs.Hash.DefaultHasher.{initial, with_keys};

use std::collections::hash_map::RandomState;
use std::hash::{BuildHasher, DefaultHasher};
use std::random::RandomSource;

/// Where the hashes of a map begin: SipHash-1-3, from a state in which a key already stands. What a map holds doesn't depend
/// on it; what a look-up costs does.
#[derive(Clone, Copy, Drop)]
pub struct HashStart {
    hasher: DefaultHasher,
}

impl HashStart {
    /// The start with the key 0, which everybody knows: for maps whose keys are one's own.
    pub fn fixed() -> HashStart
        ensures { result.hasher ≡ initial }
    {
        HashStart {
            hasher: DefaultHasher::new(),
        }
    }

    /// A start with a random key. Where the system gives no random bytes it is the fixed one. A contract sees that it has some key.
    pub fn drawn(rt: &impl RandomSource) -> HashStart
        ensures { (first : ℕ) × (second : ℕ) × (result.hasher ≡ with_keys first second) }
    {
        match RandomState::new(rt) {
            Ok(state) => HashStart {
                hasher: state.build_hasher(),
            },
            Err(_) => HashStart::fixed(),
        }
    }
}

impl BuildHasher for HashStart {
    type Hasher = DefaultHasher;

    ghost build_hasher = { λ start. start.hasher };

    fn build_hasher(&self) -> DefaultHasher {
        self.hasher
    }
}
