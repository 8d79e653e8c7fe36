//! A hasher for keys, which hand it the hash that they have.

ghost use Rattle.std.specs.Prelude.{◌≡◌, List, [], ◌∷◌, ◌++◌};

use crate::hashes::{continue_hash, hash_with_seed};
use std::marker::Model;

/// What a hasher was given so far.
#[derive(Clone, Copy, Debug, Drop)]
enum Taken {
    /// Nothing.
    Nothing,
    /// Numbers alone, this one last.
    Number(u64),
    /// Bytes, with this hash so far.
    Bytes(u64),
}

impl Taken {
    ghost use Rattle.metrics_core.specs.KeyHashing.{hashed};

    /// The hash of all that was given, as bytes.
    fn hashed(self) -> u64
        ensures { result ≡ hashed self }
    {
        match self {
            Taken::Nothing => hash_with_seed(0, &[]),
            Taken::Number(number) => hash_with_seed(0, &number.to_le_bytes()),
            Taken::Bytes(hash) => hash,
        }
    }
}

/// A hasher that answers the last number it was given, as it stands, and hashes bytes by FNV-1a. A key hands it the
/// hash that the key has, and so is not hashed again.
#[derive(Debug, Drop)]
pub struct KeyHasher {
    progress: Taken,
}

impl Model for KeyHasher {
    ghost use Rattle.metrics_core.specs.declared.key_hasher.Taken.{Taken};

    ghost Value = { Taken };

    ghost view = { λ hasher. hasher.progress };
}

impl Default for KeyHasher {
    ghost use Rattle.std.specs.Prelude.{[]};
    ghost use Rattle.metrics_core.specs.KeyHashing.{StandsFor};

    ghost is_default = { λ hasher. StandsFor hasher [] };

    fn default() -> KeyHasher {
        KeyHasher {
            progress: Taken::Nothing,
        }
    }
}

impl KeyHasher {
    ghost use Rattle.metrics_core.specs.KeyHashing.{HashCall, OfBytes, OfNumber, StandsFor, answer_of, answer_from};

    /// Takes bytes.
    pub fn write(&mut self, bytes: &[u8])
        ensures { (calls : List HashCall) → StandsFor self.old calls → StandsFor self.new (calls ++ OfBytes bytes.now ∷ []) }
    {
        let start = self.progress.hashed();
        self.progress = Taken::Bytes(continue_hash(start, bytes));
    }

    /// Takes a number.
    pub fn write_u64(&mut self, number: u64)
        ensures { (calls : List HashCall) → StandsFor self.old calls → StandsFor self.new (calls ++ OfNumber number ∷ []) }
    {
        self.progress = match self.progress {
            Taken::Nothing | Taken::Number(_) => Taken::Number(number),
            Taken::Bytes(hash) => Taken::Bytes(continue_hash(hash, &number.to_le_bytes())),
        };
    }

    /// The answer to all that was taken.
    pub fn finish(&self) -> u64
        ensures { (calls : List HashCall) → StandsFor self.now calls → result ≡ answer_of calls }
    {
        match self.progress {
            Taken::Nothing => 0,
            Taken::Number(number) => number,
            Taken::Bytes(hash) => hash,
        }
    }
}
