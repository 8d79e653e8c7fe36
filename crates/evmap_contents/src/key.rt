//! What a key has to be.
ghost use Rattle.std.specs.Prelude.{◌≡◌, Bool, IfOk, IsOk};

use metrics_core::Memory;
use std::alloc::Global;
use std::collections::LinkedList;
use std::hash::Hash;

/// A key that can be copied into the second copy of a map.
pub trait KeyClone: Hash {
    /// What a clause sees of a key. A copy is seen alike.
    type Plain;

    ghost plain: { Self → Self.Plain };

    // whether two keys that are seen so are equal
    ghost same: { Self.Plain → Self.Plain → Bool };

    /// A copy of the key, which is equal to it.
    fn clone_key(&self, alloc: Global) -> Result<Self, Memory>
    where
        Self: Sized,
        ensures { IfOk result (λ copy. plain copy ≡ plain self.now) };

    // `==` is what is seen of it
    ghost agrees: { (a b : Self) → Self.eq a b ≡ same (plain a) (plain b) };
}

impl KeyClone for u32 {
    ghost use Rattle.std.specs.Prelude.{nat_eq, refl};

    type Plain = u32;

    ghost plain = { λ k. k };

    ghost same = { nat_eq };

    // It takes no memory.
    fn clone_key(&self, _alloc: Global) -> Result<u32, Memory>
        ensures copied { IfOk result (λ copy. copy ≡ self.now) }
        ensures no_memory { IsOk result }
    {
        Ok(*self)
    }

    ghost agrees = { λ a b. refl };
}

impl KeyClone for String {
    ghost use Rattle.std.specs.Prelude.{bytes_eq, refl};
    ghost use Rattle.std.specs.String.{string_bytes};

    type Plain = LinkedList<u8>;

    ghost plain = { string_bytes };

    ghost same = { bytes_eq };

    fn clone_key(&self, alloc: Global) -> Result<String, Memory> {
        Ok(String::from_str(alloc, self.as_str())?)
    }

    ghost agrees = { λ a b. refl };
}
