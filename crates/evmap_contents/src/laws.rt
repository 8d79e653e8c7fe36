//! Laws of the fold of writes, each the contract of a function that does nothing.
ghost use Rattle.std.specs.Prelude.{List};
ghost use Rattle.evmap_contents.specs.declared.write.Write.{Write};
ghost use Rattle.evmap_contents.specs.Fold.{after_all, made_with};
ghost use Rattle.evmap_contents.specs.PlainFold.{plain_after_all, HoldAlike};

use crate::KeyClone;
use std::hash::Hash;
use value_bags::Keep;

/// After any list of writes the keys and how often each has a value are those of plain lists of values, which have no form.
pub fn forms_change_no_value<K: KeyClone, V: Eq + Hash, M, P: Keep<V>>()
    ensures { (m : M) (writes : List (Write K.Plain V M P))
        → HoldAlike V.eq (after_all K.same V.eq P.keeps (made_with m) writes).entries
        (plain_after_all K.same V.eq P.keeps writes) }
{}
