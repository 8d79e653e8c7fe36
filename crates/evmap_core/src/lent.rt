//! What is lent to a guard, or to what a call gives.

/// What can be lent so. It names its type for the clauses that say what it is once a loan is over.
pub trait Lent {
    ghost use Rattle.std.specs.Borrow.{RattleType};

    ghost row_of: { RattleType };
}
