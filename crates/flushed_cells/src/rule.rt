//! How passes of a cell that is flushed are lent, given back and moved.

use atomic_table::{Join, Split};
use crossbeam_utils::rule::Outcome;
use legal_history::history::View;

/// A pass is lent, or given back.
pub struct Loan;

impl<C> Split<View<C>> for Loan {
    ghost use Rattle.legal_history.specs.History.{lender, child};

    ghost left = { lender };

    ghost right = { child };
}

impl<C> Join<View<C>> for Loan {
    ghost use Rattle.legal_history.specs.History.{taker, nobody};

    ghost both = { taker };

    ghost spent = { nobody };
}

/// A pass goes to a new seat.
pub struct Moves;

impl<C> Split<View<C>> for Moves {
    ghost use Rattle.legal_history.specs.History.{nobody};

    ghost left = { λ _. nobody };

    ghost right = { λ v. v };
}

/// A look that changes nothing.
pub struct Peeks;

impl<S, C> Outcome<S, View<C>> for Peeks {
    ghost use Rattle.std.specs.Prelude.{◌≡◌};

    ghost then = { λ v x y w. w ≡ v };
}
