//! A caller's token for a counter or a gauge.
ghost use Rattle.std.specs.Prelude.{◌≡◌, ◌==◌, ◌<◌, true, false, []};

use crate::views::CellView;
use atomic_table::Seat;

/// A pass of one counter or one gauge. It knows what its holder has seen of the cell, and which calls its holder made.
#[derive(Drop)]
pub struct CellPass {
    pub(crate) seat: Seat<(), CellView>,
    pub(crate) root: bool,
    ghost live: { seat.me.0.history.live ≡ true },
    ghost counted: { seat.me.0.waits ≡ false },
    ghost empty: { seat.me.1 ≡ [] },
    ghost made: { 0 < seat.me.0.history.made },
    ghost root_is: { root ≡ (seat.me.0.history.number == 0) },
}

impl CellPass {
    ghost use Rattle.series_cells.specs.Pass.{view_of};

    /// Whether this is the cell's root pass, the one that `new` gave.
    pub fn is_root(&self) -> bool
        ensures { result ≡ ((view_of self.now).number == 0) }
    {
        self.root
    }
}
