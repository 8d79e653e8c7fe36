//! What a caller of a cell that is flushed has.

ghost use Rattle.std.specs.Prelude.{◌≡◌, ◌==◌, ◌<◌, true};

use crossbeam_utils::atomic::seq_cell::Pass;
use legal_history::history::View;

/// A caller's token of a cell that holds an `S`, whose calls are `C`. It knows what its holder has seen of the cell, and
/// the calls that its holder made.
#[derive(Drop)]
pub struct DsdPass<S, C> {
    pub(crate) seat: Pass<S, View<C>>,
    pub(crate) root: bool,
    ghost live: { seat.me.0.client.live ≡ true },
    ghost made: { 0 < seat.me.0.client.made },
    ghost root_is: { root ≡ (seat.me.0.client.number == 0) },
}

impl<S, C> DsdPass<S, C> {
    ghost use Rattle.flushed_cells.specs.Passes.{view_of};

    /// Whether `new` gave this pass.
    pub fn is_root(&self) -> bool
        ensures { result ≡ ((view_of self.now).number == 0) }
    {
        self.root
    }
}
