//! A cell that threads share, as those who keep it and lend it see it.

use metrics_core::Memory;
use std::alloc::Global;
use std::sync::Wait;

/// A cell that threads share. Each caller has a pass of it, the calls of all passes stand in one history, and one pass is the
/// root, which lends the others and takes them back. A kind of cell gives its calls their meaning, and what its owner reads.
pub trait SharedCell: Send + Sync + Drop {
    ghost use Rattle.std.specs.Prelude.{◌≡◌, List, IfOk, OnOk, OnErr};
    ghost use Rattle.legal_history.specs.declared.history.View.{View};
    ghost use Rattle.legal_history.specs.History.{Settled, lender, child, taker};
    ghost use Rattle.cell_lanes.specs.Calls.{Made, Found};

    /// A caller's token.
    type Pass: Send + Drop;

    /// What a caller asks for.
    type Call: Sync + Drop;

    /// A call as it stands in the history, with its answer.
    type Entry;

    /// What the owner of the cell reads.
    type Reading: Send + Drop;

    /// The pass is one of this cell.
    ghost is_pass: { Self → Self.Pass → Type 0 };

    /// There is at most one proof of it.
    ghost is_one_fact: { (cell : Self) (pass : Self.Pass) → IsProp (is_pass cell pass) };

    /// What a pass knows.
    ghost view: { Self.Pass → View Self.Entry };

    /// What a caller asks for may stand in the history as these calls: mostly one, none where the call changes nothing.
    ghost stands_as: { Self.Call → List Self.Entry → Type 0 };

    /// How a reading stands in the history: as no call where it changes nothing.
    ghost read_as: { Self.Reading → List Self.Entry };

    /// A pass that knew the first may read this, and knows the second then.
    ghost reads: { View Self.Entry → Self.Reading → View Self.Entry → Type 0 };

    /// A reading is made behind a history that begins with all that the pass had seen, and stands there as its calls.
    ghost readings_stand: { (v : View Self.Entry) (reading : Self.Reading) (w : View Self.Entry) → reads v reading w → Found (read_as reading) v w };

    /// Makes a call with a pass. A refused call changes nothing.
    fn make<R: Wait>(
        &self,
        rt: &R,
        alloc: Global,
        pass: &mut Self::Pass,
        call: &Self::Call,
    ) -> Result<(), Memory>
        requires { is_pass self.now pass.old }
        ensures pass { is_pass self.now pass.new }
        ensures made { OnOk result (Made (stands_as call.now) (view pass.old) (view pass.new)) }
        ensures refused { OnErr result (view pass.new ≡ view pass.old) };

    /// Reads the cell with its root pass.
    fn read<R: Wait>(&self, rt: &R, pass: &mut Self::Pass) -> Self::Reading
        requires pass { is_pass self.now pass.old }
        requires root { (view pass.old).number ≡ 0 }
        ensures pass { is_pass self.now pass.new }
        ensures read { reads (view pass.old) result (view pass.new) };

    /// Lends a new pass, which has seen what the root pass has seen and has made no call.
    fn split(&self, alloc: Global, pass: &mut Self::Pass) -> Result<Self::Pass, Memory>
        requires pass { is_pass self.now pass.old }
        requires root { (view pass.old).number ≡ 0 }
        ensures pass { is_pass self.now pass.new }
        ensures lent { IfOk result (λ new. is_pass self.now new
            × (view new ≡ child (view pass.old))) }
        ensures root { OnOk result (view pass.new ≡ lender (view pass.old)) }
        ensures refused { OnErr result (view pass.new ≡ view pass.old) };

    /// Takes a pass back. The root has then seen what either had seen, and holds the calls of both.
    fn join(&self, pass: &mut Self::Pass, child: Self::Pass)
        requires pass { is_pass self.now pass.old }
        requires child { is_pass self.now child }
        requires root { (view pass.old).number ≡ 0 }
        ensures pass { is_pass self.now pass.new }
        ensures root { view pass.new ≡ taker (view pass.old) (view child) };

    /// With no pass out, makes sure that the root knows whose each call is.
    fn settle<R: Wait>(&self, rt: &R, pass: &mut Self::Pass)
        requires pass { is_pass self.now pass.old }
        requires root { ((view pass.old).number ≡ 0) × ((view pass.old).out ≡ 0) }
        ensures pass { is_pass self.now pass.new }
        ensures root { (view pass.new ≡ view pass.old) × Settled (view pass.old) };
}

/// A cell that is read at less cost where nothing waits in it.
pub trait StillCell: SharedCell {
    ghost use Rattle.std.specs.Prelude.{◌≡◌, IfSome, IfNone};

    /// Nothing had waited in the cell where this is read.
    ghost is_still: { Self.Reading → Type 0 };

    /// Reads the cell with a pass where nothing waits in it. Elsewhere it reads nothing, and changes nothing.
    fn read_still<R: Wait>(&self, rt: &R, pass: &mut Self::Pass) -> Option<Self::Reading>
        requires { Self.is_pass self.now pass.old }
        ensures pass { Self.is_pass self.now pass.new }
        ensures read { IfSome result (λ reading.
            Self.reads (Self.view pass.old) reading (Self.view pass.new)) }
        ensures still { IfSome result is_still }
        ensures unread { IfNone result (Self.view pass.new ≡ Self.view pass.old) };
}

/// A cell of which a reading is its value, never waits and changes nothing.
pub trait ValueCell: SharedCell {
    ghost use Rattle.std.specs.Prelude.{List};
    ghost use Rattle.cell_lanes.specs.Calls.{Shows};

    /// The value after these calls, from the cell's making on.
    ghost value_of: { List Self.Entry → Self.Reading };

    /// The value after a beginning of the history that has all that the pass had seen. The pass has then seen that beginning.
    fn value(&self, pass: &mut Self::Pass) -> Self::Reading
        requires { Self.is_pass self.now pass.old }
        ensures pass { Self.is_pass self.now pass.new }
        ensures value { Shows value_of (Self.view pass.old) result (Self.view pass.new) };
}

/// A cell that counts the calls that are made on it.
pub trait CountedCell: ValueCell {
    ghost use Rattle.cell_lanes.specs.Calls.{CountsCalls};

    /// The number of calls that were counted, modulo 2^64, of a beginning of the history that has all that the pass had seen.
    /// The pass has then seen that beginning. Of the root's, all calls are counted but one at most of each pass that is out:
    /// where none is, it is the number of all calls.
    fn updates(&self, pass: &mut Self::Pass) -> u64
        requires { Self.is_pass self.now pass.old }
        ensures pass { Self.is_pass self.now pass.new }
        ensures count { CountsCalls (Self.view pass.old) result (Self.view pass.new) };
}
