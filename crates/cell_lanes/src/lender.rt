//! Something shared, with its root pass, as a state keeps it.

use metrics_core::Memory;
use std::alloc::Global;
use std::sync::Wait;

/// A thing that threads share, with its root pass. It lends passes, and takes them back.
pub trait Lender: Send {
    ghost use Rattle.std.specs.Prelude.{◌≡◌, List, IfOk, OnOk, OnErr};
    ghost use Rattle.legal_history.specs.declared.history.View.{View};
    ghost use Rattle.legal_history.specs.History.{Settled, lender, child, taker};
    ghost use Rattle.cell_lanes.specs.Calls.{Made};

    /// A pass that is lent, with what it needs to make calls.
    type Lent: Send + Drop;

    /// What a lane asks for.
    type Call: Sync + Drop;

    /// A call as it stands in the history, with its answer.
    type Entry;

    /// What tells one from another, and whatever else is kept with it and lasts.
    type Lasting;

    /// What the root pass knows.
    ghost root: { Self → View Self.Entry };

    /// What a lent pass knows.
    ghost knows: { Self.Lent → View Self.Entry };

    /// What calls and taking back leave as it is, and lending too, but that it may make what wasn't there.
    ghost fixed: { Self → Self.Lasting };

    /// The pass was lent by one of which this is fixed.
    ghost owns: { Self.Lasting → Self.Lent → Type 0 };

    /// One of which this is fixed takes this call.
    ghost takes: { Self.Lasting → Self.Call → Type 0 };

    /// This lasts on as that: it is the same, or what wasn't there was made.
    ghost lasts: { Self.Lasting → Self.Lasting → Type 0 };

    /// What stays lasts on.
    ghost lasts_on: { (f : Self.Lasting) → lasts f f };

    /// What lasts on and on lasts on.
    ghost lasts_then: { (f g h : Self.Lasting) → lasts f g → lasts g h → lasts f h };

    /// A pass stays one of what lasts on.
    ghost owns_on: { (f g : Self.Lasting) (lent : Self.Lent) → lasts f g → owns f lent → owns g lent };

    /// What lasts on takes the same calls.
    ghost takes_on: { (f g : Self.Lasting) (call : Self.Call) → lasts f g → takes f call → takes g call };

    /// What a lane asks for may stand in the history as these calls: mostly one, none where the call changes nothing.
    ghost stands_as: { Self.Call → List Self.Entry → Type 0 };

    /// Lends a new pass, which has seen what the root pass has seen and has made no call.
    fn lend(&mut self, alloc: Global) -> Result<Self::Lent, Memory>
        requires { (root self.old).number ≡ 0 }
        ensures lent { IfOk result (λ new. owns (fixed self.new) new
            × (knows new ≡ child (root self.old))) }
        ensures root { OnOk result (root self.new ≡ lender (root self.old)) }
        ensures lasts { OnOk result (lasts (fixed self.old) (fixed self.new)) }
        ensures refused { OnErr result ((root self.new ≡ root self.old)
            × (fixed self.new ≡ fixed self.old)) };

    /// Makes a call with a pass. A refused call changes nothing.
    fn make<R: Wait>(
        rt: &R,
        alloc: Global,
        lent: &mut Self::Lent,
        call: &Self::Call,
    ) -> Result<(), Memory>
        requires { (by : Self.Lasting) × owns by lent.old × takes by call.now }
        ensures made { OnOk result (Made (stands_as call.now) (knows lent.old) (knows lent.new)) }
        ensures refused { OnErr result (knows lent.new ≡ knows lent.old) }
        ensures kept { (by : Self.Lasting) → owns by lent.old → owns by lent.new };

    /// Takes a pass back. The root has then seen what either had seen, and holds the calls of both.
    fn take_back(&mut self, lent: Self::Lent)
        requires root { (root self.old).number ≡ 0 }
        requires lent { owns (fixed self.old) lent }
        ensures root { root self.new ≡ taker (root self.old) (knows lent) }
        ensures fixed { fixed self.new ≡ fixed self.old };

    /// With no pass out, makes sure that the root knows whose each call is.
    fn settle<R: Wait>(&mut self, rt: &R)
        requires { ((root self.old).number ≡ 0) × ((root self.old).out ≡ 0) }
        ensures root { (root self.new ≡ root self.old) × Settled (root self.old) }
        ensures fixed { fixed self.new ≡ fixed self.old };
}
