//! Several shared things, as a state keeps them, each under an index.

use crate::lender::Lender;
use metrics_core::Memory;
use std::alloc::Global;
use std::sync::Wait;

/// Things that threads share, each with its root pass. They lend passes, and take them back.
pub trait Lenders: Send {
    ghost use Rattle.std.specs.Prelude.{◌≡◌, ◌<◌, ℕ, List, length, set, IfOk, OnOk, OnErr};
    ghost use mathlib.Core.Option.{some};
    ghost use lib.ListN.{get_elem?};
    ghost use Rattle.legal_history.specs.declared.history.View.{View};
    ghost use Rattle.legal_history.specs.History.{lender, child};
    ghost use Rattle.cell_lanes.specs.Calls.{Made};
    ghost use Rattle.cell_lanes.specs.Lanes.{SettledAt};
    ghost use Rattle.cell_lanes.specs.Things.{Thing, TookBack, root_of};

    /// A pass that is lent, with what it needs to make calls.
    type Lent: Send + Drop;

    /// What a lane asks for.
    type Call: Sync + Drop;

    /// A call as it stands in the history, with its answer.
    type Entry;

    /// What tells one thing from another, and whatever else is kept with it and lasts.
    type Lasting;

    /// What is kept beside the things.
    type Frame;

    /// The things, in the order of their indices.
    ghost things: { Self → List (Thing Self.Entry Self.Lasting) };

    /// All but what the root passes know and what lasts. Lending, taking back and settling leave it as it is.
    ghost frame: { Self → Self.Frame };

    /// What a lent pass knows.
    ghost knows: { Self.Lent → View Self.Entry };

    /// The pass was lent by a thing of which this is fixed.
    ghost owns: { Self.Lasting → Self.Lent → Type 0 };

    /// A thing of which this is fixed takes this call.
    ghost takes: { Self.Lasting → Self.Call → Type 0 };

    /// This lasts on as that: it is the same, or what wasn't there was made.
    ghost lasts: { Self.Lasting → Self.Lasting → Type 0 };

    /// What stays lasts on.
    ghost lasts_on: { (f : Self.Lasting) → lasts f f };

    /// What lasts on and on lasts on.
    ghost lasts_then: { (f g h : Self.Lasting) → lasts f g → lasts g h → lasts f h };

    /// A pass stays one of what lasts on.
    ghost owns_on: { (f g : Self.Lasting) (lent : Self.Lent) → lasts f g → owns f lent → owns g lent };

    /// What lasts on takes the same calls.
    ghost takes_on: { (f g : Self.Lasting) (call : Self.Call) → lasts f g → takes f call → takes g call };

    /// What a lane asks for may stand in the history as these calls: mostly one, none where the call changes nothing.
    ghost stands_as: { Self.Call → List Self.Entry → Type 0 };

    /// Lends a new pass of the thing with this index, which has seen what the root pass has seen and has made no call.
    fn lend(&mut self, alloc: Global, index: usize) -> Result<Self::Lent, Memory>
        requires here { index < length (things self.old) }
        requires root { (t : Thing Self.Entry Self.Lasting)
            → get_elem? (things self.old) index ≡ some t → t.root.number ≡ 0 }
        ensures lent { IfOk result (λ new. (t : Thing Self.Entry Self.Lasting)
            → get_elem? (things self.old) index ≡ some t
            → (u : Thing Self.Entry Self.Lasting) × (u.root ≡ lender t.root) × lasts t.fixed u.fixed × owns u.fixed new × (knows new ≡ child t.root)
            × (things self.new ≡ set (things self.old) index u)) }
        ensures refused { OnErr result (things self.new ≡ things self.old) }
        ensures frame { frame self.new ≡ frame self.old };

    /// Makes a call with a pass. A refused call changes nothing.
    fn make<R: Wait>(
        rt: &R,
        alloc: Global,
        lent: &mut Self::Lent,
        call: &Self::Call,
    ) -> Result<(), Memory>
        requires { (by : Self.Lasting) × owns by lent.old × takes by call.now }
        ensures made { OnOk result (Made (stands_as call.now) (knows lent.old) (knows lent.new)) }
        ensures refused { OnErr result (knows lent.new ≡ knows lent.old) }
        ensures kept { (by : Self.Lasting) → owns by lent.old → owns by lent.new };

    /// Takes a pass of the thing with this index back. The root has then seen what either had seen, and holds the calls of both.
    fn take_back(&mut self, index: usize, lent: Self::Lent)
        requires here { index < length (things self.old) }
        requires root { (t : Thing Self.Entry Self.Lasting)
            → get_elem? (things self.old) index ≡ some t → t.root.number ≡ 0 }
        requires lent { (t : Thing Self.Entry Self.Lasting)
            → get_elem? (things self.old) index ≡ some t → owns t.fixed lent }
        ensures taken { (t : Thing Self.Entry Self.Lasting)
            → get_elem? (things self.old) index ≡ some t
            → (u : Thing Self.Entry Self.Lasting) × TookBack t.root (knows lent) u.root × (u.fixed ≡ t.fixed) × (things self.new ≡ set (things self.old) index u) }
        ensures frame { frame self.new ≡ frame self.old };

    /// With no pass of the thing with this index out, makes sure that its root knows whose each call is.
    fn settle<R: Wait>(&mut self, rt: &R, index: usize)
        requires here { index < length (things self.old) }
        requires home { (t : Thing Self.Entry Self.Lasting)
            → get_elem? (things self.old) index ≡ some t → (t.root.number ≡ 0) × (t.root.out ≡ 0) }
        ensures same { things self.new ≡ things self.old }
        ensures settled { SettledAt root_of (things self.old) index }
        ensures frame { frame self.new ≡ frame self.old };
}

impl<S: Lender> Lenders for Vec<S> {
    ghost use Rattle.std.specs.Prelude.{map};
    ghost use Rattle.cell_lanes.specs.Things.{Thing};

    type Lent = S::Lent;

    type Call = S::Call;

    type Entry = S::Entry;

    type Lasting = S::Lasting;

    type Frame = ();

    ghost things = { λ all. map (λ s. record { root = S.root s; fixed = S.fixed s }) all.items };

    ghost frame = { λ all. tt };

    ghost knows = { S.knows };

    ghost owns = { S.owns };

    ghost takes = { S.takes };

    ghost lasts = { S.lasts };

    ghost lasts_on = { S.lasts_on };

    ghost lasts_then = { S.lasts_then };

    ghost owns_on = { S.owns_on };

    ghost takes_on = { S.takes_on };

    ghost stands_as = { S.stands_as };

    fn lend(&mut self, alloc: Global, index: usize) -> Result<S::Lent, Memory> {
        self[index].lend(alloc)
    }

    fn make<R: Wait>(
        rt: &R,
        alloc: Global,
        lent: &mut S::Lent,
        call: &S::Call,
    ) -> Result<(), Memory> {
        S::make(rt, alloc, lent, call)
    }

    fn take_back(&mut self, index: usize, lent: S::Lent) {
        self[index].take_back(lent);
    }

    fn settle<R: Wait>(&mut self, rt: &R, index: usize) {
        self[index].settle(rt);
    }
}
