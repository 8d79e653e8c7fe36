//! What lanes are given, and what they hold while they run.

use std::marker::Model;

/// One call of a lane.
#[derive(Clone, Copy, Debug, Drop)]
pub struct Line<K> {
    /// Which of the lane's shared things it is on. With `None` it is on no thing: the hook is called around it, and it changes
    /// nothing.
    pub slot: Option<usize>,
    /// The call.
    pub call: K,
}

/// The lines of a lane, in order: a list of them, or what makes each when the lane comes to it, from where its calls stand.
pub trait LaneLines {
    ghost use Rattle.std.specs.Prelude.{◌≡◌, ◌<◌, ◌^◌, List, length};
    ghost use Rattle.cell_lanes.specs.declared.lane.Line.{Line};
    ghost use Rattle.cell_lanes.specs.Lines.{IsNext};

    /// What a line asks for.
    type Call: Sync + Drop;

    /// How far a lane has come.
    type Walk: Sync + Drop;

    /// All lines.
    ghost lines: { Self → List (Line Self.Call) };

    /// The lines that are left for one who has come so far.
    ghost left: { Self → Self.Walk → List (Line Self.Call) };

    /// Where a walk through the lines begins.
    fn walk(&self) -> Self::Walk
        ensures whole { left self.now result ≡ lines self.now }
        ensures room { length (lines self.now) < 2 ^ 64 };

    /// The next line, and none behind the last.
    fn next(&self, walk: &mut Self::Walk) -> Option<Line<Self::Call>>
        ensures { IsNext result (left self.now walk.old) (left self.now walk.new) };
}

impl<K: Copy + Sync + Drop> LaneLines for Vec<Line<K>> {
    ghost use Rattle.std.specs.Prelude.{drop};

    type Call = K;

    type Walk = usize;

    ghost lines = { λ all. all.items };

    ghost left = { λ all walk. drop walk all.items };

    fn walk(&self) -> usize {
        // That they are fewer than 2^64 needs how many there are.
        let _count = self.len();
        0
    }

    fn next(&self, walk: &mut usize) -> Option<Line<K>> {
        let line = self.get(*walk)?;
        *walk += 1;
        Some(*line)
    }
}

/// What a lane is to do. Contracts see its number, the indices of the shared things that it names, and its lines.
#[derive(Drop)]
pub struct Lane<L: LaneLines> {
    number: usize,
    cells: Vec<usize>,
    lines: L,
}

/// A lane whose lines stand in a list.
pub type ListedLane<K> = Lane<Vec<Line<K>>>;

impl<L: LaneLines> Model for Lane<L> {
    ghost use Rattle.cell_lanes.specs.Lines.{LaneText};

    ghost Value = { LaneText L.Call };

    ghost view = { λ lane. record {
      number = lane.number;
      cells = lane.cells.items;
      lines = L.lines lane.lines;
    } };
}

impl<L: LaneLines> Lane<L> {
    ghost use Rattle.std.specs.Prelude.{◌≡◌};

    /// The lane with a number, which the hook is given. It names the shared things with these indices, each once, and makes the
    /// calls of these lines.
    pub fn new(number: usize, cells: Vec<usize>, lines: L) -> Lane<L>
        ensures { result ≡ record { number = number; cells = cells.items; lines = L.lines lines } }
    {
        Lane {
            number,
            cells,
            lines,
        }
    }

    /// Its number.
    pub fn number(&self) -> usize
        ensures { result ≡ self.now.number }
    {
        self.number
    }

    /// The indices of the shared things that it names.
    pub fn cells(&self) -> &[usize]
        ensures { result.now ≡ self.now.cells }
    {
        self.cells.as_slice()
    }

    /// Its lines.
    pub fn lines(&self) -> &L
        ensures { L.lines result.now ≡ self.now.lines }
    {
        &self.lines
    }
}

/// A pass that a lane has, with the index of what it is a pass of.
#[derive(Drop)]
pub struct Slot<L> {
    /// The index.
    pub cell: usize,
    /// The pass, with what it needs to make calls.
    pub lent: L,
}

/// The passes of one lane, and how many of its lines it has done.
#[derive(Drop)]
pub struct Job<L> {
    /// One pass for each shared thing that the lane names.
    pub slots: Vec<Slot<L>>,
    /// How many of its lines the lane has done. It makes no further call once one was refused memory.
    pub done: usize,
    /// Whether it has done all of them.
    pub is_done: bool,
}
