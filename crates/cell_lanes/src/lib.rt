//! Cells that threads share, each with one legal history, what keeps and lends them, and lanes that run side by side over them.
//!
//! A kind of cell brings its calls and their meaning (`SharedCell`). A state keeps it with its root pass (`OwnedCell`), and
//! lends it with a pass of its own (`LentCell`). Lanes run over whatever keeps several things under indices and lends passes of
//! them (`Lenders`; a `Vec` of `Lender`s is one, and so one of `OwnedCell`s). A lane names some of them and has its calls in order
//! (`LaneLines`: a list, or what reads them where they stand). All lanes get passes, run at the same time, and give their passes
//! back. Then each history has grown by the calls that the lanes made, in one order in which each lane's calls stand as the lane
//! made them.
//!
//! A round of lanes over what a state keeps:
//!
//!     run_lanes(rt, alloc, &NoHook, &mut state, &lanes)?;
#![tactic(auto)]

mod cell;
mod fit;
mod hook;
mod lane;
mod lender;
mod lenders;
mod lent;
mod owned;
mod reading;
mod round;

pub use cell::{CountedCell, SharedCell, StillCell, ValueCell};
pub use fit::{lane_fits, lanes_fit};
pub use hook::{LaneHook, NoHook};
pub use lane::{Job, Lane, LaneLines, Line, ListedLane, Slot};
pub use lender::Lender;
pub use lenders::Lenders;
pub use lent::LentCell;
pub use owned::OwnedCell;
pub use reading::run_and_read;
pub use round::run_lanes;
