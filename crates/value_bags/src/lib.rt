//! Bags of shared values, in a short form for few values and a long form for many.
//!
//! A bag with one value:
//!
//!     let mut bag = Values::new(alloc);
//!     bag.push(&value)?;
#![tactic(auto)]

mod bag;
mod counts;
mod items;
mod keep;
mod laws;
mod listing;
mod values;

pub use bag::BagForm;
pub use keep::{Keep, KeepAll};
pub use laws::counts_of_values;
pub use listing::ValuesIter;
pub use values::Values;
