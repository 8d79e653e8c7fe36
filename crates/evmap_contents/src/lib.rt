//! What a list of writes leaves of a map from keys to bags of values, and one copy of such a map.
//!
//! One write on one copy:
//!
//!     contents.write(&write)?;
#![tactic(auto)]

mod entries;
mod fitting;
mod inner;
mod key;
mod laws;
mod write;

pub use inner::Inner;
pub use key::KeyClone;
pub use laws::forms_change_no_value;
pub use write::{Contents, Write};
