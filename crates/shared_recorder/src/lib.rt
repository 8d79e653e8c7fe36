//! A recorder that running threads share: registrations, descriptions and pages of all threads stand in one legal history, each
//! entry once, and each answer is that of a recorder of one thread at its place.
//!
//! Each thread has a pass. The root pass lends passes and takes them back:
//!
//!     let (recorder, mut root) = SharedRecorder::new(alloc, state)?;
//!     let mut pass = recorder.split(&mut root);
//!     let id = recorder.register_counter(rt, alloc, &mut pass, &key)?;
//!     let lent = recorder.lend_counter(rt, alloc, &mut pass, id)?;
//!     let page = recorder.render(rt, alloc, &mut pass, moment)?;
//!     recorder.join(&mut root, pass);
//!     recorder.end(rt, root);
//!
//! What was lent is updated without a turn and without a lock, since each series is a cell of its own.
#![tactic(auto)]

mod entries;
mod kept;
mod laws;
mod recorder;

pub use entries::{Gone, RecorderEntry};
pub use kept::KeptState;
pub use laws::{
    a_history_has_one_state, numbers_are_keys, pages_show_the_state_of_their_history,
    passes_beside_agree,
};
pub use recorder::{SharedPass, SharedRecorder};
