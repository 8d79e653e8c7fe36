//! Loops that answer scrapes with pages, each in a thread of its own, until the work beside them has ended.
//!
//! A lane's loop over a share of a listener:
//!
//!     let listener = SharedListener::new(&bound, &stop);
//!     let mut serving = Serving { alloc, allowed, stop: &stop, listener, pages, moments, room, served: 0, failed: 0 };
//!     serve_until(rt, &mut UntilStop { stop: &stop }, &mut serving);
#![tactic(auto)]

mod moments;
mod pages;
mod serving;
mod shared_listeners;
mod turn_conns;

pub use moments::{Moments, SystemMoments};
pub use pages::Pages;
pub use serving::{GivenUp, Serving, answer_peer, serve_until};
pub use shared_listeners::SharedListener;
pub use turn_conns::TurnConn;
