//! The page of an exporter as a text.
//!
//! The body of the page at a moment:
//!
//!     let page = exporter.render(rt, alloc, moment)?;
#![tactic(auto)]

mod render;
mod text_sink;

pub use render::Render;
pub use text_sink::TextSink;
