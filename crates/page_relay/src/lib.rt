//! Pages of several exporters: a stream of pages is read, its first bad line is named where it is none, pages are merged,
//! and pages are written (Prometheus text exposition format, version 0.0.4). A `Page` has families, a `Family` rows, and a
//! `RelayFault` says which line is bad or which family does not merge.
//!
//! The pages of a stream made one, and written:
//!
//!     let pages = read_pages(alloc, &bytes)?;
//!     write_page(alloc, &merge(alloc, start, &pages)?, &mut out)?;
#![tactic(auto)]

mod cursor;
mod faults;
mod gathering;
mod laws;
mod lines;
mod merging;
mod pages;
mod progress;
mod reader;
mod writer;

pub use faults::RelayFault;
pub use laws::{conflicts_refuse, merged_pages_stand, one_first_bad_line, one_stream};
pub use merging::merge;
pub use pages::{Family, Page, PageRow};
pub use prom_format::FamilyType as Shape;
pub use reader::read_pages;
pub use writer::{push_escaped, push_label, write_page};
