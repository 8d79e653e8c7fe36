//! The rows of a histogram series on a page (Prometheus text exposition format, "Histograms and summaries").
//!
//! The rows of a series under a metric name, with the label set that they share, put behind a text:
//!
//!     push_rows(&mut page, "latency", "{path=\"/\"}", &distribution, moment)?;
#![tactic(auto)]

mod laws;
mod parts;
mod rows;

pub use laws::number_labels_print_as_they_are;
pub use rows::push_rows;
