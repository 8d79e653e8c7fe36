//! The text of a Prometheus page: names, printed texts, numbers, label sets and lines (Prometheus text exposition
//! format, version 0.0.4), and the grammar by which a page is read.
//!
//! The type line of a family, put behind a text:
//!
//!     write_type_line(&mut page, "requests", None, None, "counter")?;
#![tactic(auto)]

mod braces;
mod families;
mod heads;
mod labels;
mod laws;
mod lent_labels;
mod lines;
mod matchers;
mod names;
mod numbers;
mod printed;
mod rows;
mod suffixes;
mod undo;

pub use families::FamilyType;
pub use heads::{prints_plainly, push_row_head, push_row_labels, row_head};
pub use labels::{LabelSet, LabelStrings, put_label};
pub use laws::{
    escapes_tell_their_text, full_names_are_metric_names, heads_tell_names_and_labels, names_stay,
    one_reading, one_text, plain_keys_are_told_by_their_heads, printed_alike_where_meant_alike,
    sanitized_texts_are_names,
};
pub use lines::{write_help_line, write_metric_line, write_type_line};
pub use matchers::{Matcher, matchers_are_ordered};
pub use names::{is_metric_name, sanitize_label_key, sanitize_metric_name};
pub use numbers::{push_count, push_fixed};
pub use printed::{sanitize_description, sanitize_label_value};
pub use rows::{printed_rows_are_rows, write_row};
pub use suffixes::write_full_name;
