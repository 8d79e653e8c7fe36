//! Rules over a stream of pages: is the sum of some rows over, or under, a bound for so many pages in a row.
//!
//! A rule over pages, one after the other:
//!
//!     let (rules, begin) = read_rules(alloc, bytes)?;
//!     let mut evaluator = Evaluator::new(alloc, start, rules);
//!     let firings = evaluator.page(alloc, &page)?;
#![tactic(auto)]

mod evaluator;
mod groups;
mod laws;
mod lines;
mod rules;
mod stream;
mod writer;

pub use evaluator::{Evaluator, Firing};
pub use laws::{one_first_bad_rule, one_reading_of_rules};
pub use rules::{Rule, RuleFault, read_rules};
pub use stream::{Evaluated, EvaluationFault, evaluate};
