//! Rules, and how they are read from the front of a stream.

ghost use Rattle.std.specs.Prelude.{◌≤◌, map, length, drop, IfOk, IfErr};
ghost use Rattle.rule_eval.specs.Rules.{rule_text, AreRules, IsRuleFault};

use crate::lines::{read_rule, split_line};
use metrics_core::{Fixed, Memory};
use std::alloc::{AllocFailed, Global};
use thiserror::Error;

/// What is asked of each page: whether the sum of some rows is over, or under, a bound, for so many pages in a row.
#[derive(Drop)]
pub struct Rule {
    /// What the lines of what fires begin with, behind the number of the page.
    pub title: String,
    /// The name of the rows that are summed.
    pub name: String,
    /// The label keys that rows are grouped by.
    pub keys: Vec<String>,
    /// Whether a sum has to be over the bound. It has to be under it otherwise.
    pub over: bool,
    /// The bound, in billionths.
    pub bound: Fixed,
    /// On how many pages in a row, from 1 to 1000.
    pub pages: u32,
}

/// Why bytes are no rules.
#[derive(Clone, Copy, Debug, PartialEq, Eq, Error)]
pub enum RuleFault {
    /// The line, from 1, is the first that is neither a rule nor `pages`. Where `pages` never comes it is the one behind the last.
    #[error("rules: line {line}")]
    Line { line: u64 },
    /// Memory was refused.
    #[error("out of memory")]
    Memory,
}

impl From<Memory> for RuleFault {
    ghost use Rattle.std.specs.Prelude.{◌≡◌};
    ghost use Rattle.rule_eval.specs.declared.rules.RuleFault.TheVariants as faults;

    ghost from_gives = { λ _ fault. fault ≡ faults.Memory };

    fn from(_refused: Memory) -> RuleFault {
        RuleFault::Memory
    }
}

impl<T: Drop> From<AllocFailed<T>> for RuleFault {
    ghost use Rattle.std.specs.Prelude.{◌≡◌};
    ghost use Rattle.rule_eval.specs.declared.rules.RuleFault.TheVariants as faults;

    ghost from_gives = { λ _ fault. fault ≡ faults.Memory };

    fn from(_refused: AllocFailed<T>) -> RuleFault {
        RuleFault::Memory
    }
}

/// Reads rules, each in a line `rule TEXT sum NAME by TEXT .. over DEC for NAT`, or with `under` in place of `over`, up to the line
/// `pages`. Answers them, and where the bytes behind that line begin.
pub fn read_rules(alloc: Global, bytes: &[u8]) -> Result<(Vec<Rule>, usize), RuleFault>
    ensures rules { IfOk result (λ read.
        AreRules bytes.now (map rule_text read.0.items) (drop read.1 bytes.now)) }
    ensures begin { IfOk result (λ read. read.1 ≤ length bytes.now) }
    ensures refused { IfErr result (IsRuleFault bytes.now) }
{
    let mut rules = Vec::new(alloc);
    let mut rest = bytes;
    let mut line = 1;
    while let Some((text, behind)) = split_line(rest) {
        if text == b"pages".as_slice() {
            return Ok((rules, bytes.len() - behind.len()));
        }
        let Some(rule) = read_rule(alloc, text)? else {
            return Err(RuleFault::Line { line });
        };
        rules.push(rule)?;
        rest = behind;
        line += 1;
    }
    Err(RuleFault::Line { line })
}
