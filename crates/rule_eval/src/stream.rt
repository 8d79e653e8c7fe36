//! Rules and the pages behind them: what fires on each page is written.

ghost use Rattle.std.specs.Prelude.{◌≡◌, ◌<◌, ◌+◌, ◌^◌, length, map, All, IfErr, IfOk, OnOk};
ghost use Rattle.metrics_core.specs.Outside.{Rose};
ghost use Rattle.page_relay.specs.Values.{families_of};
ghost use Rattle.rule_eval.specs.FiringText.{count_fired, evaluated_text};
ghost use Rattle.rule_eval.specs.Rules.{rule_text, AsksForPages};
ghost use Rattle.rule_eval.specs.Streams.{of_pages, of_rules, place_of, AreEvaluated, HasEvaluationCause, IsEvaluated, LeavesEvaluation};

use crate::evaluator::Evaluator;
use crate::rules::{Rule, RuleFault, read_rules};
use crate::writer::push_firings;
use hash_starts::HashStart;
use metrics_core::{Memory, Sink, write_whole};
use page_relay::{Page, RelayFault, read_pages};
use std::alloc::Global;

/// What was evaluated.
#[derive(Clone, Copy, Debug, PartialEq, Eq)]
pub struct Evaluated {
    /// How many pages.
    pub pages: u64,
    /// How many lines were written, one for each group that fires on a page.
    pub fired: u64,
}

/// Why rules were not evaluated.
#[derive(Clone, Copy, Debug, PartialEq, Eq)]
pub enum EvaluationFault {
    /// The line, from 1, is the first that is neither a rule nor `pages`.
    Rules { line: u64 },
    /// The line, from 1, is the first bad one of the pages.
    Pages { line: u64 },
    /// A write failed.
    WriteFault,
    /// Memory was refused.
    Memory,
}

/// Reads rules and the pages behind them, and writes a line to `out` for each group that fires on a page: its number from 1, the rule's
/// title, the group and its sum. Nothing is written before all was read and evaluated. Names and groups are looked up by hashes from a
/// start.
pub fn evaluate<K: Sink>(
    alloc: Global,
    start: HashStart,
    bytes: &[u8],
    out: &mut K,
) -> Result<Evaluated, EvaluationFault>
    requires { length bytes.now < 2 ^ 32 }
    ensures evaluated { OnOk result (IsEvaluated bytes.now (K.written out.old) (K.written out.new)) }
    ensures counted { IfOk result (AreEvaluated bytes.now) }
    ensures cause { IfErr result (HasEvaluationCause bytes.now
        (Rose (K.faults out.old) (K.faults out.new))) }
    ensures leaves { IfErr result (LeavesEvaluation bytes.now (K.written out.old)
        (K.written out.new)) }
{
    let (rules, begin) = match read_rules(alloc, bytes) {
        Ok(read) => read,
        Err(fault) => return Err(rules_fault(fault)),
    };
    let pages = match read_pages(alloc, &bytes[begin..]) {
        Ok(pages) => pages,
        Err(fault) => return Err(pages_fault(rules.len() as u64 + 1, fault)),
    };
    let count = pages.len() as u64;
    let (text, fired) = match lines_fired(alloc, start, rules, &pages) {
        Ok(lines) => lines,
        Err(Memory) => return Err(EvaluationFault::Memory),
    };
    match write_whole(out, text.as_slice()) {
        Ok(()) => Ok(Evaluated {
            pages: count,
            fired,
        }),
        Err(_) => Err(EvaluationFault::WriteFault),
    }
}

/// The lines of what fires on pages, and how many they are.
fn lines_fired(
    alloc: Global,
    start: HashStart,
    rules: Vec<Rule>,
    pages: &[Page],
) -> Result<(Vec<u8>, u64), Memory>
    requires pages { All AsksForPages (map rule_text rules.items) }
    requires few { length rules.items < 2 ^ 32 }
    ensures text { IfOk result (λ lines. lines.0.items
        ≡ evaluated_text (map rule_text rules.items) (map families_of pages.now)) }
    ensures fired { IfOk result (λ lines. lines.1
        ≡ count_fired (map rule_text rules.items) (map families_of pages.now)) }
{
    let mut evaluator = Evaluator::new(alloc, start, rules);
    let mut text = Vec::new(alloc);
    let mut fired = 0;
    let mut number = 0;
    for page in pages {
        number += 1;
        let firings = evaluator.page(alloc, page)?;
        push_firings(
            alloc,
            &mut text,
            number,
            evaluator.rules(),
            firings.as_slice(),
        )?;
        fired += firings.len() as u64;
    }
    Ok((text, fired))
}

/// Why rules were not evaluated that were not read.
fn rules_fault(fault: RuleFault) -> EvaluationFault
    ensures { result ≡ of_rules fault }
{
    match fault {
        RuleFault::Line { line } => EvaluationFault::Rules { line },
        RuleFault::Memory => EvaluationFault::Memory,
    }
}

/// Why they were not whose pages were not read, behind so many lines.
fn pages_fault(before: u64, fault: RelayFault) -> EvaluationFault
    requires room { before + place_of fault < 2 ^ 64 }
    ensures { result ≡ of_pages before fault }
{
    match fault {
        RelayFault::Syntax { line } => EvaluationFault::Pages {
            line: before + line,
        },
        _ => EvaluationFault::Memory,
    }
}
