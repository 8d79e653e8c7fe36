//! The series that the first round of the generated script registers.

ghost use Rattle.std.specs.Prelude.{◌≡◌, ◌++◌, IfOk, OnOk, map};
ghost use Rattle.bench_scripts.specs.Bench.{bench_setup, four_series};
ghost use Rattle.drive_script.specs.Texts.{setup_of};

use drive_script::Setup;
use metrics_core::{Key, KeyName, Label, Memory, MetricKind};
use std::alloc::Global;

/// How many series are registered.
const SERIES: usize = 12;

/// The values of the label of four series.
const NUMBERS: [&str; 4] = ["0", "1", "2", "3"];

/// The lines that register four counters, four gauges and four histograms.
pub(crate) fn register_all(alloc: Global) -> Result<Vec<Setup>, Memory>
    ensures { IfOk result (λ setup. map setup_of setup.items ≡ bench_setup) }
{
    let mut setup = Vec::with_capacity(alloc, SERIES)?;
    register_four(alloc, &mut setup, MetricKind::Counter, "bench_counter", "n")?;
    register_four(alloc, &mut setup, MetricKind::Gauge, "bench_gauge", "lane")?;
    register_four(
        alloc,
        &mut setup,
        MetricKind::Histogram,
        "bench_histogram",
        "lane",
    )?;
    Ok(setup)
}

/// Adds the lines that register four series of a kind, whose label goes from 0 to 3.
fn register_four(
    alloc: Global,
    setup: &mut Vec<Setup>,
    kind: MetricKind,
    name: &'static str,
    label: &'static str,
) -> Result<(), Memory>
    ensures { OnOk result (map setup_of setup.new.items
        ≡ map setup_of setup.old.items ++ four_series kind name.now label.now) }
{
    for number in NUMBERS {
        let mut labels = Vec::with_capacity(alloc, 1)?;
        labels.push(Label::from_static_parts(label, number))?;
        let key = Key::from_parts(KeyName::from_const_str(name), labels);
        setup.push(Setup::Register { kind, key })?;
    }
    Ok(())
}
