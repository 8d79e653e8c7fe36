//! The settings of the generated script.

ghost use Rattle.std.specs.Prelude.{◌≡◌, IfOk};
ghost use Rattle.bench_scripts.specs.Bench.{bench_settings_text};
ghost use Rattle.drive_script.specs.Texts.{settings_of};

use drive_script::Settings;
use metrics_core::{Fixed, Memory};
use std::alloc::Global;

/// The only bound of histograms: 500.
const BOUND: Fixed = Fixed(500_000_000_000);

/// The settings of the generated script: those of one header line, `buckets 500`.
pub fn bench_settings(alloc: Global) -> Result<Settings, Memory>
    ensures { IfOk result (λ settings. settings_of settings ≡ bench_settings_text) }
{
    let mut bounds = Vec::with_capacity(alloc, 1)?;
    bounds.push(BOUND)?;
    let mut settings = Settings::new(alloc);
    settings.buckets = Some(bounds);
    Ok(settings)
}
