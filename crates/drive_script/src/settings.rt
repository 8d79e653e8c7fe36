//! Which settings of a script are refused.

ghost use Rattle.std.specs.Prelude.{◌≡◌, ◌||◌, None, Some, IfOk, IfErr, MatchResult, map, option_map};
ghost use Rattle.std.specs.Int.NonZero.{non_zero_u32_get};
ghost use Rattle.std.specs.List.{list_any};
ghost use Rattle.dsd_addresses.specs.Remotes.{remote_text};
ghost use Rattle.drive_script.specs.Settings.{
  Native,
  refusal_of,
  refused_native,
  refused_window,
  refused_limit,
  refused_setting,
  window_settings,
  has_none,
  rule_has_none,
  rule_of,
};
ghost use Rattle.drive_script.specs.Texts.{native_of, settings_of, values_of};

use crate::{SettingFault, Settings};
use dsd_addresses::{RemoteAddr, limit_fault};
use metrics_core::Fixed;
use native_histograms::NativeHistogramConfig;
use prom_format::Matcher;
use std::num::NonZeroU32;

/// Finds the first setting that is refused, where payloads are sent to an address: a line of quantiles or of bounds without
/// any, then a line of native histograms that can't be, then a width of 0, then a span that passes 64 bits of nanoseconds, and
/// then a payload limit that the address doesn't allow. It takes no memory.
pub fn check_settings(settings: &Settings, to: &RemoteAddr) -> Result<(), SettingFault>
    ensures allowed { IfOk result (λ done.
        refused_setting (settings_of settings.now) (remote_text to.now) ≡ None) }
    ensures refused { IfErr result (λ fault.
        refused_setting (settings_of settings.now) (remote_text to.now) ≡ Some (refusal_of fault)) }
{
    if lacks_any(settings) {
        return Err(SettingFault::Empty);
    }
    check_native(&settings.native_for)?;
    check_window(settings.summary)?;
    check_limit(settings.dsd_limit, to)
}

/// Finds the first line of native histograms that is refused.
fn check_native(lines: &[(Matcher, Fixed, u32, Fixed)]) -> Result<(), SettingFault>
    ensures { MatchResult result
        (λ _. option_map Native (refused_native (map native_of lines.now)) ≡ None)
        (λ fault. option_map Native (refused_native (map native_of lines.now)) ≡ Some (refusal_of fault)) }
{
    for line in lines {
        if let Err(reason) = NativeHistogramConfig::new(line.1, line.2, line.3) {
            return Err(SettingFault::Native(reason));
        }
    }
    Ok(())
}

/// Whether a window is refused.
fn check_window(summary: Option<(NonZeroU32, u64)>) -> Result<(), SettingFault>
    ensures { MatchResult result
        (λ _. refused_window (window_settings (option_map (λ window. (non_zero_u32_get window.0, window.1)) summary)) ≡ None)
        (λ fault. refused_window (window_settings (option_map (λ window. (non_zero_u32_get window.0, window.1)) summary)) ≡ Some (refusal_of fault)) }
{
    let Some((count, duration)) = summary else {
        return Ok(());
    };
    if duration == 0 {
        return Err(SettingFault::ZeroDuration);
    }
    match u64::from(count.get()).checked_mul(duration) {
        Some(_span) => Ok(()),
        None => Err(SettingFault::SpanTooLong),
    }
}

/// Whether a payload limit is refused, if there is one.
fn check_limit(limit: Option<u64>, to: &RemoteAddr) -> Result<(), SettingFault>
    ensures { MatchResult result (λ _. refused_limit limit (remote_text to.now) ≡ None)
        (λ fault. refused_limit limit (remote_text to.now) ≡ Some (refusal_of fault)) }
{
    let Some(limit) = limit else {
        return Ok(());
    };
    match limit_fault(limit, to) {
        Some(fault) => Err(SettingFault::Limit(fault)),
        None => Ok(()),
    }
}

/// Whether a line of quantiles or of bounds has none.
fn lacks_any(settings: &Settings) -> bool
    ensures { result ≡ (has_none (settings_of settings.now).quantiles ||
        (has_none (settings_of settings.now).buckets
        || list_any rule_has_none (settings_of settings.now).buckets_for)) }
{
    is_bare(&settings.quantiles) || is_bare(&settings.buckets) || any_bare(&settings.buckets_for)
}

/// Whether there is a line of numbers without any.
fn is_bare(line: &Option<Vec<Fixed>>) -> bool
    ensures { result ≡ has_none (option_map (λ numbers. values_of numbers.items) line.now) }
{
    match line {
        Some(numbers) => numbers.is_empty(),
        None => false,
    }
}

/// Whether one of some rules has no bounds.
fn any_bare(rules: &[(Matcher, Vec<Fixed>)]) -> bool
    ensures { result ≡ list_any rule_has_none (map rule_of rules.now) }
{
    for rule in rules {
        if rule.1.is_empty() {
            return true;
        }
    }
    false
}
