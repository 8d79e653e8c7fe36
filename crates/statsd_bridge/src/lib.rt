//! A bridge: payloads of StatsD or DogStatsD in, pages of the Prometheus exporter out. What it has heard it counts by counters of its
//! own, which stand on its pages too.
//!
//! A bridge that hears two payloads, and the page then:
//!
//!     let mut bridge = Bridge::new(alloc, Dialect::Statsd, PrometheusBuilder::new(alloc)?.build_state(alloc)?);
//!     bridge.hear(rt, alloc, b"hits:1|c\nload:+0.5|g\n", moment)?;
//!     bridge.hear(rt, alloc, b"hits:2|c\n", moment)?;
//!     let page = bridge.page(rt, alloc, moment)?;
#![tactic(auto)]

mod bridge;
mod totals;

pub use bridge::Bridge;
pub use totals::Totals;
