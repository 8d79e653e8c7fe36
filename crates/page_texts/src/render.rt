//! Rendering an exporter to a text.

ghost use Rattle.std.specs.Prelude.{◌≡◌, ◌⊎◌, ℕ, IfOk, OnErr, string_bytes};
ghost use Rattle.prom_exporter.specs.State.{page_step};
ghost use Rattle.prom_exporter.specs.Exporter.{AllHome, AreTimely, state_of};
ghost use Rattle.prom_exporter.specs.Stepped.{Steps, DrainsEach, DrainsInPart};
ghost use Rattle.page_texts.specs.Rendered.{IsRendered};

use crate::text_sink::TextSink;
use metrics_core::Memory;
use prom_exporter::PrometheusState;
use std::alloc::Global;
use std::sync::Wait;

/// What can be rendered to a text.
pub trait Render {
    ghost use Rattle.std.specs.Prelude.{ℕ, List, IfOk, string_bytes};

    /// A render at a moment made the second of the first, and answered this text.
    ghost renders: { Self → ℕ → Self → List ℕ → Type 0 };

    /// Makes the page step at a moment, in nanoseconds, and answers the page's body (Prometheus text exposition format, version
    /// 0.0.4).
    fn render<R: Wait>(&mut self, rt: &R, alloc: Global, moment: u64) -> Result<String, Memory>
        ensures rendered { IfOk result (λ text.
            renders self.old moment self.new (string_bytes text)) };
}

impl Render for PrometheusState {
    ghost renders = { IsRendered };

    /// The text that `render_to_write` writes. After `Memory` the page step was made, or histograms were drained in part and nothing
    /// else happened: no sample is lost, and none counts twice.
    fn render<R: Wait>(&mut self, rt: &R, alloc: Global, moment: u64) -> Result<String, Memory>
        ensures rendered { IfOk result (λ text.
            IsRendered self.old moment self.new (string_bytes text)) }
        ensures refused { OnErr result (Steps moment self.old self.new
            ⊎ DrainsEach DrainsInPart self.old self.new) }
        ensures home { AllHome self.old → AllHome self.new }
        ensures stepped { AllHome self.old
            → (state_of self.new ≡ page_step self.old.settings.idle moment (state_of self.old))
            ⊎ (state_of self.new ≡ state_of self.old) }
        ensures timely { (t : ℕ) → AllHome self.old → AreTimely t self.old → AreTimely t self.new }
    {
        let mut sink = TextSink::new(alloc);
        match self.render_to_write(rt, alloc, moment, &mut sink) {
            Ok(()) => Ok(sink.into_text()),
            // This sink fails only where memory is refused, since each piece of a page is a text.
            Err(_) => Err(Memory),
        }
    }
}
