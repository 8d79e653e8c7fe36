//! A sink that keeps what is written as a text.

ghost use Rattle.std.specs.Prelude.{◌≡◌, [], string_bytes};

use metrics_core::{Failed, Sink};
use std::alloc::Global;
use std::marker::Model;

/// A sink that keeps a text. A write fails where memory is refused, or where its piece is no UTF-8. Contracts see it as the bytes that
/// were written and how many writes failed.
#[derive(Drop)]
pub struct TextSink {
    text: String,
    faults: u64,
}

impl Model for TextSink {
    ghost use Rattle.std.specs.Prelude.{string_bytes};
    ghost use Rattle.page_texts.specs.Written.{Written};

    ghost Value = { Written };

    ghost view = { λ sink. record { bytes = string_bytes sink.text; faults = sink.faults } };
}

impl TextSink {
    /// A sink of nothing. It takes no memory.
    pub fn new(alloc: Global) -> TextSink
        ensures { result ≡ record { bytes = []; faults = 0 } }
    {
        TextSink {
            text: String::new(alloc),
            faults: 0,
        }
    }

    /// The text that was written.
    pub fn into_text(self) -> String
        ensures { string_bytes result ≡ self.bytes }
    {
        self.text
    }
}

impl Sink for TextSink {
    ghost use Rattle.std.specs.Prelude.{Some};

    ghost written = { λ sink. Some sink.bytes };

    ghost faults = { λ sink. sink.faults };

    fn write(&mut self, piece: &[u8]) -> Result<usize, Failed> {
        let Ok(text) = str::from_utf8(piece) else {
            self.faults = self.faults.saturating_add(1);
            return Err(Failed);
        };
        if self.text.push_str(text).is_err() {
            self.faults = self.faults.saturating_add(1);
            return Err(Failed);
        }
        Ok(piece.len())
    }
}
