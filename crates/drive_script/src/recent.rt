//! Texts that come again from one register line to the next.

ghost use Rattle.std.specs.Prelude.{◌≡◌, IfOk};
ghost use Rattle.std.specs.Cow.{cow_str_bytes};
ghost use Rattle.metrics_core.specs.Texts.{cow_text};

use metrics_core::{CowStr, Memory, SharedString};
use std::alloc::Global;
use std::borrow;
use std::sync::Arc;

/// The texts of the last register line's name and label keys, by their place in it: as they stand in the script, or, once
/// they came again, as the copies that keys share.
#[derive(Drop)]
pub(crate) struct Recent<'a> {
    texts: Vec<CowStr<'a>>,
}

impl<'a> Recent<'a> {
    /// No text yet.
    pub(crate) fn new(alloc: Global) -> Recent<'a> {
        Recent {
            texts: Vec::new(alloc),
        }
    }

    /// The text at a place of the next register line. Where it is the one of the line before, it is shared with it.
    pub(crate) fn shared(
        &mut self,
        alloc: Global,
        place: usize,
        text: borrow::CowStr<'a>,
    ) -> Result<SharedString, Memory>
        ensures text { IfOk result (λ shared. cow_text shared ≡ cow_str_bytes text.entry) }
    {
        match text {
            borrow::CowStr::Borrowed(text) => self.shared_plain(alloc, place, text),
            borrow::CowStr::Owned(text) => Ok(SharedString::from(text)),
        }
    }

    /// The same for a text that stands in the script.
    fn shared_plain(
        &mut self,
        alloc: Global,
        place: usize,
        text: &'a str,
    ) -> Result<SharedString, Memory>
        ensures text { IfOk result (λ shared. cow_text shared ≡ text.now) }
    {
        let Some(recent) = self.texts.get_mut(place) else {
            self.texts.push(CowStr::from_borrowed(text))?;
            return Ok(SharedString::from(String::from_str(alloc, text)?));
        };
        if recent.as_str() != text {
            *recent = CowStr::from_borrowed(text);
            return Ok(SharedString::from(String::from_str(alloc, text)?));
        }
        if let CowStr::Shared(shared) = recent {
            return Ok(SharedString::from(shared.clone()?));
        }
        let shared = Arc::new(alloc, String::from_str(alloc, text)?)?;
        *recent = CowStr::from_shared(shared.clone()?);
        Ok(SharedString::from(shared))
    }
}
