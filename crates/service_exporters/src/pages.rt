//! The pages of a recorder.

ghost use Rattle.std.specs.Prelude.{◌≡◌, ◌+◌, ◌<◌, ◌≤◌};
ghost use Rattle.shared_turns.specs.Passes.{view_of};
ghost use Rattle.shared_recorder.specs.Recorder.{IsPass};

use metrics_core::Memory;
use prom_recorder::{PrometheusHandle, PrometheusRecorder};
use scrape_loops::Pages;
use shared_recorder::SharedPass;
use std::alloc::Global;
use std::sync::Wait;

/// What shows the pages of a recorder to one thread: each is an entry of the recorder's one history, behind all that the thread's pass
/// has seen, and the pass has then seen it. So the pages of a thread never go back.
#[derive(Drop)]
pub struct RecorderPages {
    handle: PrometheusHandle,
    pass: SharedPass,
    ghost own: { IsPass handle pass },
}

impl RecorderPages {
    /// The pages of a recorder, by a pass that its root lends.
    pub(crate) fn lent(
        recorder: &PrometheusRecorder,
        root: &mut SharedPass,
    ) -> Result<RecorderPages, Memory>
        requires pass { IsPass recorder.now root.old }
        requires root { (view_of root.old).number ≡ 0 }
        requires few { root.old.splits < 100 }
        ensures pass { IsPass recorder.now root.new }
        ensures root { (view_of root.new).number ≡ 0 }
        ensures splits { root.new.splits ≤ root.old.splits + 1 }
    {
        let handle = recorder.handle()?;
        let pass = recorder.shared().split(root);
        Ok(RecorderPages { handle, pass })
    }
}

impl Pages for RecorderPages {
    ghost use Rattle.shared_turns.specs.Passes.{view_of as the_view};
    ghost use Rattle.service_exporters.specs.Histories.{ShowsPage as A_page, MissesPage as No_page};

    ghost shows = { λ old moment page new. A_page moment page (the_view old.pass) (the_view new.pass) };

    ghost misses = { λ old moment new. No_page moment (the_view old.pass) (the_view new.pass) };

    fn page<R: Wait>(&mut self, rt: &R, alloc: Global, moment: u64) -> Result<String, Memory> {
        self.handle
            .shared()
            .render(rt, alloc, &mut self.pass, moment)
    }
}

/// The pages of a recorder for so many threads.
pub(crate) fn lend_pages(
    alloc: Global,
    recorder: &PrometheusRecorder,
    root: &mut SharedPass,
    count: u32,
) -> Result<Vec<RecorderPages>, Memory>
    requires pass { IsPass recorder.now root.old }
    requires root { (view_of root.old).number ≡ 0 }
    requires few { root.old.splits + count < 100 }
    ensures pass { IsPass recorder.now root.new }
{
    let mut pages = Vec::new(alloc);
    for _lent in 0..count {
        pages.push(RecorderPages::lent(recorder, root)?)?;
    }
    Ok(pages)
}
