//! A counter with an idle timeout, while a pass of it is out: it falls idle, or is called between two pages.

ghost use Rattle.std.specs.Prelude.{◌≡◌};
ghost use Rattle.metrics_facade.specs.Handles.{Fits};
ghost use Rattle.series_cells.specs.Pass.{IsCounterPass};

use metrics_core::{Key, SeriesId};
use metrics_registry::MetricKindMask;
use page_texts::Render;
use prom_exporter::{PrometheusBuilder, PrometheusState};
use prom_recorder::LentCounter;
use std::alloc::Global;
use std::sync::Wait;
use std::test::Fail;

/// Whether the page at a moment is this.
fn shows<R: Wait>(
    rt: &R,
    alloc: Global,
    state: &mut PrometheusState,
    moment: u64,
    page: &str,
) -> Result<bool, Fail> {
    Ok(state.render(rt, alloc, moment)?.as_str() == page)
}

/// Counts once more on a counter that is gone, gives it back, and says whether it stays gone.
fn stays_gone(
    alloc: Global,
    state: &mut PrometheusState,
    id: SeriesId,
    mut lent: LentCounter,
) -> Result<bool, Fail>
    requires id { lent.id ≡ id }
    requires pass { Fits IsCounterPass lent.handle lent.pass }
{
    match state.lend_counter(alloc, id)? {
        Some(_) => Ok(false),
        None => {
            lent.handle.increment(&mut lent.pass, 1);
            state.give_back_counter(lent);
            Ok(state.lend_counter(alloc, id)?.is_none())
        }
    }
}

/// Whether a counter that falls idle under a pass is gone, takes nothing of that pass, and begins anew.
fn begins_anew<R: Wait>(rt: &R, alloc: Global, state: &mut PrometheusState) -> Result<bool, Fail> {
    let id = state.register_counter(alloc, &Key::from_static_name("c"))?;
    let Some(mut lent) = state.lend_counter(alloc, id)? else {
        return Ok(false);
    };
    lent.handle.increment(&mut lent.pass, 5);
    let counted = shows(rt, alloc, state, 0, "# TYPE c counter\nc 5\n\n")?;
    let gone = shows(rt, alloc, state, 6, "")?;
    let stays_gone = stays_gone(alloc, state, id, lent)? && shows(rt, alloc, state, 7, "")?;
    let again = state.register_counter(alloc, &Key::from_static_name("c"))?;
    let anew = shows(rt, alloc, state, 8, "# TYPE c counter\nc 0\n\n")?;
    Ok(counted && gone && stays_gone && again.number == 1 && anew)
}

/// Whether a counter that is called under its pass between two pages stays, is shown with the call, and goes once no more come.
fn stays_while_called<R: Wait>(
    rt: &R,
    alloc: Global,
    state: &mut PrometheusState,
) -> Result<bool, Fail> {
    let id = state.register_counter(alloc, &Key::from_static_name("c"))?;
    let Some(mut lent) = state.lend_counter(alloc, id)? else {
        return Ok(false);
    };
    lent.handle.increment(&mut lent.pass, 5);
    let counted = shows(rt, alloc, state, 0, "# TYPE c counter\nc 5\n\n")?;
    lent.handle.increment(&mut lent.pass, 2);
    let stays = shows(rt, alloc, state, 6, "# TYPE c counter\nc 7\n\n")?;
    let still = shows(rt, alloc, state, 11, "# TYPE c counter\nc 7\n\n")?;
    let gone = shows(rt, alloc, state, 12, "")?;
    Ok(counted && stays && still && gone)
}

/// Which of the two is played.
#[derive(Drop)]
enum Play {
    FallsIdle,
    IsCalled,
}

/// Whether it holds of a new exporter with a timeout of 5. Here alone an exporter is dropped.
fn holds<R: Wait>(rt: &R, alloc: Global, play: Play) -> Result<bool, Fail> {
    let mut state = PrometheusBuilder::new(alloc)?
        .idle_timeout(MetricKindMask::COUNTER, Some(5))
        .build_state(alloc)?;
    let holds = match play {
        Play::FallsIdle => begins_anew(rt, alloc, &mut state),
        Play::IsCalled => stays_while_called(rt, alloc, &mut state),
    };
    state.end(rt);
    holds
}

#[test]
fn an_idle_counter_takes_nothing_of_its_pass(rt: HostRuntime) -> Result<(), Fail> {
    assert!(rt; holds(&rt, rt.alloc(), Play::FallsIdle)?);
    Ok(())
}

#[test]
fn a_counter_that_is_called_between_pages_stays(rt: HostRuntime) -> Result<(), Fail> {
    assert!(rt; holds(&rt, rt.alloc(), Play::IsCalled)?);
    Ok(())
}
