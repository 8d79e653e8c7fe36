//! The pages so far, and whether one more line may stand behind them.

ghost use Rattle.std.specs.Prelude.{◌≡◌, ◌≢◌, [], map, flat_map, IfOk, MatchOption, IsUtf8, string_bytes};
ghost use Rattle.prom_format.specs.Pages.{page_text};
ghost use Rattle.page_relay.specs.Fitting.{IsSound, Start, Fits, FitsBetween, Helped, IsNext, text_so_far, place_of, place_in_rows, so_far, parts_so_far};
ghost use Rattle.page_relay.specs.Values.{families_of, family_of};
ghost use Rattle.page_relay.specs.declared.progress.Begun.TheVariants as opened;

use crate::lines::{read_help_line, read_row, read_type_line};
use crate::{Family, Page};
use metrics_core::Memory;
use std::alloc::Global;

/// The whole pages, the whole families of the page that isn't, and what is open of the next family.
#[derive(Drop)]
pub(crate) struct PagesSoFar {
    pages: Vec<Page>,
    families: Vec<Family>,
    begun: Begun,
}

/// What is open of a family.
#[derive(Drop)]
pub(crate) enum Begun {
    /// Nothing.
    Between,
    /// Its help line was read.
    Helped { name: String, help: String },
    /// Its type line was read, and maybe some rows.
    Block(Family),
}

impl PagesSoFar {
    /// No line was read yet.
    pub(crate) fn new(alloc: Global) -> PagesSoFar
        ensures sound { IsSound (so_far result) }
        ensures nothing { text_so_far (so_far result) ≡ [] }
        ensures place { place_of (so_far result) ≡ Start }
    {
        PagesSoFar {
            pages: Vec::new(alloc),
            families: Vec::new(alloc),
            begun: Begun::Between,
        }
    }

    /// Takes the next line, or answers `None` where it may not stand here.
    pub(crate) fn take_line(self, alloc: Global, line: &[u8]) -> Result<Option<PagesSoFar>, Memory>
        ensures { IsSound (so_far self)
            → IfOk result (IsNext (IsUtf8 line.now × Fits (place_of (so_far self)) line.now) (so_far self) line.now) }
    {
        if str::from_utf8(line).is_err() {
            return Ok(None);
        }
        let PagesSoFar {
            pages,
            families,
            begun,
        } = self;
        match begun {
            Begun::Between => begin_block(alloc, pages, families, line),
            Begun::Helped { name, help } => type_block(alloc, pages, families, name, help, line),
            Begun::Block(family) => grow_block(alloc, pages, families, family, line),
        }
    }

    /// The pages, where none is open.
    pub(crate) fn into_pages(self) -> Option<Vec<Page>>
        ensures whole { MatchOption result (place_of (so_far self) ≢ Start)
            (λ pages. text_so_far (so_far self) ≡ flat_map page_text (map families_of pages.items)) }
        ensures pages { MatchOption result (place_of (so_far self) ≢ Start)
            (λ pages. pages ≡ self.pages) }
    {
        if !self.families.is_empty() {
            return None;
        }
        match self.begun {
            Begun::Between => Some(self.pages),
            Begun::Helped { .. } | Begun::Block(_) => None,
        }
    }
}

/// The line ends the page, or it is the first line of a block.
fn begin_block(
    alloc: Global,
    mut pages: Vec<Page>,
    families: Vec<Family>,
    line: &[u8],
) -> Result<Option<PagesSoFar>, Memory>
    ensures { IsUtf8 line.now → IsSound (parts_so_far pages.items families.items opened.Between)
        → IfOk result (IsNext (FitsBetween line.now)
        (parts_so_far pages.items families.items opened.Between) line.now) }
{
    if line == b"# EOF".as_slice() {
        pages.push(Page { families })?;
        return Ok(Some(PagesSoFar {
            pages,
            families: Vec::new(alloc),
            begun: Begun::Between,
        }));
    }
    if let Some((name, help)) = read_help_line(alloc, line)? {
        let begun = Begun::Helped { name, help };
        return Ok(Some(PagesSoFar {
            pages,
            families,
            begun,
        }));
    }
    if let Some((name, shape)) = read_type_line(alloc, line)? {
        let begun = Begun::Block(Family {
            help: None,
            name,
            shape,
            rows: Vec::new(alloc),
        });
        return Ok(Some(PagesSoFar {
            pages,
            families,
            begun,
        }));
    }
    Ok(None)
}

/// The line is the type line of the family that has help.
fn type_block(
    alloc: Global,
    pages: Vec<Page>,
    families: Vec<Family>,
    name: String,
    help: String,
    line: &[u8],
) -> Result<Option<PagesSoFar>, Memory>
    ensures { IsUtf8 line.now
        → IsSound (parts_so_far pages.items families.items (opened.Helped name help))
        → IfOk result (IsNext (Fits (Helped (string_bytes name)) line.now)
        (parts_so_far pages.items families.items (opened.Helped name help)) line.now) }
{
    let Some((typed, shape)) = read_type_line(alloc, line)? else {
        return Ok(None);
    };
    if typed.as_str() != name.as_str() {
        return Ok(None);
    }
    let begun = Begun::Block(Family {
        help: Some(help),
        name,
        shape,
        rows: Vec::new(alloc),
    });
    Ok(Some(PagesSoFar {
        pages,
        families,
        begun,
    }))
}

/// The line is one more row of the family, or the empty line behind its rows.
fn grow_block(
    alloc: Global,
    pages: Vec<Page>,
    mut families: Vec<Family>,
    mut family: Family,
    line: &[u8],
) -> Result<Option<PagesSoFar>, Memory>
    ensures { IsUtf8 line.now
        → IsSound (parts_so_far pages.items families.items (opened.Block family))
        → IfOk result (IsNext (Fits (place_in_rows (family_of family).rows) line.now)
        (parts_so_far pages.items families.items (opened.Block family)) line.now) }
{
    if line.is_empty() && !family.rows.is_empty() {
        families.push(family)?;
        return Ok(Some(PagesSoFar {
            pages,
            families,
            begun: Begun::Between,
        }));
    }
    let Some(row) = read_row(alloc, line)? else {
        return Ok(None);
    };
    family.rows.push(row)?;
    Ok(Some(PagesSoFar {
        pages,
        families,
        begun: Begun::Block(family),
    }))
}
