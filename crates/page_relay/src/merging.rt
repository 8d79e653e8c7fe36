//! What pages of several exporters become.

ghost use Rattle.std.specs.Prelude.{◌≡◌, [], map, IfOk, IfErr};
ghost use Rattle.page_relay.specs.Gathering.{family_so_far, FamiliesStand, HasPlace, TakesFamily};
ghost use Rattle.page_relay.specs.Merge.{IsMerged};
ghost use Rattle.page_relay.specs.Values.{families_of, family_of, IsMergeFault};

use crate::gathering::{Gathered, place_of, text_of};
use crate::{Family, Page, RelayFault};
use hash_starts::HashStart;
use indexmap::IndexMap;
use metrics_core::Memory;
use std::alloc::Global;

/// Merges the pages of several exporters into one. Families of one name become one family; the values of rows that can be
/// added are added, and the others stand with the number of their page. Names and rows are looked up by hashes from a start, which
/// should be drawn where the pages are a stranger's.
pub fn merge(alloc: Global, start: HashStart, pages: &[Page]) -> Result<Page, RelayFault>
    ensures merged { IfOk result (λ page. IsMerged (map families_of pages.now) (families_of page)) }
    ensures refused { IfErr result (IsMergeFault (map families_of pages.now)) }
{
    let mut merging = Merging::new(alloc, start);
    let mut number = 0;
    for page in pages {
        number += 1;
        for family in &page.families {
            if !merging.add(alloc, number, family)? {
                let name = text_of(alloc, &family.name)?;
                return Err(RelayFault::Conflict { page: number, name });
            }
        }
    }
    Ok(merging.into_page(alloc)?)
}

/// The merged families so far, in order, and at which place the family of each name stands.
#[derive(Drop)]
struct Merging {
    families: Vec<Gathered>,
    places: IndexMap<String, usize, HashStart>,
}

impl Merging {
    /// No family was added yet. Names are looked up by hashes from a start.
    fn new(alloc: Global, start: HashStart) -> Merging
        ensures { FamiliesStand result [] }
    {
        Merging {
            families: Vec::new(alloc),
            places: IndexMap::with_hasher(alloc, start),
        }
    }

    /// Adds a family of a page. Answers whether it merges with those before it.
    fn add(&mut self, alloc: Global, page: u64, family: &Family) -> Result<bool, Memory>
        ensures { IfOk result (TakesFamily self.old self.new
            (record { page = page; family = family_of family.now })) }
    {
        let place = self.place_in(alloc, family)?;
        let Some(same) = self.families.get_mut(place) else {
            return Ok(false);
        };
        same.add(alloc, page, family)
    }

    /// At which place the family stands into which this one is merged. It is made, without rows, where there is none.
    fn place_in(&mut self, alloc: Global, family: &Family) -> Result<usize, Memory>
        ensures { IfOk result (HasPlace self.old self.new (family_of family.now)) }
    {
        let next = self.families.len();
        let place = place_of(&mut self.places, text_of(alloc, &family.name)?, next)?;
        if place == next {
            let name = text_of(alloc, &family.name)?;
            self.families.push(Gathered::new(alloc, *self.places.hasher(), name, family.shape))?;
        }
        Ok(place)
    }

    /// The page of the families.
    fn into_page(self, alloc: Global) -> Result<Page, Memory>
        ensures { IfOk result (λ page. families_of page ≡ map family_so_far self.families.items) }
    {
        let mut families = Vec::new(alloc);
        for family in self.families {
            families.push(family.into_family())?;
        }
        Ok(Page { families })
    }
}
