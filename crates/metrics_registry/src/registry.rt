//! The live series of one state, by kind, and how many were ever made.

ghost use Rattle.std.specs.Prelude.{◌≡◌, ◌+◌, ◌-◌, ◌^◌, ◌<◌, [], length, slice_get, option_map, Some, None, Ok, IsOk, OnOk, IfOk, OnErr, IfErr};
ghost use Rattle.std.specs.Option.{option_copied, option_copied_mut};
ghost use Rattle.std.specs.Borrow.{sem};
ghost use Rattle.metrics_core.specs.declared.kinds.MetricKind.TheVariants.{Counter, Gauge, Histogram};
ghost use Rattle.metrics_registry.specs.Live.{RegistryText, IsNumbered, MadeCounterLast, MadeGaugeLast, MadeHistogramLast, RegistersCounter, RegistersGauge, RegistersHistogram, id_of_key, cell_of, is_live, with_last, without};
ghost use Rattle.metrics_registry.specs.Places.{IsPlace};
ghost use Rattle.metrics_registry.specs.Retained.{Retains};

use crate::columns::{Column, SeriesIter};
use crate::key_list::KeyList;
use hash_starts::HashStart;
use metrics_core::{Key, Memory, MetricKind, SeriesId};
use std::alloc::Global;
use std::marker::Model;

/// The live series of a state: those of each kind in order of registration, each with its id, its key and its cell.
/// Numbers of ids count all series that were ever made in it, whatever their kind. Look-ups by a key take constant time,
/// or, among keys of one hash, logarithmic time; those by an id take logarithmic time.
#[derive(Drop)]
pub struct Registry<C, G, H> {
    counter_keys: KeyList,
    counters: Column<C>,
    gauge_keys: KeyList,
    gauges: Column<G>,
    histogram_keys: KeyList,
    histograms: Column<H>,
    made: u64,
}

impl<C, G, H> Model for Registry<C, G, H> {
    ghost use Rattle.metrics_registry.specs.Live.{RegistryText};

    ghost Value = { RegistryText C G H };

    ghost use Rattle.metrics_registry.specs.StoredRegistry.{registry_of, IsStoredRegistry};

    ghost view = { registry_of };

    ghost invariant = { IsStoredRegistry };
}

impl<C: Drop, G: Drop, H: Drop> Registry<C, G, H> {
    ghost use Rattle.metrics_registry.specs.RegistryLends.{lends_counter, lends_counter_at, lends_gauge, lends_gauge_at, lends_histogram, lends_histogram_at};

    /// No series, and keys are looked up by hashes from the fixed start. It takes no memory until the first is added.
    pub fn new(alloc: Global) -> Result<Registry<C, G, H>, Memory>
        ensures empty { IfOk result (λ registry. registry ≡ record {
          counters = [];
          gauges = [];
          histograms = [];
          made = 0;
        }) }
        ensures no_memory { IsOk result }
    {
        Registry::starting_from(alloc, HashStart::fixed())
    }

    /// No series, and keys are looked up by hashes from a start, which should be drawn where strangers choose the keys. It
    /// takes no memory until the first is added.
    pub fn starting_from(alloc: Global, start: HashStart) -> Result<Registry<C, G, H>, Memory>
        ensures empty { IfOk result (λ registry. registry ≡ record {
          counters = [];
          gauges = [];
          histograms = [];
          made = 0;
        }) }
        ensures no_memory { IsOk result }
    {
        Ok(Registry {
            counter_keys: KeyList::new(alloc, start),
            counters: Column::new(alloc),
            gauge_keys: KeyList::new(alloc, start),
            gauges: Column::new(alloc),
            histogram_keys: KeyList::new(alloc, start),
            histograms: Column::new(alloc),
            made: 0,
        })
    }

    /// Makes room for so many more counters and gauges, so that adding them moves no series.
    pub fn reserve(&mut self, counters: usize, gauges: usize) -> Result<(), Memory>
        ensures same { self.new ≡ self.old }
    {
        self.counters.reserve(&mut self.counter_keys, counters)?;
        self.gauges.reserve(&mut self.gauge_keys, gauges)
    }

    /// How many series were ever made.
    pub fn made(&self) -> u64
        ensures made { result ≡ self.now.made }
        ensures numbered { IsNumbered self.now }
    {
        self.made
    }

    /// How many series are live, of all kinds.
    pub fn count(&self) -> usize
        ensures { result ≡ length self.now.counters +
            (length self.now.gauges + length self.now.histograms) }
    {
        // That the sum is in range needs the slices, whose keys take room in memory.
        self.counter_keys.as_slice().len()
            + (self.gauge_keys.as_slice().len() + self.histogram_keys.as_slice().len())
    }

    /// The id of the live counter with an equal key.
    pub fn find_counter(&self, key: &Key) -> Option<SeriesId>
        ensures { result ≡ id_of_key key.now self.now.counters }
    {
        self.counters.find(&self.counter_keys, key)
    }

    /// Makes a counter, which goes last. Where memory is refused, key and cell come back and nothing changed.
    pub fn add_counter(&mut self, key: Key, cell: C) -> Result<SeriesId, (Key, C)>
        requires new { id_of_key key self.old.counters ≡ None }
        requires room { self.old.made < 2 ^ 64 - 1 }
        ensures added { IfOk result (λ id. self.new ≡ record self.old {
          counters = with_last self.old.counters id key cell;
          made = self.old.made + 1;
        }) }
        ensures id { IfOk result (λ id. id ≡ record { kind = Counter; number = self.old.made }) }
        ensures refused { OnErr result (self.new ≡ self.old) }
        ensures returned { IfErr result (λ parts. parts ≡ (key, cell)) }
    {
        let id = SeriesId {
            kind: MetricKind::Counter,
            number: self.made,
        };
        match self.counters.add(&mut self.counter_keys, key, id, cell) {
            Ok(()) => {
                self.made += 1;
                Ok(id)
            }
            Err(parts) => Err(parts),
        }
    }

    /// The id of the live counter with an equal key. Where there is none, one is made, which goes last under this key; the key is
    /// looked up once. Where it can't be made, or memory is refused, nothing changes.
    pub fn register_counter<F: FnOnce() -> Result<C, Memory>>(
        &mut self,
        key: Key,
        make: F,
    ) -> Result<SeriesId, Memory>
        requires room { self.old.made < 2 ^ 64 - 1 }
        requires callable { F.pre make }
        ensures registered { IfOk result (λ id.
            RegistersCounter (λ cell. F.post make (Ok cell)) key id self.old self.new) }
        ensures absent { OnErr result (id_of_key key self.old.counters ≡ None) }
        ensures refused { OnErr result (self.new ≡ self.old) }
    {
        let id = SeriesId {
            kind: MetricKind::Counter,
            number: self.made,
        };
        let given = self
            .counters
            .register(&mut self.counter_keys, key, id, make)?;
        if given.number == self.made {
            self.made += 1;
        }
        Ok(given)
    }

    /// Takes the counter back that was made last, as if it had never been made.
    pub fn take_back_counter(&mut self)
        requires { (before : RegistryText C G H) × MadeCounterLast before self.old }
        ensures { (before : RegistryText C G H) → MadeCounterLast before self.old
            → self.new ≡ before }
    {
        self.counters.take_back(&mut self.counter_keys);
        self.made -= 1;
    }

    /// The cell of a live counter. It is `None` exactly where no counter with the id is live.
    pub fn get_counter(&self, id: SeriesId) -> Option<&C>
        ensures { option_copied result ≡ cell_of id self.now.counters }
    {
        self.counters.get(id)
    }

    /// The cell of a live counter, to write. It is `None` exactly where no counter with the id is live.
    pub fn get_counter_mut(&mut self, id: SeriesId) -> Option<&mut C>
        ensures* writes_back { sem 𝓛 (lends_counter C.row G.row H.row self.entry id result) }
        ensures value { option_copied_mut result ≡ cell_of id self.old.counters }
        ensures numbered { IsNumbered self.old }
    {
        match self.place_of_counter(id) {
            Some(place) => Some(self.counter_at(place)),
            None => None,
        }
    }

    /// How many counters are live. The numbers of counters and of gauges together are below 2^64.
    pub fn counter_count(&self) -> usize
        ensures count { result ≡ length self.now.counters }
        ensures room { length self.now.counters + length self.now.gauges < 2 ^ 64 }
    {
        // The clause on gauges needs their number.
        let _gauges = self.gauge_keys.len();
        self.counter_keys.len()
    }

    /// The place of a live counter among them, from 0. It is `None` exactly where none with the id is live.
    pub fn place_of_counter(&self, id: SeriesId) -> Option<usize>
        ensures place { IsPlace id self.now.counters result }
        ensures numbered { IsNumbered self.now }
    {
        self.counters.place(id)
    }

    /// The cell of the counter at a place, from 0, to write.
    pub fn counter_at(&mut self, place: usize) -> &mut C
        requires { place < length self.old.counters }
        ensures* writes_back { sem 𝓛 (lends_counter_at C.row G.row H.row self.entry place result) }
        ensures value { option_map (λ series. series.cell)
            (slice_get self.old.counters place) ≡ Some result.now }
    {
        self.counters.cell_mut(place)
    }

    /// Removes a counter; the others keep their order. Answers false exactly where none with the id is live. It takes time
    /// linear in the number of live series: `retain_counters` removes many at once.
    pub fn delete_counter(&mut self, id: SeriesId) -> bool
        ensures was_live { result ≡ is_live id self.old.counters }
        ensures rest { self.new ≡ record self.old { counters = without id self.old.counters } }
    {
        self.counters.delete(&mut self.counter_keys, id)
    }

    /// Keeps the counters for which a test holds, in one pass and in their order. The test may change the cells.
    pub fn retain_counters<F: FnMut(SeriesId, &mut C) -> bool>(&mut self, keep: F)
        requires { F.IsAlwaysCallable keep }
        ensures retained { (last : F) × Retains F.FnMut keep self.old.counters self.new.counters
            last }
        ensures others { self.new ≡ record self.old { counters = self.new.counters } }
    {
        self.counters.retain(&mut self.counter_keys, keep);
    }

    /// The live counters, in order of registration.
    pub fn counters(&self) -> SeriesIter<'_, C>
        ensures { result ≡ self.now.counters }
    {
        self.counters.iter(&self.counter_keys)
    }

    /// The id of the live gauge with an equal key.
    pub fn find_gauge(&self, key: &Key) -> Option<SeriesId>
        ensures { result ≡ id_of_key key.now self.now.gauges }
    {
        self.gauges.find(&self.gauge_keys, key)
    }

    /// Makes a gauge, which goes last. Where memory is refused, key and cell come back and nothing changed.
    pub fn add_gauge(&mut self, key: Key, cell: G) -> Result<SeriesId, (Key, G)>
        requires new { id_of_key key self.old.gauges ≡ None }
        requires room { self.old.made < 2 ^ 64 - 1 }
        ensures added { IfOk result (λ id. self.new ≡ record self.old {
          gauges = with_last self.old.gauges id key cell;
          made = self.old.made + 1;
        }) }
        ensures id { IfOk result (λ id. id ≡ record { kind = Gauge; number = self.old.made }) }
        ensures refused { OnErr result (self.new ≡ self.old) }
        ensures returned { IfErr result (λ parts. parts ≡ (key, cell)) }
    {
        let id = SeriesId {
            kind: MetricKind::Gauge,
            number: self.made,
        };
        match self.gauges.add(&mut self.gauge_keys, key, id, cell) {
            Ok(()) => {
                self.made += 1;
                Ok(id)
            }
            Err(parts) => Err(parts),
        }
    }

    /// The id of the live gauge with an equal key, or else of a new one, as `register_counter` makes a counter.
    pub fn register_gauge<F: FnOnce() -> Result<G, Memory>>(
        &mut self,
        key: Key,
        make: F,
    ) -> Result<SeriesId, Memory>
        requires room { self.old.made < 2 ^ 64 - 1 }
        requires callable { F.pre make }
        ensures registered { IfOk result (λ id.
            RegistersGauge (λ cell. F.post make (Ok cell)) key id self.old self.new) }
        ensures absent { OnErr result (id_of_key key self.old.gauges ≡ None) }
        ensures refused { OnErr result (self.new ≡ self.old) }
    {
        let id = SeriesId {
            kind: MetricKind::Gauge,
            number: self.made,
        };
        let given = self.gauges.register(&mut self.gauge_keys, key, id, make)?;
        if given.number == self.made {
            self.made += 1;
        }
        Ok(given)
    }

    /// Takes the gauge back that was made last, as if it had never been made.
    pub fn take_back_gauge(&mut self)
        requires { (before : RegistryText C G H) × MadeGaugeLast before self.old }
        ensures { (before : RegistryText C G H) → MadeGaugeLast before self.old
            → self.new ≡ before }
    {
        self.gauges.take_back(&mut self.gauge_keys);
        self.made -= 1;
    }

    /// The cell of a live gauge. It is `None` exactly where no gauge with the id is live.
    pub fn get_gauge(&self, id: SeriesId) -> Option<&G>
        ensures { option_copied result ≡ cell_of id self.now.gauges }
    {
        self.gauges.get(id)
    }

    /// The cell of a live gauge, to write. It is `None` exactly where no gauge with the id is live.
    pub fn get_gauge_mut(&mut self, id: SeriesId) -> Option<&mut G>
        ensures* writes_back { sem 𝓛 (lends_gauge C.row G.row H.row self.entry id result) }
        ensures value { option_copied_mut result ≡ cell_of id self.old.gauges }
        ensures numbered { IsNumbered self.old }
    {
        match self.place_of_gauge(id) {
            Some(place) => Some(self.gauge_at(place)),
            None => None,
        }
    }

    /// How many gauges are live.
    pub fn gauge_count(&self) -> usize
        ensures { result ≡ length self.now.gauges }
    {
        self.gauge_keys.len()
    }

    /// The place of a live gauge among them, from 0. It is `None` exactly where none with the id is live.
    pub fn place_of_gauge(&self, id: SeriesId) -> Option<usize>
        ensures place { IsPlace id self.now.gauges result }
        ensures numbered { IsNumbered self.now }
    {
        self.gauges.place(id)
    }

    /// The cell of the gauge at a place, from 0, to write.
    pub fn gauge_at(&mut self, place: usize) -> &mut G
        requires { place < length self.old.gauges }
        ensures* writes_back { sem 𝓛 (lends_gauge_at C.row G.row H.row self.entry place result) }
        ensures value { option_map (λ series. series.cell)
            (slice_get self.old.gauges place) ≡ Some result.now }
    {
        self.gauges.cell_mut(place)
    }

    /// Removes a gauge; the others keep their order. Answers false exactly where none with the id is live. It takes time
    /// linear in the number of live series: `retain_gauges` removes many at once.
    pub fn delete_gauge(&mut self, id: SeriesId) -> bool
        ensures was_live { result ≡ is_live id self.old.gauges }
        ensures rest { self.new ≡ record self.old { gauges = without id self.old.gauges } }
    {
        self.gauges.delete(&mut self.gauge_keys, id)
    }

    /// Keeps the gauges for which a test holds, in one pass and in their order. The test may change the cells.
    pub fn retain_gauges<F: FnMut(SeriesId, &mut G) -> bool>(&mut self, keep: F)
        requires { F.IsAlwaysCallable keep }
        ensures retained { (last : F) × Retains F.FnMut keep self.old.gauges self.new.gauges last }
        ensures others { self.new ≡ record self.old { gauges = self.new.gauges } }
    {
        self.gauges.retain(&mut self.gauge_keys, keep);
    }

    /// The live gauges, in order of registration.
    pub fn gauges(&self) -> SeriesIter<'_, G>
        ensures { result ≡ self.now.gauges }
    {
        self.gauges.iter(&self.gauge_keys)
    }

    /// The id of the live histogram with an equal key.
    pub fn find_histogram(&self, key: &Key) -> Option<SeriesId>
        ensures { result ≡ id_of_key key.now self.now.histograms }
    {
        self.histograms.find(&self.histogram_keys, key)
    }

    /// Makes a histogram, which goes last. Where memory is refused, key and cell come back and nothing changed.
    pub fn add_histogram(&mut self, key: Key, cell: H) -> Result<SeriesId, (Key, H)>
        requires new { id_of_key key self.old.histograms ≡ None }
        requires room { self.old.made < 2 ^ 64 - 1 }
        ensures added { IfOk result (λ id. self.new ≡ record self.old {
          histograms = with_last self.old.histograms id key cell;
          made = self.old.made + 1;
        }) }
        ensures id { IfOk result (λ id. id ≡ record { kind = Histogram; number = self.old.made }) }
        ensures refused { OnErr result (self.new ≡ self.old) }
        ensures returned { IfErr result (λ parts. parts ≡ (key, cell)) }
    {
        let id = SeriesId {
            kind: MetricKind::Histogram,
            number: self.made,
        };
        match self.histograms.add(&mut self.histogram_keys, key, id, cell) {
            Ok(()) => {
                self.made += 1;
                Ok(id)
            }
            Err(parts) => Err(parts),
        }
    }

    /// The id of the live histogram with an equal key, or else of a new one, as `register_counter` makes a counter.
    pub fn register_histogram<F: FnOnce() -> Result<H, Memory>>(
        &mut self,
        key: Key,
        make: F,
    ) -> Result<SeriesId, Memory>
        requires room { self.old.made < 2 ^ 64 - 1 }
        requires callable { F.pre make }
        ensures registered { IfOk result (λ id.
            RegistersHistogram (λ cell. F.post make (Ok cell)) key id self.old self.new) }
        ensures absent { OnErr result (id_of_key key self.old.histograms ≡ None) }
        ensures refused { OnErr result (self.new ≡ self.old) }
    {
        let id = SeriesId {
            kind: MetricKind::Histogram,
            number: self.made,
        };
        let given = self
            .histograms
            .register(&mut self.histogram_keys, key, id, make)?;
        if given.number == self.made {
            self.made += 1;
        }
        Ok(given)
    }

    /// Takes the histogram back that was made last, as if it had never been made.
    pub fn take_back_histogram(&mut self)
        requires { (before : RegistryText C G H) × MadeHistogramLast before self.old }
        ensures { (before : RegistryText C G H) → MadeHistogramLast before self.old
            → self.new ≡ before }
    {
        self.histograms.take_back(&mut self.histogram_keys);
        self.made -= 1;
    }

    /// The cell of a live histogram. It is `None` exactly where no histogram with the id is live.
    pub fn get_histogram(&self, id: SeriesId) -> Option<&H>
        ensures { option_copied result ≡ cell_of id self.now.histograms }
    {
        self.histograms.get(id)
    }

    /// The cell of a live histogram, to write. It is `None` exactly where no histogram with the id is live.
    pub fn get_histogram_mut(&mut self, id: SeriesId) -> Option<&mut H>
        ensures* writes_back { sem 𝓛 (lends_histogram C.row G.row H.row self.entry id result) }
        ensures value { option_copied_mut result ≡ cell_of id self.old.histograms }
        ensures numbered { IsNumbered self.old }
    {
        match self.place_of_histogram(id) {
            Some(place) => Some(self.histogram_at(place)),
            None => None,
        }
    }

    /// How many histograms are live.
    pub fn histogram_count(&self) -> usize
        ensures { result ≡ length self.now.histograms }
    {
        self.histogram_keys.len()
    }

    /// The place of a live histogram among them, from 0. It is `None` exactly where none with the id is live.
    pub fn place_of_histogram(&self, id: SeriesId) -> Option<usize>
        ensures place { IsPlace id self.now.histograms result }
        ensures numbered { IsNumbered self.now }
    {
        self.histograms.place(id)
    }

    /// The cell of the histogram at a place, from 0, to write.
    pub fn histogram_at(&mut self, place: usize) -> &mut H
        requires { place < length self.old.histograms }
        ensures* writes_back { sem 𝓛 (lends_histogram_at C.row G.row H.row self.entry place result) }
        ensures value { option_map (λ series. series.cell)
            (slice_get self.old.histograms place) ≡ Some result.now }
    {
        self.histograms.cell_mut(place)
    }

    /// Removes a histogram; the others keep their order. Answers false exactly where none with the id is live. It takes time
    /// linear in the number of live series: `retain_histograms` removes many at once.
    pub fn delete_histogram(&mut self, id: SeriesId) -> bool
        ensures was_live { result ≡ is_live id self.old.histograms }
        ensures rest { self.new ≡ record self.old { histograms = without id self.old.histograms } }
    {
        self.histograms.delete(&mut self.histogram_keys, id)
    }

    /// Keeps the histograms for which a test holds, in one pass and in their order. The test may change the cells.
    pub fn retain_histograms<F: FnMut(SeriesId, &mut H) -> bool>(&mut self, keep: F)
        requires { F.IsAlwaysCallable keep }
        ensures retained { (last : F) × Retains F.FnMut keep self.old.histograms self.new.histograms
            last }
        ensures others { self.new ≡ record self.old { histograms = self.new.histograms } }
    {
        self.histograms.retain(&mut self.histogram_keys, keep);
    }

    /// The live histograms, in order of registration.
    pub fn histograms(&self) -> SeriesIter<'_, H>
        ensures { result ≡ self.now.histograms }
    {
        self.histograms.iter(&self.histogram_keys)
    }
}
