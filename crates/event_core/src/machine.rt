//! The core and its parts. What each event makes of them is in the files beside this one.
ghost use Rattle.std.specs.Prelude.{◌≡◌, ◌↔◌, ◌+◌, ◌*◌, ◌<◌, ◌≤◌, IsTrue, false, ℕ, length, map, find, option_map, replicate, [], Some, None, IfOk, IsSome};
ghost use Rattle.std.specs.Option.{option_map_or};
ghost use Rattle.bit_words.specs.Sets.{Has};
ghost use Rattle.query_meaning.specs.Keyed.{plain};
ghost use Rattle.query_meaning.specs.Store.{empty_store};
ghost use Rattle.pipeline_manager.specs.Conditions.{is_open};
ghost use Rattle.pipeline_manager.specs.Lives.{life_of};
ghost use Rattle.pipeline_manager.specs.declared.life.SlotState.TheVariants.{Free};
ghost use Rattle.continuous_scan.specs.Range.{new_scan};
ghost use Rattle.core_state.specs.Settings.{AreWithin, frames_of};
ghost use Rattle.core_state.specs.Sound.{IsSound, empty_core};
ghost use Rattle.core_state.specs.Submitting.{seat_at};
ghost use Rattle.core_state.specs.Tables.{tables_of};
ghost use Rattle.core_parts.specs.Filters.{tally_at};
ghost use Rattle.event_core.specs.CoreParts.{beside_of, first_beside};
ghost use Rattle.event_core.specs.Replies.{first_open};
ghost use Rattle.event_core.specs.Seen.{state_of};

use crate::laws_of_core::a_new_core_is_empty;
use crate::logged::Logged;
use crate::marks::Marks;
use continuous_scan::Scan;
use core_parts::{Filters, Flights, Queries, Seat, Spares};
use core_state::RunSettings;
use dimension_filter::DropTally;
use frame_pool::Pool;
use pipeline_manager::{Life, Manager, has};
use shared_distributor::SharedDistributor;
use star_plan::Schema;
use star_store::{Store, Tables};
use star_values::{ListOf, NoMemory, Trail};
use std::alloc::Global;
use std::hash::RandomState;
use std::marker::Model;

/// The core of the shared scan: the tables, the queries that were asked of them, and the scan that
/// gives rows to those that run.
#[derive(Debug)]
pub struct Core {
    pub(crate) alloc: Global,

    /// What keys of rows and of groups are hashed by. Nothing that is seen depends on it.
    pub(crate) hash_keys: RandomState,
    pub(crate) settings: RunSettings,
    /// The tables, of which a share is lent with each batch that is folded outside.
    pub(crate) tables: Tables,

    /// The kinds of the changes that led to the tables. They are told of alone, and have no bytes.
    pub(crate) log: Trail<Logged>,
    pub(crate) seats: ListOf<Seat>,

    /// The accepted queries. Their numbers rise. Those that were handed on have begun, and those
    /// that were let go are over.
    pub(crate) asked: Queries,

    /// Their lives, and which of them holds which slot.
    pub(crate) manager: Manager,
    pub(crate) filters: Filters,

    /// For each filter and each seat a reference to the present version, while it
    /// is not in the seat's hand.
    pub(crate) spares: Spares,
    pub(crate) scan: Scan,

    /// At the slot of each query that runs or is ending, the groups of its rows, of which
    /// some may be out with seats.
    pub(crate) distributor: SharedDistributor,
    pub(crate) flights: Flights,

    /// The frames that no batch is in.
    pub(crate) pool: Pool,

    /// How many positions were cut in all. It stays at its greatest value.
    pub(crate) cut: u64,

    /// The last numbers that were given.
    pub(crate) last_statement: u64,
    pub(crate) last_batch: u64,
    pub(crate) last_version: u64,

    /// What no event reads or changes.
    pub(crate) marks: Marks,
}

impl Model for Core {
    ghost use Rattle.std.specs.Prelude.{◌≡◌, length};
    ghost use Rattle.event_core.specs.CoreParts.{AreBacked, CoreParts, beside_of, parts_by};
    ghost use Rattle.event_core.specs.Core.{IsCore, HasRoom};
    ghost use Rattle.event_core.specs.Spared.{AreSpare};
    ghost use Rattle.core_parts.specs.Asked.{AreFinished};

    ghost Value = { CoreParts };

    ghost use Rattle.star_plan.specs.contracts.star_query.StarQuery as star_query;
    ghost use Rattle.std.specs.Coded.{codes};

    ghost coded = { Prim.hlevel (codes, star_query.the_row.coded) };

    ghost view = { λ core.
        parts_by core.settings core.tables core.log core.seats
        core.asked core.manager core.filters core.scan
        core.distributor core.flights core.pool core.cut
        core.last_statement core.last_batch core.last_version core.marks };

    ghost invariant = { λ core.
        IsCore (parts_by core.settings core.tables core.log
        core.seats core.asked core.manager core.filters core.scan
        core.distributor core.flights core.pool core.cut
        core.last_statement core.last_batch core.last_version core.marks)
        × HasRoom core.settings core.flights × AreFinished core.manager core.asked
        × AreSpare core.settings.seats core.filters.versions core.flights.items core.spares
        × AreBacked (beside_of (parts_by core.settings core.tables
        core.log core.seats core.asked core.manager core.filters core.scan
        core.distributor core.flights core.pool core.cut
        core.last_statement core.last_batch core.last_version core.marks))
        × (length core.distributor.out ≡ core.settings.seats) };
}

/// By hand, so that a core goes by one call, wherever it falls, and the crates above prove nothing
/// of its parts: a derived drop is proved anew in each of them, with those of all parts.
impl Drop for Core {
    fn drop(self) {
        let Self {
            alloc: _,
            hash_keys: _,
            settings: _,
            tables,
            log,
            seats,
            asked,
            manager,
            filters,
            spares,
            scan,
            distributor,
            flights,
            pool,
            cut: _,
            last_statement: _,
            last_batch: _,
            last_version: _,
            marks: _,
        } = self;
        drop(tables);
        drop(log);
        drop(seats);
        drop(asked);
        drop(manager);
        drop(filters);
        drop(spares);
        drop(scan);
        drop(distributor);
        drop(flights);
        drop(pool);
    }
}

impl Core {
    /// A core of these settings, with no tables, which hashes by these keys. All frames are made.
    pub fn new(
        alloc: Global,
        hash_keys: RandomState,
        settings: RunSettings,
    ) -> Result<Core, NoMemory>
        requires { AreWithin settings }
        ensures state { IfOk result (λ core. state_of core ≡ empty_core settings) }
        ensures beside { IfOk result (λ core. beside_of core ≡ first_beside settings.seats) }
    {
        a_new_core_is_empty();
        // All that may find no memory comes first: each `?` takes down again
        // what was made before it.
        let seats = empty_seats(alloc, settings.seats)?;
        let (flights, pool) = free_frames(alloc, settings)?;
        let (manager, scan, distributor) = free_slots(alloc, hash_keys, settings)?;
        let tables = no_tables(alloc, hash_keys)?;
        Ok(Core {
            alloc,
            hash_keys,
            settings,
            tables,
            log: Trail::new(),
            seats,
            asked: Queries::new(alloc),
            manager,
            filters: Filters::new(alloc),
            spares: Spares::new(alloc),
            scan,
            distributor,
            flights,
            pool,
            cut: 0,
            last_statement: 0,
            last_batch: 0,
            last_version: 0,
            marks: Marks {
                closing: false,
                distributed: 0,
                waiting: false,
            },
        })
    }

    /// The life of a query, or `None` where no query has this number.
    pub fn life(&self, query: u64) -> Option<Life>
        ensures life { result ≡ life_of (state_of self.now).lives query }
        ensures sound { IsSound (state_of self.now) }
    {
        self.manager.life(query)
    }

    /// Whether there is a seat of this number.
    pub fn has_seat(&self, seat: u32) -> bool
        ensures { IsTrue result ↔ (seat < length (state_of self.now).seats) }
    {
        (seat as usize) < self.seats.len()
    }

    /// The seat's earliest query that is Waiting, Building, Running or Ending. A seat
    /// that is not there has none.
    pub fn first_pending(&self, seat: u32) -> Option<u64>
        ensures { result ≡ first_open (state_of self.now).lives (seat_at (state_of self.now) seat) }
    {
        if self.has_seat(seat) {
            self.first_open_of(seat)
        } else {
            None
        }
    }

    /// The earliest query of a seat that is there.
    fn first_open_of(&self, seat: u32) -> Option<u64>
        requires { seat < length (state_of self.now).seats }
        ensures { result ≡ first_open (state_of self.now).lives (seat_at (state_of self.now) seat) }
    {
        self.seats.as_slice()[seat as usize].first_open(&self.manager)
    }

    /// Whether a dimension has a filter.
    pub fn is_filter(&self, dimension: u8) -> bool
        ensures { IsTrue result ↔ Has (state_of self.now).lives.filters dimension }
    {
        has(self.manager.filters(), dimension)
    }

    /// What the filter of a dimension did so far. The dimension has a filter.
    pub fn tally(&self, dimension: u8) -> DropTally
        requires { Has (state_of self.now).lives.filters dimension }
        ensures { Some result ≡ tally_at (state_of self.now).filters dimension }
    {
        self.filters.tally(dimension)
    }

    /// The schema of the tables.
    pub fn schema(&self) -> &Schema
        ensures { result.now ≡ (tables_of (state_of self.now)).schema }
    {
        self.tables.store().schema()
    }

    /// How many commits there were.
    pub fn commits(&self) -> u64
        ensures { result ≡ (tables_of (state_of self.now)).commits }
    {
        self.tables.store().commits()
    }

    /// How many batches are idle or in a hand.
    pub fn batch_count(&self) -> u32
        ensures { result ≡ length (state_of self.now).scan.flights }
    {
        self.flights.as_slice().len() as u32
    }

    /// How many positions all cuts held together. It stays at its greatest value.
    pub fn positions_cut(&self) -> u64
        ensures { result ≡ (state_of self.now).scan.cut }
    {
        self.cut
    }
}

/// No tables yet, of which there is one share.
fn no_tables(alloc: Global, hash_keys: RandomState) -> Result<Tables, NoMemory>
    ensures { IfOk result (λ tables. plain tables ≡ empty_store) }
{
    Tables::new(Store::new(alloc, hash_keys), alloc)
}

/// So many seats that submitted nothing.
fn empty_seats(alloc: Global, count: u32) -> Result<ListOf<Seat>, NoMemory>
    ensures { IfOk result (λ seats. map (λ seat. seat.items) seats ≡ replicate count []) }
{
    let mut seats = ListOf::new(alloc);
    'seats: for _ in 0..count {
        seats.push(Seat::new(alloc))?;
    }
    Ok(seats)
}

/// All slots, which no query holds: nothing runs in them, nothing gets rows, and no
/// seat has groups with it.
fn free_slots(
    alloc: Global,
    hash_keys: RandomState,
    settings: RunSettings,
) -> Result<(Manager, Scan, SharedDistributor), NoMemory>
    requires { AreWithin settings }
    ensures lives { IfOk result (λ made.
        made.0 ≡ record { queries = []; slots = replicate settings.slots Free; filters = 0 }) }
    ensures scan { IfOk result (λ made. made.1 ≡ new_scan settings.slots) }
    ensures groups { IfOk result (λ made. made.2 ≡ record {
      attached = replicate settings.slots None;
      out = replicate settings.seats None;
    }) }
{
    let slots = settings.slots;
    let manager = Manager::new(alloc, slots, 0)?;
    let scan = Scan::new(alloc, slots)?;
    let distributor = SharedDistributor::new(alloc, hash_keys, slots, settings.seats)?;
    Ok((manager, scan, distributor))
}

/// All frames of a core, and room for a batch in each. No batch is in flight.
fn free_frames(alloc: Global, settings: RunSettings) -> Result<(Flights, Pool), NoMemory>
    requires { AreWithin settings }
    ensures none { IfOk result (λ made. made.0.items ≡ []) }
    ensures room { IfOk result (λ made. frames_of settings ≤ made.0.room) }
    ensures pool { IfOk result (λ made. made.1 ≡ record {
      made = frames_of settings;
      words = 16 + settings.batch * 16;
      inside = replicate (frames_of settings) (replicate (16 + settings.batch * 16) 0);
    }) }
{
    let frames = 2 * settings.workers as usize + 8;
    let words = 16 + settings.batch as usize * 16;
    let flights = Flights::new(alloc, frames)?;
    let pool = Pool::new(alloc, frames, words)?;
    Ok((flights, pool))
}
