ghost use Rattle.std.specs.Prelude.{◌≡◌, [], IfErr, IfOk, length, replicate};
ghost use Rattle.std.specs.FinMap as fin;
ghost use Rattle.mb_core_spec.specs.Begun.{begun_core, first_tables, idle};
ghost use Rattle.mb_core_spec.specs.Events.{without};
ghost use Rattle.mb_core_state.specs.Rooms.{fresh_cache};

use crate::flight_rooms::FlightRooms;
use mb_cache::Cache;
use mb_callers::Callers;
use mb_copies::Blocks;
use mb_core_spec::{Config, Stage};
use mb_edge::{Disk, NoMemory};
use mb_iface::FileSys;
use mb_journal::Journal;
use mb_kinds::Creds;
use mb_tables::Tables;
use std::alloc::Global;
use std::marker::Model;
use std::snapshot::Snapshot;

/// What a core holds. The type says nothing of its order; each function says what it changes.
pub struct Fields<F: FileSys, D: Disk> {
    pub(crate) first: Snapshot<D>,
    pub(crate) fs: F,
    pub(crate) cache: Cache<D>,
    pub(crate) tables: Tables,
    pub(crate) journal: Journal,
    pub(crate) callers: Callers,
    pub(crate) floor: Option<u8>,
    pub(crate) stage: Stage,
    pub(crate) incarnation: u32,
    pub(crate) config: Config,
    /// Blocks as they are seen, which operations that are done again have from one to the next. It is for speed alone: no
    /// block has to be there.
    pub(crate) kept: Blocks,
    pub(crate) rooms: FlightRooms,
}

impl<F: FileSys, D: Disk> Model for Fields<F, D> {
    ghost use Rattle.std.specs.Coded.{codes, coded_ℕ};
    ghost use Rattle.std.specs.FinMap as fin;
    ghost use Rattle.std.specs.Ordering.{nat_cmp};
    ghost use Rattle.mb_tree.specs.contracts.seats.PlainFile as file;
    ghost use Rattle.mb_core_spec.specs.State.{CoreState};
    ghost use Rattle.mb_core_state.specs.KeptBlocks.{AreSeen};

    ghost Value = { CoreState F D };

    ghost coded = { Prim.hlevel (codes, F.code, D.code, fin.code {R = nat_cmp} coded_ℕ coded_ℕ, fin.code {R = nat_cmp} coded_ℕ file.the_row.coded) };

    ghost view = { λ c. record {
      first = c.first.value;
      fs = c.fs;
      cache = c.cache;
      tables = c.tables;
      journal = c.journal;
      callers = c.callers;
      floor = c.floor;
      stage = c.stage;
      incarnation = c.incarnation;
      config = c.config;
    } };

    ghost invariant = { λ c. AreSeen D.told c.cache c.kept };
}

impl<F: FileSys, D: Disk> Fields<F, D> {
    /// A core begins over a disk: no page and no pin, no call, the sessions of the declared callers as they begin, and no
    /// open file; no page is a clean one. The only error is want of memory, with the disk back.
    pub fn new(alloc: Global, fs: F, disk: D, config: Config) -> Result<Fields<F, D>, D>
        ensures begun { IfOk result (λ core.
            core ≡ begun_core fs disk config (fresh_cache disk core.cache.room) fin.empty core.journal.room) }
        ensures unread { IfOk result (λ core. core.cache.room.clean ≡ []) }
        ensures back { IfErr result (λ same. same ≡ disk) }
    {
        let first = Snapshot::of(&disk);
        let cache = Cache::new(alloc, disk)?;
        let (tables, callers, rooms) = match begun_parts(alloc, &config.callers) {
            Ok(parts) => parts,
            Err(NoMemory) => return Err(cache.into_disk()),
        };
        Ok(Fields {
            first,
            fs,
            cache,
            tables,
            journal: Journal::new(alloc),
            callers,
            floor: None,
            stage: Stage::Running,
            incarnation: 0,
            config,
            kept: Blocks::new(alloc),
            rooms,
        })
    }

    /// The right to commit alone is given back, where that caller has it.
    pub(crate) fn give_floor(&mut self, caller: u8)
        ensures { self.new ≡ record self.old { floor = without caller self.old.floor } }
    {
        if self.floor == Some(caller) {
            self.floor = None;
        }
    }
}

/// The tables, the callers' states and the rooms of their flights, of a core that begins.
fn begun_parts(alloc: Global, creds: &Creds) -> Result<(Tables, Callers, FlightRooms), NoMemory>
    ensures tables { IfOk result (λ parts. parts.0 ≡ first_tables creds.now fin.empty) }
    ensures callers { IfOk result (λ parts. parts.1 ≡ replicate (length creds.now) idle) }
{
    let tables = Tables::new(alloc, creds)?;
    let callers = Callers::new(alloc, creds.as_slice().len() as u8)?;
    let rooms = FlightRooms::new(alloc, creds.as_slice().len())?;
    Ok((tables, callers, rooms))
}
