//! Levels that wait for the tables that a merge made.

ghost use Rattle.std.specs.Prelude.{◌≡◌, slice_set};

use vl_disk::HeldFile;
use vl_table::Table;
use vl_version::{Level, Levels};

/// The levels behind an install, as far as its outputs were put, for which there is room.
#[derive(Drop)]
pub struct ReadyLevels<H: HeldFile> {
    /// To which level the outputs are put, and how many of its tables that aren't inputs stand before them.
    pub level: u8,
    pub position: u32,
    // The tables that aren't inputs, by their levels.
    pub(crate) newest: Vec<Table<H>>,
    pub(crate) deeper: Vec<Level<H>>,
    // Those of that level, with the outputs that were put among them.
    pub(crate) tables: Vec<Table<H>>,
    // So many of these stand before the next output.
    pub(crate) next: usize,
}

impl<H: HeldFile> ReadyLevels<H> {
    ghost use Rattle.std.specs.Prelude.{◌≡◌, ◌+◌, ◌++◌, ◌∷◌, [], ℕ, List, Option};
    ghost use Rattle.vl_compact.specs.Laid.{AreLevelsOf, IsTableOf};
    ghost use Rattle.vl_compact.specs.Places.{first_key};
    ghost use Rattle.vl_compact.specs.Replacing.{AreReady, HasRoom};
    ghost use Rattle.vl_engine_model.specs.Levels.{replaced};
    ghost use Rattle.vl_engine_model.specs.declared.job.Target.{Target};
    ghost use Rattle.vl_engine_model.specs.declared.table.Table as laid;

    /// Puts the next output, for which there is room. It wants no memory.
    pub fn put(&mut self, table: Table<H>)
        requires { HasRoom 1 self.old }
        ensures put { (target : Target) (inputs : List ℕ) (first : Option (List ℕ)) (ls : List (List laid.Table))
            (new : List laid.Table) (t : laid.Table) → AreReady H.bytes target inputs first ls new self.old
            → IsTableOf H.bytes table t → AreReady H.bytes target inputs first ls (new ++ t ∷ []) self.new }
        ensures room { (n : ℕ) → HasRoom (n + 1) self.old → HasRoom n self.new }
        ensures level { self.new.level ≡ self.old.level }
        ensures position { self.new.position ≡ self.old.position }
    {
        let next = self.next.min(self.tables.len());
        let _ = self.tables.insert(next, table);
        self.next = next + 1;
    }

    /// The levels with the outputs that were put. It wants no memory.
    pub fn into_levels(self) -> Levels<H>
        ensures { (target : Target) (inputs : List ℕ) (first : Option (List ℕ)) (ls : List (List laid.Table))
            (new : List laid.Table) → AreReady H.bytes target inputs first ls new self → first_key new ≡ first
            → AreLevelsOf H.bytes result (replaced target inputs new ls) }
    {
        let ReadyLevels {
            level,
            newest,
            deeper,
            tables,
            ..
        } = self;
        if level == 0 {
            return Levels::new(tables, deeper);
        }
        Levels::new(newest, with_level(deeper, level as usize - 1, tables))
    }
}

// Levels, of which one, if it is there, has these tables.
fn with_level<H: HeldFile>(levels: Vec<Level<H>>, at: usize, tables: Vec<Table<H>>) -> Vec<Level<H>>
    ensures { result.items ≡ slice_set levels.items at tables.items }
{
    let mut levels = levels;
    if at < levels.len() {
        levels[at] = Level::new(tables);
    }
    levels
}
