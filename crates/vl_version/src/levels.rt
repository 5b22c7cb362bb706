//! The tables of a store by their levels, in which keys are looked up.
//!
//! A look-up asks each table of level 0, the newest first, and of each deeper level at most one table, which is found by
//! halving. A table isn't read whose range or filter says that it hasn't got the key, nor one that by its greatest version
//! can't have what counts more than what was found so far. It wants no memory.

ghost use Rattle.std.specs.Prelude.{◌≡◌, [], None};
ghost use Rattle.std.specs.Option.{option_map};
ghost use Rattle.vl_disk.specs.Faults.{HasCause};
ghost use Rattle.vl_model.specs.Winners.{exact};
ghost use Rattle.vl_table.specs.body.Founds.{found_of};
ghost use Rattle.vl_table.specs.Answers.{Failed, NeedsNoMemory};
ghost use Rattle.vl_table.specs.Kept.{Files};
ghost use Rattle.vl_table.specs.KeptBlocks.{AreKept, ReadsOf};
ghost use Rattle.vl_version.specs.levels.LevelTables.{AreAllApart, AreAllRanged, all_tables};
ghost use Rattle.vl_version.specs.levels.LevelsLooked.{AreInOrder, AreLaidOut, tables_of};
ghost use Rattle.vl_version.specs.levels.LookedUp.{LookedUp, LooksInAll, LooksOn};
ghost use Rattle.vl_version.specs.declared.levels.look.Look.TheVariants as looks;

mod level;
mod look;
mod lookup;
mod mark;
mod share;
mod since;

pub use level::Level;
use look::Look;
use lookup::{look_in, look_in_level};
pub use mark::is_input;
use std::alloc::Global;
use vl_disk::{HeldFile, ReadFault, Reader};
use vl_table::{BlockReader, Found, Table};

/// The tables of a store by their levels.
#[derive(Drop)]
pub struct Levels<H: HeldFile> {
    // Level 0, the newest table first. Its tables may overlap.
    newest: Vec<Table<H>>,
    // The levels below it, the next one first.
    deeper: Vec<Level<H>>,
}

impl<H: HeldFile> Levels<H> {
    /// The levels with these tables: those of level 0, the newest first, and the levels below it.
    pub fn new(newest: Vec<Table<H>>, deeper: Vec<Level<H>>) -> Self
        ensures newest { result.newest ≡ newest }
        ensures deeper { result.deeper ≡ deeper }
    {
        Levels { newest, deeper }
    }

    /// Levels without tables. They take no memory.
    pub fn none(alloc: Global) -> Self
        ensures { tables_of result ≡ [] }
    {
        Levels::new(Vec::new(alloc), Vec::new(alloc))
    }

    /// The tables of level 0, the newest first.
    pub fn newest(&self) -> &[Table<H>]
        ensures { result.now ≡ self.now.newest.items }
    {
        &self.newest
    }

    /// The levels below level 0, the next one first.
    pub fn deeper(&self) -> &[Level<H>]
        ensures { result.now ≡ self.now.deeper.items }
    {
        &self.deeper
    }
}

impl<H: HeldFile> Levels<H> {
    /// Of the entries of a key with a version of at most a number the one of the greatest version, and of these the one of
    /// the newest source; what was found in newer sources than these counts with them. Each level below level 0 is one source.
    pub fn find<R: Reader<Held = H>>(
        &self,
        reader: &mut BlockReader<R>,
        key: &[u8],
        number: u64,
        newer: Option<Found>,
    ) -> Result<Option<Found>, ReadFault>
        ensures kept { (files : Files) → ReadsOf H.bytes files reader.old (tables_of self.now) → AreKept files reader.new }
        ensures answers { (files : Files) → ReadsOf H.bytes files reader.old (tables_of self.now)
            → LooksOn H.bytes (tables_of self.now) (AreInOrder self.now) (looks.UpTo number) key.now
            (option_map (found_of key.now) newer) (R.faults reader.old.reader) (R.faults reader.new.reader) result }

        // Where tables are laid out no answer hides a block that doesn't stand, of each table that is to be asked, also if
        // they aren't true; and a fault is that of the first such table on which one was met.
        ensures looks { (files : Files) → ReadsOf H.bytes files reader.old (tables_of self.now) → AreLaidOut self.now
            → LooksInAll H.bytes (looks.UpTo number) key.now (option_map (found_of key.now) newer) (tables_of self.now) result }
        ensures cause { HasCause (R.faults reader.old.reader) (R.faults reader.new.reader) (Failed result) }
        ensures no_memory { NeedsNoMemory result }
    {
        self.look(reader, key, Look::UpTo(number), newer)
    }

    /// The entry of a key and version in the newest source that has one.
    pub fn exact<R: Reader<Held = H>>(
        &self,
        reader: &mut BlockReader<R>,
        key: &[u8],
        version: u64,
    ) -> Result<Option<Found>, ReadFault>
        ensures kept { (files : Files) → ReadsOf H.bytes files reader.old (tables_of self.now) → AreKept files reader.new }
        ensures answers { (files : Files) → ReadsOf H.bytes files reader.old (tables_of self.now)
            → LookedUp H.bytes (tables_of self.now) (AreInOrder self.now) (λ es. exact es key.now version) key.now
            (R.faults reader.old.reader) (R.faults reader.new.reader) result }
        ensures looks { (files : Files) → ReadsOf H.bytes files reader.old (tables_of self.now) → AreLaidOut self.now
            → LooksInAll H.bytes (looks.Exactly version) key.now None (tables_of self.now) result }
        ensures cause { HasCause (R.faults reader.old.reader) (R.faults reader.new.reader) (Failed result) }
        ensures no_memory { NeedsNoMemory result }
    {
        self.look(reader, key, Look::Exactly(version), None)
    }

    // Looks from the newest source on, behind what was found in newer ones.
    fn look<R: Reader<Held = H>>(
        &self,
        reader: &mut BlockReader<R>,
        key: &[u8],
        look: Look,
        newer: Option<Found>,
    ) -> Result<Option<Found>, ReadFault>
        ensures kept { (files : Files) → ReadsOf H.bytes files reader.old (tables_of self.now) → AreKept files reader.new }
        ensures answers { (files : Files) → ReadsOf H.bytes files reader.old (tables_of self.now)
            → LooksOn H.bytes (tables_of self.now) (AreInOrder self.now) look key.now (option_map (found_of key.now) newer)
            (R.faults reader.old.reader) (R.faults reader.new.reader) result }
        ensures looks { (files : Files) → ReadsOf H.bytes files reader.old (tables_of self.now) → AreLaidOut self.now
            → LooksInAll H.bytes look key.now (option_map (found_of key.now) newer) (tables_of self.now) result }
        ensures cause { HasCause (R.faults reader.old.reader) (R.faults reader.new.reader) (Failed result) }
        ensures no_memory { NeedsNoMemory result }
    {
        let best = look_in_each(reader, &self.newest, key, look, newer)?;
        look_in_levels(reader, &self.deeper, key, look, best)
    }
}

// Looks in each of these tables, the newest first, behind what was found in newer sources.
fn look_in_each<H: HeldFile, R: Reader<Held = H>>(
    reader: &mut BlockReader<R>,
    tables: &[Table<H>],
    key: &[u8],
    look: Look,
    newer: Option<Found>,
) -> Result<Option<Found>, ReadFault>
    ensures kept { (files : Files) → ReadsOf H.bytes files reader.old tables.now → AreKept files reader.new }
    ensures answers { (files : Files) → ReadsOf H.bytes files reader.old tables.now
        → LooksOn H.bytes tables.now (Unit {0}) look key.now (option_map (found_of key.now) newer)
        (R.faults reader.old.reader) (R.faults reader.new.reader) result }
    ensures looks { (files : Files) → ReadsOf H.bytes files reader.old tables.now
        → LooksInAll H.bytes look key.now (option_map (found_of key.now) newer) tables.now result }
    ensures cause { HasCause (R.faults reader.old.reader) (R.faults reader.new.reader) (Failed result) }
    ensures no_memory { NeedsNoMemory result }
{
    let mut best = newer;
    for table in tables {
        best = look_in(reader, table, key, look, best)?;
    }
    Ok(best)
}

// Looks in each of these levels, each of which is one source, behind what was found in newer ones.
fn look_in_levels<H: HeldFile, R: Reader<Held = H>>(
    reader: &mut BlockReader<R>,
    levels: &[Level<H>],
    key: &[u8],
    look: Look,
    newer: Option<Found>,
) -> Result<Option<Found>, ReadFault>
    ensures kept { (files : Files) → ReadsOf H.bytes files reader.old (all_tables levels.now) → AreKept files reader.new }
    ensures answers { (files : Files) → ReadsOf H.bytes files reader.old (all_tables levels.now)
        → LooksOn H.bytes (all_tables levels.now) (AreAllApart levels.now) look key.now (option_map (found_of key.now) newer)
        (R.faults reader.old.reader) (R.faults reader.new.reader) result }
    ensures looks { (files : Files) → ReadsOf H.bytes files reader.old (all_tables levels.now) → AreAllApart levels.now
        → AreAllRanged levels.now
        → LooksInAll H.bytes look key.now (option_map (found_of key.now) newer) (all_tables levels.now) result }
    ensures cause { HasCause (R.faults reader.old.reader) (R.faults reader.new.reader) (Failed result) }
    ensures no_memory { NeedsNoMemory result }
{
    let mut best = newer;
    for level in levels {
        best = look_in_level(reader, level.as_slice(), key, look, best)?;
    }
    Ok(best)
}
