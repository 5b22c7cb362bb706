//! Which tables have an entry of a key, the newest source first, and whether they are inputs of a merge.

ghost use Rattle.std.specs.Prelude.{◌≡◌, ◌&&◌, ◌∷◌, []};
ghost use Rattle.std.specs.List.{list_any};
ghost use Rattle.vl_merge.specs.Marked.{is_first_outside, outside_of};
ghost use Rattle.vl_model.specs.Winners.{counts};
ghost use Rattle.vl_version.specs.Bases.{is_input, marked_tables};
ghost use Rattle.vl_version.specs.levels.LevelTables.{AreAllApart, AreApart, all_tables};
ghost use Rattle.vl_version.specs.levels.LevelsLooked.{AreInOrder, tables_of};
ghost use Rattle.vl_version.specs.levels.Marks.{Tells, TellsFirst};

use super::level::ending_before;
use super::look::Look;
use super::lookup::look_in;
use super::{Level, Levels};
use vl_disk::{HeldFile, ReadFault, Reader};
use vl_table::{BlockReader, Table};

/// What is asked of tables: which is the first that has such an entry of a key.
#[derive(Clone, Copy)]
pub struct Asked<'a> {
    pub key: &'a [u8],
    pub look: Look,
    /// The numbers of the tables that are inputs of a merge.
    pub inputs: &'a [u32],
    /// Whether only the other tables are asked.
    pub outside: bool,
}

impl Asked<'_> {
    // Whether a table isn't asked, which is an input or not.
    fn passes(&self, input: bool) -> bool
        ensures { result ≡ (self.now.outside && input) }
    {
        self.outside && input
    }
}

impl<H: HeldFile> Levels<H> {
    /// Whether a table other than these inputs has the key at a version of at most a number.
    pub fn has_outside<R: Reader<Held = H>>(
        &self,
        reader: &mut BlockReader<R>,
        inputs: &[u32],
        key: &[u8],
        number: u64,
    ) -> Result<bool, ReadFault>
        ensures { Tells H.bytes R.faults (tables_of self.now) (AreInOrder self.now) (λ ess found. found
            ≡ list_any (counts key.now number) (outside_of (marked_tables inputs.now (tables_of self.now) ess)))
            reader.old reader.new result }
    {
        let asked = Asked {
            key,
            look: Look::UpTo(number),
            inputs,
            outside: true,
        };
        let first = self.first_mark(reader, asked)?;
        Ok(first.is_some())
    }

    /// Whether the first table that has the key and version is none of these inputs. Mostly none of the others has them, and
    /// then no input is asked.
    pub fn is_first_outside<R: Reader<Held = H>>(
        &self,
        reader: &mut BlockReader<R>,
        inputs: &[u32],
        key: &[u8],
        version: u64,
    ) -> Result<bool, ReadFault>
        ensures { Tells H.bytes R.faults (tables_of self.now) (AreInOrder self.now) (λ ess found. found
            ≡ is_first_outside (marked_tables inputs.now (tables_of self.now) ess) key.now version)
            reader.old reader.new result }
    {
        let outside = Asked {
            key,
            look: Look::Exactly(version),
            inputs,
            outside: true,
        };
        let Some(_) = self.first_mark(reader, outside)? else {
            return Ok(false);
        };
        let all = Asked {
            key,
            look: Look::Exactly(version),
            inputs,
            outside: false,
        };
        match self.first_mark(reader, all)? {
            Some(input) => Ok(!input),
            None => Ok(false),
        }
    }

    // Whether the first table that has such an entry is an input.
    fn first_mark<R: Reader<Held = H>>(
        &self,
        reader: &mut BlockReader<R>,
        asked: Asked<'_>,
    ) -> Result<Option<bool>, ReadFault>
        ensures { TellsFirst H.bytes R.faults asked.entry (tables_of self.now) (AreInOrder self.now)
            reader.old reader.new result }
    {
        match first_in_each(reader, &self.newest, asked)? {
            Some(input) => Ok(Some(input)),
            None => first_in_levels(reader, &self.deeper, asked),
        }
    }
}

// The same of these tables.
fn first_in_each<H: HeldFile, R: Reader<Held = H>>(
    reader: &mut BlockReader<R>,
    tables: &[Table<H>],
    asked: Asked<'_>,
) -> Result<Option<bool>, ReadFault>
    ensures { TellsFirst H.bytes R.faults asked.entry tables.now (Unit {0}) reader.old reader.new result }
{
    for table in tables {
        if let Some(input) = mark_of(reader, table, asked)? {
            return Ok(Some(input));
        }
    }
    Ok(None)
}

// The same of the tables of these levels, of each of which one at most may have the key.
fn first_in_levels<H: HeldFile, R: Reader<Held = H>>(
    reader: &mut BlockReader<R>,
    levels: &[Level<H>],
    asked: Asked<'_>,
) -> Result<Option<bool>, ReadFault>
    ensures { TellsFirst H.bytes R.faults asked.entry (all_tables levels.now) (AreAllApart levels.now)
        reader.old reader.new result }
{
    for level in levels {
        if let Some(input) = mark_in_level(reader, level.as_slice(), asked)? {
            return Ok(Some(input));
        }
    }
    Ok(None)
}

// The same of the tables of one level.
fn mark_in_level<H: HeldFile, R: Reader<Held = H>>(
    reader: &mut BlockReader<R>,
    tables: &[Table<H>],
    asked: Asked<'_>,
) -> Result<Option<bool>, ReadFault>
    ensures { TellsFirst H.bytes R.faults asked.entry tables.now (AreApart tables.now) reader.old reader.new result }
{
    let at = ending_before(tables, asked.key);
    if at == tables.len() {
        return Ok(None);
    }
    mark_of(reader, &tables[at], asked)
}

// Whether a table that is asked and has such an entry is an input.
fn mark_of<H: HeldFile, R: Reader<Held = H>>(
    reader: &mut BlockReader<R>,
    table: &Table<H>,
    asked: Asked<'_>,
) -> Result<Option<bool>, ReadFault>
    ensures { TellsFirst H.bytes R.faults asked.entry (table.now ∷ []) (Unit {0}) reader.old reader.new result }
{
    let input = is_input(asked.inputs, table);
    if asked.passes(input) {
        return Ok(None);
    }
    match look_in(reader, table, asked.key, asked.look, None)? {
        Some(_) => Ok(Some(input)),
        None => Ok(None),
    }
}

/// Whether a table's number is one of these.
pub fn is_input<H: HeldFile>(inputs: &[u32], table: &Table<H>) -> bool
    ensures { result ≡ is_input inputs.now table.now }
{
    let number = table.shape().number;
    inputs.iter().any(|input| *input == number)
}
