// The tables that a manifest names.
ghost use Rattle.std.specs.Prelude.{◌≡◌, ℕ, ◌↔◌, ◌++◌, ◌∷◌, [], Some, false, length, IfErr, IfOk, IsTrue};
ghost use Rattle.std.specs.Option.{ForSome};
ghost use Rattle.vl_disk.specs.Calls.{ChangesNothing};
ghost use Rattle.vl_disk.specs.Crash.{Image};
ghost use Rattle.vl_disk.specs.Disk.{Lists};
ghost use Rattle.vl_disk.specs.Faults.{HasCounted, NoneCounted, never};
ghost use Rattle.vl_disk.specs.DiskState.{DiskState};
ghost use Rattle.vl_disk.specs.Started.{IsRead};
ghost use Rattle.vl_recover.specs.opening.Finding.{FailsAtDisk, IsFault, IsFaultOf, IsReadTable};
ghost use Rattle.vl_recover.specs.opening.HeldFiles.{AreReadTables, tables_of};
ghost use Rattle.vl_recover.specs.opening.Opening.{IsAbove, IsNamed, NamedLevel, NamedLevels, first_key, last_key};
ghost use Rattle.vl_recover.specs.opening.FoundTables.{all_found, found_level, found_list, found_table};
ghost use Rattle.vl_recover.specs.opening.OpenedTables.{AnswersAs, IsNext, last_before};

use crate::OpenError;
use crate::one_table::open_table;
use std::alloc::Global;
use vl_disk::{Disk, HeldFile, Name};
use vl_manifest::Levels;
use vl_model::key_order;
use vl_table::Table;

/// Opens the tables of all levels, level by level. No block of them is read.
pub fn open_tables<D: Disk>(
    alloc: Global,
    disk: &mut D,
    reader: &mut D::Reader,
    names: &[Name],
    levels: &Levels,
) -> Result<Vec<Vec<Table<D::Held>>>, OpenError>
    requires lists { ForSome (D.told disk.old) (Lists names.now) }
    requires fresh { NoneCounted (D.Reader.faults reader.old) }
    requires seven { length levels.now ≡ 7 }
    ensures answer { (state : DiskState) (read : Image) → D.told disk.old ≡ Some state → IsRead read state
        → AnswersAs all_found (NamedLevels false read levels.now) result }
    ensures held { (state : DiskState) (read : Image) → D.told disk.old ≡ Some state → IsRead read state
        → IfOk result (λ opened. AreReadTables D.Held.bytes read (tables_of opened.items)) }
    ensures seven { IfOk result (λ opened. length opened.items ≡ 7) }
    ensures at { IfErr result (IsFaultOf (IsReadTable (D.told disk.old))) }
    ensures fresh { IfOk result (λ _. NoneCounted (D.Reader.faults reader.new)) }
    ensures read_fault { HasCounted (D.Reader.faults reader.new) → IsFault result }
    ensures steady { D.Reader.faults reader.old ≡ never → D.Reader.faults reader.new ≡ never }
    // Where no table is named the reader isn't asked.
    ensures unread { ((n : ℕ) → IsNamed levels.now n → ⊥) → NoneCounted (D.Reader.faults reader.new) }
    ensures no_change { ChangesNothing D.Watched disk.old disk.new (FailsAtDisk (D.Reader.faults reader.new) result) }
{
    let mut opened = Vec::new(alloc);
    let mut is_deeper = false;
    for list in levels.as_slice() {
        let tables = open_level(alloc, disk, reader, names, is_deeper, list.as_slice())?;
        match opened.push(tables) {
            Ok(()) => {}
            Err(_) => return Err(OpenError::NoMemory),
        }
        is_deeper = true;
    }
    Ok(opened)
}

// Opens the tables of one level, of which each begins behind the last key of the one before it, where it is a deeper one.
fn open_level<D: Disk>(
    alloc: Global,
    disk: &mut D,
    reader: &mut D::Reader,
    names: &[Name],
    is_deeper: bool,
    tables: &[u32],
) -> Result<Vec<Table<D::Held>>, OpenError>
    requires lists { ForSome (D.told disk.old) (Lists names.now) }
    requires fresh { NoneCounted (D.Reader.faults reader.old) }
    ensures answer { (state : DiskState) (read : Image) → D.told disk.old ≡ Some state → IsRead read state
        → AnswersAs found_level (NamedLevel is_deeper read None tables.now) result }
    ensures held { (state : DiskState) (read : Image) → D.told disk.old ≡ Some state → IsRead read state
        → IfOk result (λ opened. AreReadTables D.Held.bytes read opened.items) }
    ensures at { IfErr result (IsFaultOf (IsReadTable (D.told disk.old))) }
    ensures fresh { IfOk result (λ _. NoneCounted (D.Reader.faults reader.new)) }
    ensures read_fault { HasCounted (D.Reader.faults reader.new) → IsFault result }
    ensures steady { D.Reader.faults reader.old ≡ never → D.Reader.faults reader.new ≡ never }
    ensures unread { tables.now ≡ [] → NoneCounted (D.Reader.faults reader.new) }
    ensures no_change { ChangesNothing D.Watched disk.old disk.new (FailsAtDisk (D.Reader.faults reader.new) result) }
{
    let mut opened: Vec<Table<D::Held>> = Vec::new(alloc);
    for number in tables {
        let table = open_table(alloc, disk, reader, names, *number)?;
        opened = with_table(opened, is_deeper, table)?;
    }
    Ok(opened)
}

// The tables of a level with one more, which has to begin behind the last one's end.
fn with_table<H: HeldFile>(
    opened: Vec<Table<H>>,
    is_deeper: bool,
    table: Table<H>,
) -> Result<Vec<Table<H>>, OpenError>
    ensures next { IsNext (last_before is_deeper (found_level opened)) (found_table table) result }
    ensures more { IfOk result (λ more. more.items ≡ opened.items ++ table ∷ []) }
{
    if !is_behind(&opened, is_deeper, &table) {
        return Err(OpenError::Damaged {
            name: Name::Table(table.shape().number),
            place: table.shape().footer_place,
        });
    }
    let mut with = opened;
    match with.push(table) {
        Ok(()) => Ok(with),
        Err(_) => Err(OpenError::NoMemory),
    }
}

// Whether a table begins behind the last of these, where that counts.
fn is_behind<H: HeldFile>(opened: &[Table<H>], is_deeper: bool, table: &Table<H>) -> bool
    ensures { IsTrue result ↔ IsAbove (last_before is_deeper (found_list opened.now)) (first_key (found_table table.now)) }
{
    if !is_deeper {
        return true;
    }
    if opened.is_empty() {
        return true;
    }
    is_after(&opened[opened.len() - 1], table)
}

// Whether a table begins behind the last key of the one before it.
fn is_after<H: HeldFile>(before: &Table<H>, table: &Table<H>) -> bool
    ensures { IsTrue result ↔ IsAbove (Some (last_key (found_table before.now))) (first_key (found_table table.now)) }
{
    let last = before.shape().footer.last.as_slice();
    let first = table.shape().footer.first.as_slice();
    key_order(last, first).is_lt()
}
