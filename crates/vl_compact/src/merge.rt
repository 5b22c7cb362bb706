//! The entries of a merge's inputs that are behind a key, merged.

ghost use Rattle.std.specs.Prelude.{◌≡◌, ◌++◌, ◌∷◌, [], Bool, List, Some, IfOk};
ghost use Rattle.std.specs.List.{AllByRecursion, AllZip, flat_map};
ghost use Rattle.vl_compact.specs.Keys.{behind, span_behind};
ghost use Rattle.vl_compact.specs.Laid.{AreTablesOf, IsTableOf};
ghost use Rattle.vl_compact.specs.Lefts.{HasBehind};
ghost use Rattle.vl_compact.specs.Stops.{InputsReadTo, MayStopIn};
ghost use Rattle.vl_engine_model.specs.Sources.{table_entries};
ghost use Rattle.vl_engine_model.specs.declared.table.Table as laid;
ghost use Rattle.vl_merge.specs.MergeOf.{OneMayFail};
ghost use Rattle.vl_merge.specs.Standing.{IsUpward};
ghost use Rattle.vl_model.specs.Merging.{merged};
ghost use Rattle.vl_model.specs.declared.entry.Entry.{Entry};
ghost use Rattle.vl_model.specs.declared.way.Way.TheVariants.{Up};
ghost use Rattle.vl_table.specs.ReadTo.{TablesReadTo};
ghost use Rattle.vl_disk.specs.declared.read_fault.ReadFault.{ReadFault};

use std::alloc::{AllocError, Global};
use vl_disk::{HeldFile, ReadFault, Reader};
use vl_merge::{Merge, merge_of_told_sources};
use vl_model::{Bytes, Cursor, Key, Span, Way};
use vl_table::{Table, TableCursor};

/// The entries of these tables that are behind a key, or all of them, merged.
pub fn merged<H: HeldFile, R: Reader<Held = H> + Drop>(
    alloc: Global,
    tables: &[Table<H>],
    after: &Option<Key>,
) -> Result<Merge<TableCursor<H, R>>, AllocError>
    ensures left { (ts : List laid.Table) → AreTablesOf H.bytes tables.now ts
        → IfOk result (λ m. ⟦<Merge<TableCursor<H, R>> as Cursor>⟧.left m
        ≡ Some (merged Up (behind after.now (flat_map table_entries ts)))) }
    ensures may_fail { IfOk result (λ m. (fault : ReadFault)
        → ⟦<Merge<TableCursor<H, R>> as Cursor>⟧.may_fail m fault → MayStopIn H.bytes after.now tables.now fault) }
    ensures stands { IfOk result (λ m. (is_met : Entry → Bool) → IsUpward Up is_met
        → ⟦<Merge<TableCursor<H, R>> as Cursor>⟧.stands_to m is_met → InputsReadTo H.bytes after.now is_met tables.now) }
{
    merge_of_told_sources();
    Merge::new(cursors(alloc, tables, after)?, Way::Up)
}

// A cursor over each of these tables, behind a key.
fn cursors<H: HeldFile, R: Reader<Held = H> + Drop>(
    alloc: Global,
    tables: &[Table<H>],
    after: &Option<Key>,
) -> Result<Vec<TableCursor<H, R>>, AllocError>
    ensures left { (ts : List laid.Table) → AreTablesOf H.bytes tables.now ts → IfOk result (λ cs.
        AllZip (HasBehind (λ c. ⟦<TableCursor<H, R> as Cursor>⟧.left c) after.now) cs.items ts) }
    ensures may_fail { IfOk result (λ cs. (fault : ReadFault)
        → OneMayFail (λ c f. ⟦<TableCursor<H, R> as Cursor>⟧.may_fail c f) cs.items fault → MayStopIn H.bytes after.now tables.now fault) }
    ensures stands { IfOk result (λ cs. (is_met : Entry → Bool)
        → AllByRecursion (λ c. ⟦<TableCursor<H, R> as Cursor>⟧.stands_to c is_met) cs.items
        → InputsReadTo H.bytes after.now is_met tables.now) }
{
    let mut cursors = Vec::new(alloc);
    for table in tables {
        cursors.push(cursor(alloc, table, after)?)?;
    }
    Ok(cursors)
}

// A cursor over a table, behind a key.
fn cursor<H: HeldFile, R: Reader<Held = H> + Drop>(
    alloc: Global,
    table: &Table<H>,
    after: &Option<Key>,
) -> Result<TableCursor<H, R>, AllocError>
    ensures left { (t : laid.Table) → IsTableOf H.bytes table.now t
        → IfOk result (λ c. HasBehind (λ c. ⟦<TableCursor<H, R> as Cursor>⟧.left c) after.now c t) }
    ensures may_fail { IfOk result (λ c. (fault : ReadFault)
        → ⟦<TableCursor<H, R> as Cursor>⟧.may_fail c fault → MayStopIn H.bytes after.now (table.now ∷ []) fault) }
    ensures stands { IfOk result (λ c. (is_met : Entry → Bool) → ⟦<TableCursor<H, R> as Cursor>⟧.stands_to c is_met
        → TablesReadTo H.bytes (span_behind after.now) Up is_met (table.now ∷ [])) }
{
    let mut one = Vec::new(alloc);
    one.push(table.share()?)?;
    let cursor = TableCursor::new(alloc, one, span_behind(alloc, after)?, Way::Up)?;
    Ok(cursor)
}

// The keys behind a key, or all of them.
fn span_behind(alloc: Global, after: &Option<Key>) -> Result<Span, AllocError>
    ensures { IfOk result (λ span. span ≡ span_behind after.now) }
{
    let lo = match after {
        None => None,
        Some(key) => Some(next_key(alloc, key)?),
    };
    Ok(Span {
        lo,
        hi: None,
        closed: false,
    })
}

// The least key behind this one.
fn next_key(alloc: Global, key: &Key) -> Result<Key, AllocError>
    ensures { IfOk result (λ next. next ≡ key.now ++ 0 ∷ []) }
{
    let mut bytes = Vec::from_slice(alloc, key.as_slice())?;
    bytes.push(0)?;
    Bytes::new(bytes)
}
