//! Which merge is planned.

ghost use Rattle.std.specs.Prelude.{◌≡◌, ◌≤◌, ◌∷◌, [], IfOk, List};
ghost use Rattle.std.specs.Option.{is_some};
ghost use Rattle.vl_compact.specs.Due.{has_due, has_leading};
ghost use Rattle.vl_compact.specs.Laid.{AreLevelsOf, AreTablesOf, IsTableOf, by_level};
ghost use Rattle.vl_compact.specs.Merges.{IsMerge, drain_in, plan_in};
ghost use Rattle.vl_engine_model.specs.Levels as layout;
ghost use Rattle.vl_engine_model.specs.declared.table.Table as laid;
ghost use Rattle.vl_version.specs.levels.LevelsLooked.{tables_of};

use crate::choice::{first_into, least, level_at};
use crate::due::least_due;
use crate::inputs::{Inputs, add, add_all, add_meeting};
use crate::range::{range_of, widened};
use std::alloc::{AllocError, Global};
use vl_disk::HeldFile;
use vl_engine_model::Target;
use vl_table::Table;
use vl_version::Levels;

/// The merge of the least level that is due, into the next one: of level 0 with all its tables, of a deeper level with that of
/// the least number, and of those of the next level that meet their range. The tables are shared. None where no level is due.
pub fn planned<H: HeldFile>(
    alloc: Global,
    levels: &Levels<H>,
) -> Result<Option<Inputs<H>>, AllocError>
    ensures merge { IfOk result (λ inputs. (ls : List (List laid.Table)) → AreLevelsOf H.bytes levels.now ls
        → IsMerge H.bytes inputs (plan_in ls)) }
    // Whatever stands in the tables, it is so exactly where a level is due.
    ensures due { IfOk result (λ inputs. is_some inputs ≡ has_due H.size 0 (by_level levels.now)) }
{
    match least_due(levels) {
        None => Ok(None),
        Some(level) => Ok(Some(Inputs {
            tables: inputs_at(alloc, levels, level)?,
            target: Target::Level(level as u8 + 1),
        })),
    }
}

/// The merge of the first table in the order of the sources that leads into a segment, in its own place. The table is shared.
/// None where none does.
pub fn drained<H: HeldFile>(
    alloc: Global,
    levels: &Levels<H>,
    segment: u32,
) -> Result<Option<Inputs<H>>, AllocError>
    ensures merge { IfOk result (λ inputs. (ls : List (List laid.Table)) → AreLevelsOf H.bytes levels.now ls
        → IsMerge H.bytes inputs (drain_in segment ls)) }
    // Whatever stands in the tables, it is so exactly where one leads there.
    ensures leads { IfOk result (λ inputs. is_some inputs ≡ has_leading segment (tables_of levels.now)) }
{
    match first_into(levels, segment) {
        None => Ok(None),
        Some(table) => Ok(Some(Inputs {
            tables: alone(alloc, table)?,
            target: Target::InPlace,
        })),
    }
}

// What a level that is due gives, which is all tables of level 0, or the one with the least number of a deeper level, and the
// tables of the next level that meet its range.
fn inputs_at<H: HeldFile>(
    alloc: Global,
    levels: &Levels<H>,
    level: usize,
) -> Result<Vec<Table<H>>, AllocError>
    requires { level ≤ 5 }
    ensures { IfOk result (λ tables. (ls : List (List laid.Table)) → AreLevelsOf H.bytes levels.now ls
        → AreTablesOf H.bytes tables.items (layout.inputs_at level ls)) }
{
    let tables = level_at(levels, level);
    let next = level_at(levels, level + 1);
    if level == 0 {
        return with_next(alloc, tables, next);
    }
    match least(tables) {
        Some(table) => one_with_next(alloc, table, next),
        None => Ok(Vec::new(alloc)),
    }
}

// These tables, and those of the next level that meet their range.
fn with_next<H: HeldFile>(
    alloc: Global,
    tables: &[Table<H>],
    next: &[Table<H>],
) -> Result<Vec<Table<H>>, AllocError>
    ensures { IfOk result (λ all. (ts us : List laid.Table) → AreTablesOf H.bytes tables.now ts
        → AreTablesOf H.bytes next.now us → AreTablesOf H.bytes all.items (layout.with_next ts us)) }
{
    let mut all = Vec::new(alloc);
    add_all(&mut all, tables)?;
    add_meeting(&mut all, next, range_of(tables))?;
    Ok(all)
}

// This table, and those of the next level that meet its range.
fn one_with_next<H: HeldFile>(
    alloc: Global,
    table: &Table<H>,
    next: &[Table<H>],
) -> Result<Vec<Table<H>>, AllocError>
    ensures { IfOk result (λ all. (t : laid.Table) (us : List laid.Table) → IsTableOf H.bytes table.now t
        → AreTablesOf H.bytes next.now us → AreTablesOf H.bytes all.items (layout.with_next (t ∷ []) us)) }
{
    let mut all = alone(alloc, table)?;
    add_meeting(&mut all, next, Some(widened(table, None)))?;
    Ok(all)
}

// This table alone.
fn alone<H: HeldFile>(alloc: Global, table: &Table<H>) -> Result<Vec<Table<H>>, AllocError>
    ensures { IfOk result (λ all. (t : laid.Table) → IsTableOf H.bytes table.now t
        → AreTablesOf H.bytes all.items (t ∷ [])) }
{
    let mut all = Vec::new(alloc);
    add(&mut all, table)?;
    Ok(all)
}
