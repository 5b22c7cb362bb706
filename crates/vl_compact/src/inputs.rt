//! The inputs of a merge.

ghost use Rattle.std.specs.Prelude.{◌++◌, ◌∷◌, [], List, OnOk};
ghost use Rattle.std.specs.List.{filter};
ghost use Rattle.std.specs.Option.{option_map};
ghost use Rattle.vl_compact.specs.Laid.{AreTablesOf, IsTableOf};
ghost use Rattle.vl_compact.specs.Ranges.{range_in};
ghost use Rattle.vl_engine_model.specs.Levels.{meets};
ghost use Rattle.vl_engine_model.specs.declared.table.Table as laid;

use crate::range::{self, KeyRange};
use std::alloc::AllocError;
use vl_disk::HeldFile;
use vl_engine_model::Target;
use vl_table::Table;

/// The tables that a merge takes, in the order of the sources, and where its outputs are put.
#[derive(Drop)]
pub struct Inputs<H: HeldFile> {
    pub tables: Vec<Table<H>>,
    pub target: Target,
}

// Puts these tables, shared, behind others.
pub fn add_all<H: HeldFile>(all: &mut Vec<Table<H>>, tables: &[Table<H>]) -> Result<(), AllocError>
    ensures { OnOk result ((ts us : List laid.Table) → AreTablesOf H.bytes all.old.items ts
        → AreTablesOf H.bytes tables.now us → AreTablesOf H.bytes all.new.items (ts ++ us)) }
{
    for table in tables {
        add(all, table)?;
    }
    Ok(())
}

// Puts those of these tables that meet a range, if there is one, shared, behind others.
pub fn add_meeting<H: HeldFile>(
    all: &mut Vec<Table<H>>,
    tables: &[Table<H>],
    range: Option<KeyRange<'_>>,
) -> Result<(), AllocError>
    ensures { OnOk result ((ts us : List laid.Table) → AreTablesOf H.bytes all.old.items ts
        → AreTablesOf H.bytes tables.now us
        → AreTablesOf H.bytes all.new.items (ts ++ filter (meets (option_map range_in range.entry)) us)) }
{
    for table in tables {
        add_if_met(all, table, range)?;
    }
    Ok(())
}

// Puts a table, shared, behind others, if it meets a range.
fn add_if_met<H: HeldFile>(
    all: &mut Vec<Table<H>>,
    table: &Table<H>,
    range: Option<KeyRange<'_>>,
) -> Result<(), AllocError>
    ensures { OnOk result ((ts : List laid.Table) (t : laid.Table) → AreTablesOf H.bytes all.old.items ts
        → IsTableOf H.bytes table.now t
        → AreTablesOf H.bytes all.new.items (ts ++ filter (meets (option_map range_in range.entry)) (t ∷ []))) }
{
    if !range::meets(range, table) {
        return Ok(());
    }
    add(all, table)?;
    Ok(())
}

// Puts a table, shared, behind others.
pub fn add<H: HeldFile>(all: &mut Vec<Table<H>>, table: &Table<H>) -> Result<(), AllocError>
    ensures { OnOk result ((ts : List laid.Table) (t : laid.Table) → AreTablesOf H.bytes all.old.items ts
        → IsTableOf H.bytes table.now t → AreTablesOf H.bytes all.new.items (ts ++ t ∷ [])) }
{
    all.push(table.share()?)?;
    Ok(())
}
