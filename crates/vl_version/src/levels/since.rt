//! The tables that have something newer than a version.

ghost use Rattle.std.specs.Prelude.{◌≡◌, ◌∷◌, ◌++◌, [], List, IfOk, OnOk};
ghost use Rattle.std.specs.List.{AllZip};
ghost use Rattle.vl_table.specs.declared.table.Table.{Table};
ghost use Rattle.vl_version.specs.Changes.{AreLevelsSince, AreTablesSince, is_since};

use super::level::Level;
use crate::Levels;
use std::alloc::{AllocError, Global};
use vl_disk::HeldFile;
use vl_table::Table;

impl<H: HeldFile> Levels<H> {
    /// Of the tables, shared, those that have something newer than a version, by their footers; all of them since 0.
    pub fn since(&self, alloc: Global, since: u64) -> Result<Self, AllocError>
        ensures { IfOk result (AreLevelsSince H.bytes since self.now) }
    {
        let newest = tables_since(alloc, &self.newest, since)?;
        let deeper = levels_since(alloc, &self.deeper, since)?;
        Ok(Levels { newest, deeper })
    }
}

fn levels_since<H: HeldFile>(
    alloc: Global,
    levels: &[Level<H>],
    since: u64,
) -> Result<Vec<Level<H>>, AllocError>
    ensures { IfOk result (λ all. AllZip (AreTablesSince H.bytes since) levels.now all.items) }
{
    let mut all = Vec::new(alloc);
    for level in levels {
        let tables = tables_since(alloc, level.as_slice(), since)?;
        all.push(Level::new(tables))?;
    }
    Ok(all)
}

fn tables_since<H: HeldFile>(
    alloc: Global,
    tables: &[Table<H>],
    since: u64,
) -> Result<Vec<Table<H>>, AllocError>
    ensures { IfOk result (λ all. AreTablesSince H.bytes since tables.now all.items) }
{
    let mut all = Vec::new(alloc);
    for table in tables {
        add_if_since(&mut all, table, since)?;
    }
    Ok(all)
}

// A table behind others, if it counts.
fn add_if_since<H: HeldFile>(
    all: &mut Vec<Table<H>>,
    table: &Table<H>,
    since: u64,
) -> Result<(), AllocError>
    ensures { OnOk result ((before : List (Table H)) → AreTablesSince H.bytes since before all.old.items
        → AreTablesSince H.bytes since (before ++ table.now ∷ []) all.new.items) }
{
    if !is_since(table, since) {
        return Ok(());
    }
    all.push(table.share()?)?;
    Ok(())
}

fn is_since<H: HeldFile>(table: &Table<H>, since: u64) -> bool
    ensures { result ≡ is_since since table.now }
{
    since == 0 || table.shape().footer.greatest > since
}
