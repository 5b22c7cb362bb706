ghost use Rattle.std.specs.Prelude.{◌≡◌};
ghost use Rattle.vl_manifest.specs.Levels as spec;

use std::alloc::{AllocError, Global};
use std::marker::Model;

/// The tables of a level, by their numbers. Clauses see this list.
#[derive(Debug, Drop)]
pub struct TableList {
    tables: Vec<u32>,
}

impl Model for TableList {
    ghost use Rattle.std.specs.Prelude.{List, ℕ};

    ghost Value = { List ℕ };

    ghost view = { λ a. a.tables.items };
}

impl TableList {
    ghost use Rattle.std.specs.Prelude.{◌≡◌, [], if◌then◌else◌, Some, None, IfOk};
    ghost use Rattle.std.specs.List.{filter};
    ghost use Rattle.vl_manifest.specs.Levels.{is_in, is_other, put_in};

    pub(crate) fn new(alloc: Global) -> Self
        ensures { result ≡ [] }
    {
        TableList {
            tables: Vec::new(alloc),
        }
    }

    // The same once more.
    pub(crate) fn copy(&self, alloc: Global) -> Result<Self, AllocError>
        ensures { IfOk result (λ copy. copy ≡ self.now) }
    {
        Ok(TableList {
            tables: Vec::from_slice(alloc, &self.tables)?,
        })
    }

    pub fn as_slice(&self) -> &[u32]
        ensures { result.now ≡ self.now }
    {
        &self.tables
    }

    pub(crate) fn has(&self, table: u32) -> bool
        ensures { result ≡ is_in table self.now }
    {
        self.tables.contains(&table)
    }

    // Puts a table at a position, and answers whether it did: not where that is past the end.
    pub(crate) fn put(&mut self, position: u32, table: u32) -> Result<bool, AllocError>
        ensures { IfOk result (λ done. put_in position table self.old ≡ (if done then Some self.new else None)) }
    {
        if position as usize > self.tables.len() {
            return Ok(false);
        }
        self.tables.insert(position as usize, table)?;
        Ok(true)
    }

    pub(crate) fn take_out(&mut self, table: u32)
        ensures { self.new ≡ filter (is_other table) self.old }
    {
        self.tables.retain(|other| is_other(table, *other));
    }
}

fn is_other(table: u32, other: u32) -> bool
    ensures { result ≡ spec.is_other table other }
{
    other != table
}
