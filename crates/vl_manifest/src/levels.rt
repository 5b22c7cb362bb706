ghost use Rattle.std.specs.Prelude.{◌≡◌, ◌++◌, OnOk};
ghost use Rattle.vl_manifest.specs.States.{level_adds};

use crate::edit::Edit;
use crate::table_list::TableList;
use std::alloc::{AllocError, Global};
use std::marker::Model;

/// How many levels there are.
pub const LEVELS: usize = 7;

/// The tables of a store: for each level from 0 to 6 the list of its tables, by their numbers. Clauses see these
/// lists.
#[derive(Debug, Drop)]
pub struct Levels {
    lists: [TableList; LEVELS],
}

impl Model for Levels {
    ghost use Rattle.std.specs.Prelude.{◌≡◌, length, List, ℕ};

    ghost Value = { List (List ℕ) };

    ghost view = { λ a. a.lists };

    ghost invariant = { λ a. length a.lists ≡ 7 };
}

impl Levels {
    ghost use Rattle.std.specs.Prelude.{◌≡◌, if◌then◌else◌, Some, None, IfOk};
    ghost use Rattle.vl_manifest.specs.Levels.{all_tables, is_in, no_tables, put_at, taken_out};
    ghost use Rattle.vl_manifest.specs.States.{adds_from};

    /// No tables.
    pub fn new(alloc: Global) -> Self
        ensures { result ≡ no_tables }
    {
        Levels {
            lists: [
                TableList::new(alloc),
                TableList::new(alloc),
                TableList::new(alloc),
                TableList::new(alloc),
                TableList::new(alloc),
                TableList::new(alloc),
                TableList::new(alloc),
            ],
        }
    }

    // The same once more.
    pub(crate) fn copy(&self, alloc: Global) -> Result<Self, AllocError>
        ensures { IfOk result (λ copy. copy ≡ self.now) }
    {
        let lists = &self.lists;
        Ok(Levels {
            lists: [
                lists[0].copy(alloc)?,
                lists[1].copy(alloc)?,
                lists[2].copy(alloc)?,
                lists[3].copy(alloc)?,
                lists[4].copy(alloc)?,
                lists[5].copy(alloc)?,
                lists[6].copy(alloc)?,
            ],
        })
    }

    /// The list of each level.
    pub fn as_slice(&self) -> &[TableList]
        ensures { result.now ≡ self.now }
    {
        &self.lists
    }

    // Whether a table is in any of the lists.
    pub(crate) fn has(&self, table: u32) -> bool
        ensures { result ≡ is_in table (all_tables self.now) }
    {
        for list in &self.lists {
            if list.has(table) {
                return true;
            }
        }
        false
    }

    // Puts a table into the list of a level at a position, and answers whether it did: not where there is no such level,
    // or the position is past the list's end.
    pub(crate) fn put(&mut self, level: u8, position: u32, table: u32) -> Result<bool, AllocError>
        ensures { IfOk result (λ done. put_at level position table self.old ≡ (if done then Some self.new else None)) }
    {
        if level as usize >= self.as_slice().len() {
            return Ok(false);
        }
        self.lists[level as usize].put(position, table)
    }

    pub(crate) fn take_out(&mut self, table: u32)
        ensures { self.new ≡ taken_out table self.old }
    {
        for level in 0..LEVELS {
            self.lists[level].take_out(table);
        }
    }

    // An Add for each table, level by level.
    pub(crate) fn adds(&self, alloc: Global) -> Result<Vec<Edit>, AllocError>
        ensures { IfOk result (λ edits. edits.items ≡ adds_from 0 self.now) }
    {
        let mut edits = Vec::new(alloc);
        for level in 0..LEVELS {
            add_level(&mut edits, level as u8, self.lists[level].as_slice())?;
        }
        Ok(edits)
    }
}

// Puts an Add for each table of a level behind the edits. Want of memory is the answer too where there are more than
// a position can count.
fn add_level(edits: &mut Vec<Edit>, level: u8, tables: &[u32]) -> Result<(), AllocError>
    ensures { OnOk result (edits.new.items ≡ edits.old.items ++ level_adds level 0 tables.now) }
{
    if tables.len() > u32::MAX as usize {
        return Err(AllocError);
    }
    for position in 0..tables.len() {
        edits.push(Edit::Add {
            level,
            position: position as u32,
            table: tables[position],
        })?;
    }
    Ok(())
}
