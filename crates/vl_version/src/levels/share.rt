//! The tables of all levels once more, and a table in front of them.

ghost use Rattle.std.specs.Prelude.{◌≡◌, ◌∷◌, ◌<◌, IfOk, OnOk, vec_capacity, vec_len};
ghost use Rattle.std.specs.List.{AllZip};
ghost use Rattle.vl_version.specs.Shared.{AreSameLevels, AreSameTables};

use super::level::Level;
use crate::Levels;
use std::alloc::{AllocError, Global};
use vl_disk::HeldFile;
use vl_table::Table;

impl<H: HeldFile> Levels<H> {
    /// The same tables once more.
    pub fn share(&self, alloc: Global) -> Result<Self, AllocError>
        ensures { IfOk result (AreSameLevels H.bytes self.now) }
    {
        let newest = share_tables(alloc, &self.newest)?;
        let deeper = share_levels(alloc, &self.deeper)?;
        Ok(Levels { newest, deeper })
    }

    /// Takes the memory that a table more in level 0 wants.
    pub fn make_room(&mut self) -> Result<(), AllocError>
        ensures room { OnOk result (vec_len self.new.newest < vec_capacity self.new.newest) }
        ensures newest { self.new.newest.items ≡ self.old.newest.items }
        ensures deeper { self.new.deeper ≡ self.old.deeper }
    {
        self.newest.reserve(1)
    }

    /// Puts a table in front of level 0, where there is room for it. It wants no memory.
    pub fn put_newest(&mut self, table: Table<H>)
        requires { vec_len self.old.newest < vec_capacity self.old.newest }
        ensures newest { self.new.newest.items ≡ table ∷ self.old.newest.items }
        ensures deeper { self.new.deeper ≡ self.old.deeper }
    {
        self.newest.push_reserved(table);
        self.newest.rotate_right(1);
    }
}

fn share_tables<H: HeldFile>(
    alloc: Global,
    tables: &[Table<H>],
) -> Result<Vec<Table<H>>, AllocError>
    ensures { IfOk result (λ all. AreSameTables H.bytes tables.now all.items) }
{
    let mut all = Vec::new(alloc);
    for table in tables {
        all.push(table.share()?)?;
    }
    Ok(all)
}

fn share_levels<H: HeldFile>(
    alloc: Global,
    levels: &[Level<H>],
) -> Result<Vec<Level<H>>, AllocError>
    ensures { IfOk result (λ all. AllZip (AreSameTables H.bytes) levels.now all.items) }
{
    let mut all = Vec::new(alloc);
    for level in levels {
        let tables = share_tables(alloc, level.as_slice())?;
        all.push(Level::new(tables))?;
    }
    Ok(all)
}
