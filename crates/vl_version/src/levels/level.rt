//! The tables of one level.

ghost use Rattle.std.specs.Prelude.{◌≡◌, ◌≤◌, List, length};
ghost use Rattle.std.specs.List.{prefix_len};
ghost use Rattle.vl_model.specs.Lookups.{IsParted};
ghost use Rattle.vl_version.specs.levels.LevelTables.{ends_before};

use std::marker::Model;
use vl_disk::HeldFile;
use vl_model::key_order;
use vl_table::Table;

/// The tables of a level below level 0, in key order. None of them overlaps.
#[derive(Drop)]
pub struct Level<H: HeldFile> {
    tables: Vec<Table<H>>,
}

impl<H: HeldFile> Model for Level<H> {
    ghost use Rattle.std.specs.Prelude.{List};
    ghost use Rattle.vl_table.specs.declared.table.Table.{Table};

    ghost Value = { List (Table H) };

    ghost view = { λ a. a.tables.items };
}

impl<H: HeldFile> Level<H> {
    /// The level with these tables.
    pub fn new(tables: Vec<Table<H>>) -> Self
        ensures { result ≡ tables.items }
    {
        Level { tables }
    }

    /// Its tables, in key order.
    pub fn as_slice(&self) -> &[Table<H>]
        ensures { result.now ≡ self.now }
    {
        &self.tables
    }
}

// How many tables end before a key.
pub fn ending_before<H: HeldFile>(tables: &[Table<H>], key: &[u8]) -> usize
    ensures first { IsParted (ends_before key.now) tables.now → result ≡ prefix_len (ends_before key.now) tables.now }
    ensures within { result ≤ length tables.now }
{
    tables.partition_point(|table| { key_order(key, table.shape().footer.last.as_slice()).is_gt() })
}
