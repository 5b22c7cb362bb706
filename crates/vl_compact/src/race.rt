//! What is asked of a job's tables, and of the deletions that it dropped.

ghost use Rattle.std.specs.Prelude.{◌≡◌, map, min, ◌^◌, ◌-◌, IfOk};
ghost use Rattle.std.specs.Option.{option_map};
ghost use Rattle.std.specs.Ordering.{eq_by_cmp};
ghost use Rattle.std.specs.FinMap.{find};
ghost use Rattle.vl_compact.specs.Racing.{entry_count, greatest, least_moved};
ghost use Rattle.vl_model.specs.Keys.{key_cmp};
ghost use Rattle.vl_table.specs.Tables.{number_of};

use crate::files::Synced;
use std::alloc::{AllocError, Global};
use vl_disk::{HeldFile, Writer};
use vl_model::{Key, key_order};
use vl_table::Table;

/// The first of these keys, which come with their versions, that was moved, with the number of its last move, of moves of
/// which the latest comes first.
pub fn least_moved<'a>(keys: &'a [(Key, u64)], moved: &[(Key, u64)]) -> Option<(&'a Key, u64)>
    ensures { option_map (λ r. (r.0.now, r.1)) result ≡ least_moved moved.now keys.now }
{
    for entry in keys {
        if let Some(number) = last_move(moved, &entry.0) {
            return Some((&entry.0, number));
        }
    }
    None
}

/// The greatest version of keys with their versions, 0 where there is none.
pub fn greatest(keys: &[(Key, u64)]) -> u64
    ensures { result ≡ greatest keys.now }
{
    let mut most = 0u64;
    for entry in keys {
        most = most.max(entry.1);
    }
    most
}

// The number of the first of these moves that is of a key.
fn last_move(moved: &[(Key, u64)], key: &Key) -> Option<u64>
    ensures { result ≡ find key_cmp key.now moved.now }
{
    for entry in moved {
        if is_same(key, &entry.0) {
            return Some(entry.1);
        }
    }
    None
}

fn is_same(key: &Key, other: &Key) -> bool
    ensures { result ≡ eq_by_cmp key_cmp key.now other.now }
{
    key_order(key.as_slice(), other.as_slice()).is_eq()
}

/// How many entries these tables have, 2^64 - 1 where there are more.
pub fn total<W: Writer>(made: &[Synced<W>]) -> u64
    ensures { result ≡ min (entry_count made.now) (2 ^ 64 - 1) }
{
    let mut sum = 0u64;
    for table in made {
        sum = sum.saturating_add(table.shape.footer.count);
    }
    sum
}

/// The numbers of tables.
pub fn numbers_of<H: HeldFile>(alloc: Global, tables: &[Table<H>]) -> Result<Vec<u32>, AllocError>
    ensures { IfOk result (λ numbers. numbers.items ≡ map number_of tables.now) }
{
    let mut numbers = Vec::new(alloc);
    for table in tables {
        numbers.push(table.shape().number)?;
    }
    Ok(numbers)
}
