//! Which level is due.

ghost use Rattle.std.specs.Prelude.{◌≡◌, ◌≤◌, true, List, None, Some, nat_le, nat_lt, if◌then◌else◌, IfSome};
ghost use Rattle.std.specs.List.{AllZip, sum_by};
ghost use Rattle.std.specs.Option.{is_some};
ghost use Rattle.vl_compact.specs.Due.{file_bytes, has_due, is_full};
ghost use Rattle.vl_compact.specs.Laid.{AreLevelsOf, AreTablesOf, by_level};
ghost use Rattle.vl_engine_model.specs.Levels as layout;
ghost use Rattle.vl_engine_model.specs.declared.table.Table as laid;

use vl_disk::HeldFile;
use vl_table::Table;
use vl_version::{Level, Levels};

/// So many tables make level 0 due.
const DUE_TABLES: usize = 4;

// The least level that is due.
pub fn least_due<H: HeldFile>(levels: &Levels<H>) -> Option<usize>
    ensures due { (ls : List (List laid.Table)) → AreLevelsOf H.bytes levels.now ls → result ≡ layout.due_from 0 ls }
    ensures some { is_some result ≡ has_due H.size 0 (by_level levels.now) }
    ensures shallow { IfSome result (λ level. level ≤ 5) }
{
    if DUE_TABLES <= levels.newest().len() {
        return Some(0);
    }
    least_deeper(levels.deeper())
}

// The least of the levels below level 0 that is due.
fn least_deeper<H: HeldFile>(levels: &[Level<H>]) -> Option<usize>
    ensures due { (ls : List (List laid.Table)) → AllZip (AreTablesOf H.bytes) levels.now ls
        → result ≡ layout.due_from 1 ls }
    ensures some { is_some result ≡ has_due H.size 1 levels.now }
    ensures shallow { IfSome result (λ level. level ≤ 5) }
{
    for at in 0..levels.len() {
        if is_due(at + 1, levels[at].as_slice()) {
            return Some(at + 1);
        }
    }
    None
}

// Whether a level below level 0 is due with these tables.
fn is_due<H: HeldFile>(level: usize, tables: &[Table<H>]) -> bool
    requires { 1 ≤ level }
    ensures due { (ts : List laid.Table) → AreTablesOf H.bytes tables.now ts → result ≡ layout.is_due level ts }
    ensures full { result ≡ is_full H.size level tables.now }
    ensures shallow { result ≡ true → level ≤ 5 }
{
    match level_bytes(level) {
        Some(bytes) => is_over(tables, bytes),
        None => false,
    }
}

// The bytes of table files that a level below level 0 may have without being due; None for one that never is.
fn level_bytes(level: usize) -> Option<u64>
    requires { 1 ≤ level }
    ensures { result ≡ (if nat_le level 5 then Some (layout.level_bytes level) else None) }
{
    match level {
        1 => Some(4_194_304),
        2 => Some(41_943_040),
        3 => Some(419_430_400),
        4 => Some(4_194_304_000),
        5 => Some(41_943_040_000),
        _ => None,
    }
}

// Whether the files of these tables have more bytes than so many. What is left of these is counted down, which can't wrap.
fn is_over<H: HeldFile>(tables: &[Table<H>], bytes: u64) -> bool
    ensures laid { (ts : List laid.Table) → AreTablesOf H.bytes tables.now ts
        → result ≡ nat_lt bytes (sum_by (λ (t : laid.Table). t.length) ts) }
    ensures over { result ≡ nat_lt bytes (file_bytes H.size tables.now) }
{
    let mut left = bytes;
    for table in tables {
        let length = table.held().len();
        if left < length {
            return true;
        }
        left -= length;
    }
    false
}
