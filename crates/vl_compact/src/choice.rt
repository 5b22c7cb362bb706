//! Which tables a merge begins with.

ghost use Rattle.std.specs.Prelude.{◌≡◌, ◌==◌, List, Option, Some};
ghost use Rattle.std.specs.List.{AllZip, flat_map, list_any};
ghost use Rattle.std.specs.Option.{is_some, option_copied};
ghost use Rattle.vl_model.specs.declared.point.Point as of_footer;
ghost use Rattle.vl_compact.specs.Due.{has_leading, leads_into};
ghost use Rattle.vl_compact.specs.Laid.{AreBoth, AreLevelsOf, AreTablesOf, IsTableOf};
ghost use Rattle.vl_engine_model.specs.Levels as layout;
ghost use Rattle.vl_engine_model.specs.declared.table.Table as laid;
ghost use Rattle.vl_version.specs.levels.LevelTables.{all_tables};
ghost use Rattle.vl_version.specs.levels.LevelsLooked.{tables_of};

use vl_disk::HeldFile;
use vl_model::Point;
use vl_table::Table;
use vl_version::{Level, Levels};

// The tables of a level.
pub fn level_at<H: HeldFile>(levels: &Levels<H>, level: usize) -> &[Table<H>]
    ensures { (ls : List (List laid.Table)) → AreLevelsOf H.bytes levels.now ls
        → AreTablesOf H.bytes result.now (layout.level_at level ls) }
{
    if level == 0 {
        return levels.newest();
    }
    match levels.deeper().get(level - 1) {
        Some(deeper) => deeper.as_slice(),
        None => &[],
    }
}

// The table with the least number.
pub fn least<H: HeldFile>(tables: &[Table<H>]) -> Option<&Table<H>>
    ensures { (ts : List laid.Table) → AreTablesOf H.bytes tables.now ts
        → AreBoth (IsTableOf H.bytes) (option_copied result) (layout.least_table ts) }
{
    let mut best = None;
    let mut at = tables.len();
    while at > 0 {
        at -= 1;
        best = Some(lesser(&tables[at], best));
    }
    best
}

// Of a table and the one that was found behind it the one with the lesser number.
fn lesser<'a, H: HeldFile>(table: &'a Table<H>, other: Option<&'a Table<H>>) -> &'a Table<H>
    ensures { (t : laid.Table) (u : Option laid.Table) → IsTableOf H.bytes table.now t
        → AreBoth (IsTableOf H.bytes) (option_copied other.entry) u
        → AreBoth (IsTableOf H.bytes) (Some result.now) (layout.lesser_table t u) }
{
    match other {
        Some(other) => lesser_of(table, other),
        None => table,
    }
}

fn lesser_of<'a, H: HeldFile>(table: &'a Table<H>, other: &'a Table<H>) -> &'a Table<H>
    ensures { (t u : laid.Table) → IsTableOf H.bytes table.now t → IsTableOf H.bytes other.now u
        → AreBoth (IsTableOf H.bytes) (Some result.now) (layout.lesser_table t (Some u)) }
{
    let number = table.shape().number;
    let others = other.shape().number;
    if others < number { other } else { table }
}

// The first table in the order of the sources that leads into a segment.
pub fn first_into<H: HeldFile>(levels: &Levels<H>, segment: u32) -> Option<&Table<H>>
    ensures laid { (ls : List (List laid.Table)) → AreLevelsOf H.bytes levels.now ls
        → AreBoth (IsTableOf H.bytes) (option_copied result) (layout.first_into segment (flat_map (λ level. level) ls)) }
    ensures leads { is_some result ≡ has_leading segment (tables_of levels.now) }
{
    match first_of(levels.newest(), segment) {
        Some(table) => Some(table),
        None => first_deeper(levels.deeper(), segment),
    }
}

// The first of the tables of levels below level 0.
fn first_deeper<H: HeldFile>(levels: &[Level<H>], segment: u32) -> Option<&Table<H>>
    ensures laid { (ls : List (List laid.Table)) → AllZip (AreTablesOf H.bytes) levels.now ls
        → AreBoth (IsTableOf H.bytes) (option_copied result) (layout.first_into segment (flat_map (λ level. level) ls)) }
    ensures leads { is_some result ≡ has_leading segment (all_tables levels.now) }
{
    for level in levels {
        match first_of(level.as_slice(), segment) {
            Some(table) => return Some(table),
            None => {}
        }
    }
    None
}

// The first of these tables.
fn first_of<H: HeldFile>(tables: &[Table<H>], segment: u32) -> Option<&Table<H>>
    ensures laid { (ts : List laid.Table) → AreTablesOf H.bytes tables.now ts
        → AreBoth (IsTableOf H.bytes) (option_copied result) (layout.first_into segment ts) }
    ensures leads { is_some result ≡ has_leading segment tables.now }
{
    for table in tables {
        if has_point(table, segment) {
            return Some(table);
        }
    }
    None
}

// Whether a table leads into a segment, by its footer.
fn has_point<H: HeldFile>(table: &Table<H>, segment: u32) -> bool
    ensures laid { (t : laid.Table) → IsTableOf H.bytes table.now t → result ≡ layout.has_point segment t }
    ensures leads { result ≡ leads_into segment table.now }
{
    is_led_by(&table.shape().footer.points, segment)
}

// Whether one of these points is into a segment.
fn is_led_by(points: &[Point], segment: u32) -> bool
    ensures { result ≡ list_any (λ (p : of_footer.Point). p.segment == segment) points.now }
{
    points.iter().any(|point| point.segment == segment)
}
