//! Which sealed logs a version holds yet behind a switch.

ghost use Rattle.std.specs.Prelude.{◌≡◌};
ghost use Rattle.std.specs.List.{filter, list_any};
ghost use Rattle.vl_model.specs.Numbers.{has};
ghost use Rattle.vl_version.specs.Needed.{head_of, is_kept, is_needed, lead_into, leads_into, levels_into};

use crate::{Level, Levels};
use vl_disk::HeldFile;
use vl_memtable::FrozenLog;
use vl_seglog::SealedLog;
use vl_table::Table;

/// The number of the least log whose memtable isn't flushed, where the active one has this number.
pub fn head_of(active: u32, frozen: &[FrozenLog]) -> u32
    ensures { result ≡ head_of active frozen.now }
{
    match frozen.last() {
        None => active,
        Some(log) => log.number,
    }
}

/// Of the logs with these numbers those go that are below head, and into which no table leads.
pub fn let_go<H: HeldFile>(
    logs: &mut Vec<SealedLog<H>>,
    idle: &[u32],
    head: u32,
    levels: &Levels<H>,
)
    ensures { logs.new.items ≡ filter (is_kept idle.now head levels.now) logs.old.items }
{
    logs.retain(|log| is_kept(idle, head, levels, log));
}

// Whether the log stays.
fn is_kept<H: HeldFile>(idle: &[u32], head: u32, levels: &Levels<H>, log: &SealedLog<H>) -> bool
    ensures { result ≡ is_kept idle.now head levels.now log.now }
{
    !has(idle, log.number) || is_needed(head, levels, log.number)
}

// Whether it is one of these numbers.
fn has(numbers: &[u32], number: u32) -> bool
    ensures { result ≡ has number numbers.now }
{
    numbers.iter().any(|other| *other == number)
}

// Whether a log is needed: it isn't below head, or a table leads into it.
fn is_needed<H: HeldFile>(head: u32, levels: &Levels<H>, number: u32) -> bool
    ensures { result ≡ is_needed head levels.now number }
{
    !(number < head) || lead_into(levels.newest(), number) || levels_into(levels.deeper(), number)
}

// Whether one of these levels has a table that leads into the segment.
fn levels_into<H: HeldFile>(levels: &[Level<H>], segment: u32) -> bool
    ensures { result ≡ list_any (lead_into segment) levels.now }
{
    levels
        .iter()
        .any(|level| lead_into(level.as_slice(), segment))
}

// Whether one of these tables does.
fn lead_into<H: HeldFile>(tables: &[Table<H>], segment: u32) -> bool
    ensures { result ≡ lead_into segment tables.now }
{
    tables.iter().any(|table| leads_into(table, segment))
}

// Whether the table does, by its footer.
fn leads_into<H: HeldFile>(table: &Table<H>, segment: u32) -> bool
    ensures { result ≡ leads_into segment table.now }
{
    let points = &table.shape().footer.points;
    points.iter().any(|point| point.segment == segment)
}
