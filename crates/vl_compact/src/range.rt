//! From which key on and up to which the keys of some tables are.

ghost use Rattle.std.specs.Prelude.{◌≡◌, ◌&&◌, List, Some, not};
ghost use Rattle.std.specs.Option.{option_map};
ghost use Rattle.std.specs.Ordering.{is_lt};
ghost use Rattle.vl_compact.specs.Laid.{AreTablesOf, IsTableOf};
ghost use Rattle.vl_compact.specs.Ranges.{range_in};
ghost use Rattle.vl_engine_model.specs.Levels as layout;
ghost use Rattle.vl_engine_model.specs.declared.table.Table as laid;
ghost use Rattle.vl_model.specs.Keys.{key_cmp};

use vl_disk::HeldFile;
use vl_model::key_order;
use vl_table::Table;

/// From the least to the greatest key of some tables.
#[derive(Clone, Copy)]
pub struct KeyRange<'a> {
    pub least: &'a [u8],
    pub greatest: &'a [u8],
}

// The range of these tables, where there are any.
pub fn range_of<H: HeldFile>(tables: &[Table<H>]) -> Option<KeyRange<'_>>
    ensures { (ts : List laid.Table) → AreTablesOf H.bytes tables.now ts
        → option_map range_in result ≡ layout.range_of ts }
{
    let mut range = None;
    let mut at = tables.len();
    while at > 0 {
        at -= 1;
        range = Some(widened(&tables[at], range));
    }
    range
}

// The range of a table and of those behind it.
pub fn widened<'a, H: HeldFile>(table: &'a Table<H>, range: Option<KeyRange<'a>>) -> KeyRange<'a>
    ensures { (t : laid.Table) → IsTableOf H.bytes table.now t
        → Some (range_in result) ≡ layout.widened t (option_map range_in range.entry) }
{
    let footer = &table.shape().footer;
    let first = footer.first.as_slice();
    let last = footer.last.as_slice();
    match range {
        None => KeyRange {
            least: first,
            greatest: last,
        },
        Some(range) => KeyRange {
            least: lesser_key(first, range.least),
            greatest: greater_key(last, range.greatest),
        },
    }
}

fn lesser_key<'a>(a: &'a [u8], b: &'a [u8]) -> &'a [u8]
    ensures { result.now ≡ layout.lesser_key a.now b.now }
{
    if key_order(b, a).is_lt() { b } else { a }
}

fn greater_key<'a>(a: &'a [u8], b: &'a [u8]) -> &'a [u8]
    ensures { result.now ≡ layout.greater_key a.now b.now }
{
    if key_order(a, b).is_lt() { b } else { a }
}

// Whether there is a range, and a table's range and this one have a key in common.
pub fn meets<H: HeldFile>(range: Option<KeyRange<'_>>, table: &Table<H>) -> bool
    ensures { (t : laid.Table) → IsTableOf H.bytes table.now t
        → result ≡ layout.meets (option_map range_in range.entry) t }
{
    match range {
        Some(range) => {
            let footer = &table.shape().footer;
            let first = footer.first.as_slice();
            let last = footer.last.as_slice();
            overlaps(range, first, last)
        }
        None => false,
    }
}

// Whether a range has a key in common with the one from a first to a last key.
fn overlaps(range: KeyRange<'_>, first: &[u8], last: &[u8]) -> bool
    ensures { result ≡ (not (is_lt (key_cmp last.now range.entry.least.now))
        && not (is_lt (key_cmp range.entry.greatest.now first.now))) }
{
    !key_order(last, range.least).is_lt() && !key_order(range.greatest, first).is_lt()
}
