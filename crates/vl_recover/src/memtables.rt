// The memtable of a log that was read.
ghost use Rattle.std.specs.Prelude.{◌≡◌, reverse, IfOk};
ghost use Rattle.vl_memtable.specs.Lengths.{one_run};
ghost use Rattle.vl_model.specs.Entries as order;

use std::alloc::{AllocError, Global};
use vl_memtable::{Memtable, Run};
use vl_model::{Entry, entry_order};

/// A memtable of these entries, of which the last counts most: all are sorted at once.
pub fn memtable_of(alloc: Global, entries: Vec<Entry>) -> Result<Memtable, AllocError>
    ensures entries { IfOk result (λ memtable. memtable.entries ≡ order.in_order (reverse entries.items)) }
    ensures runs { IfOk result (λ memtable. memtable.lengths ≡ one_run memtable.entries) }
{
    let memtable = Memtable::new(alloc);
    let mut last_first = entries;
    last_first.reverse();
    let run = Run::from_writes(sorted(last_first)?)?;
    if run.is_empty() {
        return Ok(memtable);
    }
    memtable.over(run)
}

// The entries in order; of those of one key and version the first alone.
fn sorted(entries: Vec<Entry>) -> Result<Vec<Entry>, AllocError>
    ensures { IfOk result (λ sorted. sorted.items ≡ order.in_order entries.items) }
{
    let mut sorted = entries;
    sorted.sort_by(|a, b| entry_order(a, b))?;
    sorted.dedup_by(|later, first| entry_order(later, first).is_eq());
    Ok(sorted)
}
