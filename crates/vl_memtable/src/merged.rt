ghost use Rattle.std.specs.Prelude.{◌≡◌, ◌++◌, IfOk, OnOk};
ghost use Rattle.vl_model.specs.Entries.{in_order};
ghost use Rattle.vl_model.specs.EntryOrder.{IsInOrder};

use std::alloc::{AllocError, Global};
use std::cmp::Ordering;
use vl_model::{Entry, entry_order};

// The entries of both in order; of those of one key and version the newer one's. They share their
// bytes with those that were given.
pub fn merged(alloc: Global, newer: &[Entry], older: &[Entry]) -> Result<Vec<Entry>, AllocError>
    requires newer { IsInOrder newer.now }
    requires older { IsInOrder older.now }
    ensures { IfOk result (λ both. both.items ≡ in_order (newer.now ++ older.now)) }
{
    let mut both = Vec::new(alloc);
    both.reserve(newer.len().saturating_add(older.len()))?;
    let mut i = 0;
    let mut j = 0;
    'steps: while i < newer.len() && j < older.len() {
        let a = &newer[i];
        let b = &older[j];
        match entry_order(a, b) {
            Ordering::Less => {
                both.push(a.share()?)?;
                i += 1;
            }
            Ordering::Equal => {
                both.push(a.share()?)?;
                i += 1;
                j += 1;
            }
            Ordering::Greater => {
                both.push(b.share()?)?;
                j += 1;
            }
        }
    }
    share_all(&mut both, &newer[i..])?;
    share_all(&mut both, &older[j..])?;
    Ok(both)
}

fn share_all(all: &mut Vec<Entry>, entries: &[Entry]) -> Result<(), AllocError>
    ensures { OnOk result (all.new.items ≡ all.old.items ++ entries.now) }
{
    for entry in entries {
        all.push(entry.share()?)?;
    }
    Ok(())
}
