ghost use Rattle.std.specs.Prelude.{◌≡◌, IfOk};
ghost use Rattle.std.specs.BTreeMap.{IsOrdered};
ghost use Rattle.vl_disk.specs.Name.{name_cmp};
ghost use Rattle.vl_mem.specs.Kept.{standing_names};

use crate::entry::Entry;
use std::alloc::{AllocError, Global};
use std::collections::BTreeMap;
use vl_disk::Name;

/// The names of the files that stand.
pub fn names_of(
    alloc: Global,
    entries: &BTreeMap<Name, Entry, Global>,
) -> Result<Vec<Name>, AllocError>
    ensures names { IfOk result (λ names. names.items ≡ standing_names entries.now.entries) }
    ensures ordered { IsOrdered name_cmp entries.now }
{
    let mut names = Vec::new(alloc);
    for (name, entry) in entries.iter() {
        if entry.stands() {
            names.push(*name)?;
        }
    }
    Ok(names)
}
