//! Logs whose memtables wait for their flush, the newest first.

ghost use Rattle.std.specs.Prelude.{◌≡◌};
ghost use Rattle.std.specs.Option.{option_copied};
ghost use Rattle.vl_model.specs.Winners.{exact, winner};
ghost use Rattle.vl_version.specs.Sources.{held_entries};

use vl_memtable::FrozenLog;
use vl_model::{Entry, newest_ref};

/// Of the entries of a key with a version of at most a number the one of the greatest version.
pub fn find_frozen<'a>(frozen: &'a [FrozenLog], key: &[u8], number: u64) -> Option<&'a Entry>
    ensures { option_copied result ≡ winner (held_entries frozen.now) key.now number }
{
    let mut best = None;
    for log in frozen {
        best = newest_ref(best, log.memtable.memtable().find(key, number));
    }
    best
}

/// The entry of a key and version in the first of these memtables that has one.
pub fn exact_frozen<'a>(frozen: &'a [FrozenLog], key: &[u8], version: u64) -> Option<&'a Entry>
    ensures { option_copied result ≡ exact (held_entries frozen.now) key.now version }
{
    for log in frozen {
        if let Some(entry) = log.memtable.memtable().exact(key, version) {
            return Some(entry);
        }
    }
    None
}
