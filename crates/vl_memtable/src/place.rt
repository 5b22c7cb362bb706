// Where a key and version have their place among entries in order.
ghost use Rattle.std.specs.Prelude.{◌≡◌};
ghost use Rattle.std.specs.List.{prefix_len};
ghost use Rattle.std.specs.Option.{option_copied};
ghost use Rattle.vl_memtable.specs.Heads.{AreHeads, IsHead};
ghost use Rattle.vl_model.specs.Lookups.{first_failing, if_exact, if_of_key, is_ahead};
ghost use Rattle.vl_model.specs.EntryOrder.{IsInOrder};

use std::cmp::Ordering;
use vl_model::{Entry, Place, place_order};

// A place that is looked for: of a key, with its head, and a version.
#[derive(Clone, Copy)]
pub struct Sought<'a> {
    pub key: &'a [u8],
    pub head: u64,
    pub version: u64,
}

// The first of the entries, whose keys have these heads, that doesn't come before a place. Where its head shows that it is of
// another key, it isn't looked at, and none is given.
pub fn first_alike<'a>(
    entries: &'a [Entry],
    heads: &[u64],
    sought: &Sought<'_>,
) -> Option<&'a Entry>
    requires in_order { IsInOrder entries.now }
    requires heads { AreHeads heads.now entries.now }
    requires sought { IsHead sought.now.key.now sought.now.head }
    ensures of_key { if_of_key sought.now.key.now (option_copied result)
        ≡ if_of_key sought.now.key.now (first_failing (is_ahead sought.now.key.now sought.now.version) entries.now) }
    ensures exact { if_exact sought.now.key.now sought.now.version (option_copied result)
        ≡ if_exact sought.now.key.now sought.now.version
        (first_failing (is_ahead sought.now.key.now sought.now.version) entries.now) }
{
    let at = place(entries, heads, sought);
    if at >= entries.len() {
        return None;
    }
    let head = heads[at];
    if head != sought.head {
        return None;
    }
    Some(&entries[at])
}

// How many of the entries, whose keys have these heads, come before a place. It is found by halving.
fn place(entries: &[Entry], heads: &[u64], sought: &Sought<'_>) -> usize
    requires in_order { IsInOrder entries.now }
    requires heads { AreHeads heads.now entries.now }
    requires sought { IsHead sought.now.key.now sought.now.head }
    ensures { result ≡ prefix_len (is_ahead sought.now.key.now sought.now.version) entries.now }
{
    let mut low = 0;
    let mut high = entries.len();
    'halving: while low < high {
        let middle = low + (high - low) / 2;
        if is_ahead(sought, &entries[middle], heads[middle]) {
            low = middle + 1;
        } else {
            high = middle;
        }
    }
    low
}

// Whether an entry, whose key has this head, comes before the place. It is looked at only where the heads are equal.
fn is_ahead(sought: &Sought<'_>, entry: &Entry, head: u64) -> bool
    requires sought { IsHead sought.now.key.now sought.now.head }
    requires head { IsHead entry.now.key head }
    ensures { result ≡ is_ahead sought.now.key.now sought.now.version entry.now }
{
    match head.cmp(&sought.head) {
        Ordering::Less => true,
        Ordering::Greater => false,
        Ordering::Equal => comes_before(sought, entry),
    }
}

// The same for any entry.
fn comes_before(sought: &Sought<'_>, entry: &Entry) -> bool
    ensures { result ≡ is_ahead sought.now.key.now sought.now.version entry.now }
{
    let place = Place {
        key: sought.key,
        version: sought.version,
    };
    place_order(&place, &entry.place()).is_gt()
}
