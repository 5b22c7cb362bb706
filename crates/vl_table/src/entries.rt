//! The entries of a block that was tested, where they lie in memory.

ghost use Rattle.std.specs.Prelude.{◌≡◌, ◌<◌, IfSome, IsSomeAnd, List, OnSome, Some, length, slice_get};
ghost use Rattle.std.specs.List.{prefix_len};
ghost use Rattle.vl_model.specs.declared.entry.Entry.{Entry};
ghost use Rattle.vl_model.specs.Lookups.{first_failing, is_ahead};
ghost use Rattle.vl_table.specs.body.Entries.{IsEntry, entry_of};
ghost use Rattle.vl_table.specs.body.Founds.{IsShort};
ghost use Rattle.vl_table.specs.body.Starts.{StartsAt};
ghost use Rattle.vl_table.specs.Scans.{IsScan, Lists};

use crate::body::{EntryRef, Found, entry_at};
use vl_model::{Place, place_order};

/// The entries of a block, and where each begins.
#[derive(Clone, Copy)]
pub struct Entries<'a> {
    pub format: u32,
    // The bytes behind the count.
    pub bytes: &'a [u8],
    pub starts: &'a [u16],
}

/// What a block says of a key and a version.
#[derive(Clone, Copy)]
pub enum Scan {
    /// All its entries come before their place.
    Behind,
    /// The first entry at or behind their place is of the key.
    At(Found),
    /// It is of another key.
    Other,
}

impl<'a> Entries<'a> {
    /// No entries.
    pub fn none() -> Self {
        Entries {
            format: 0,
            bytes: &[],
            starts: &[],
        }
    }

    /// The entry with an index.
    pub fn get(&self, index: usize) -> Option<EntryRef<'a>>
        ensures found { (es : List Entry) (e : Entry) → Lists self.now es → slice_get es index ≡ Some e
            → IsSomeAnd result (λ r. entry_of r ≡ e) }
        ensures lawful { IfSome result (λ r. IsEntry self.now.format (entry_of r)) }
        ensures within { OnSome result (index < length self.now.starts.now) }
    {
        if index >= self.starts.len() {
            return None;
        }
        entry_at(self.format, self.bytes, self.starts[index])
    }

    /// Looks for a key and a version by halving. Only the entry that is found is copied.
    pub fn look(&self, key: &[u8], version: u64) -> Scan
        ensures { (es : List Entry) → Lists self.now es → IsScan key.now (first_failing (is_ahead key.now version) es) result }
    {
        match self.get(self.place(key, version)) {
            None => Scan::Behind,
            Some(entry) => scan_at(&entry, key),
        }
    }

    // How many of them come before the place of a key and a version.
    fn place(&self, key: &[u8], version: u64) -> usize
        ensures { (es : List Entry) → Lists self.now es → result ≡ prefix_len (is_ahead key.now version) es }
    {
        let mut low = 0;
        let mut high = self.starts.len();
        'halves: while low < high {
            let middle = low + (high - low) / 2;
            if self.is_ahead(self.starts[middle], key, version) {
                low = middle + 1;
            } else {
                high = middle;
            }
        }
        low
    }

    // Whether the entry that begins at a place comes before the place of a key and a version.
    fn is_ahead(&self, start: u16, key: &[u8], version: u64) -> bool
        ensures { (e : Entry) → IsEntry self.now.format e → StartsAt self.now.format self.now.bytes.now start e
            → result ≡ is_ahead key.now version e }
    {
        match entry_at(self.format, self.bytes, start) {
            None => false,
            Some(entry) => is_before(&entry, key, version),
        }
    }
}

// Whether an entry comes before the place of a key and a version.
fn is_before(entry: &EntryRef, key: &[u8], version: u64) -> bool
    ensures { result ≡ is_ahead key.now version (entry_of entry.now) }
{
    let place = Place { key, version };
    place_order(&place, &entry.place()).is_gt()
}

// What an entry is that doesn't come before the place of a key.
fn scan_at(entry: &EntryRef, key: &[u8]) -> Scan
    requires { IsShort (entry_of entry.now).body }
    ensures { IsScan key.now (Some (entry_of entry.now)) result }
{
    if key == entry.key {
        Scan::At(Found::of(entry))
    } else {
        Scan::Other
    }
}
