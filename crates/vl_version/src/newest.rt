//! What counts of a key: an entry in memory, or what a table has.

ghost use Rattle.std.specs.Prelude.{◌≡◌, List, ℕ};
ghost use Rattle.std.specs.Option.{option_copied, option_map};
ghost use Rattle.vl_table.specs.body.Founds.{found_of};
ghost use Rattle.vl_model.specs.Winners.{newest_of};
ghost use Rattle.vl_model.specs.declared.entry.Entry.{Entry};
ghost use Rattle.vl_version.specs.Newest as what;

use vl_model::Entry;
use vl_table::{Found, FoundBody};

/// What counts of a key.
#[derive(Clone, Copy)]
pub enum Newest<'a> {
    None,
    Held(&'a Entry),
    Tabled(Found),
}

/// The version of an entry in memory alone, as what newer sources have where tables are looked through: none of these is
/// read that has nothing above it.
pub fn stand_in(held: Option<&Entry>) -> Option<Found>
    ensures { result ≡ what.stand_in (option_copied held.entry) }
{
    match held {
        None => None,
        Some(entry) => Some(Found {
            version: entry.version,
            body: FoundBody::Gone,
        }),
    }
}

/// The one that counts of an entry in memory and of what tables have.
pub fn newer_of<'a>(held: Option<&'a Entry>, found: Option<Found>) -> Newest<'a>
    ensures { (key : List ℕ) → what.newest_entry key result
        ≡ newest_of (option_copied held.entry) (option_map (found_of key) found) }
{
    match (held, found) {
        (None, None) => Newest::None,
        (None, Some(found)) => Newest::Tabled(found),
        (Some(entry), None) => Newest::Held(entry),
        (Some(entry), Some(found)) => {
            if found.version <= entry.version {
                Newest::Held(entry)
            } else {
                Newest::Tabled(found)
            }
        }
    }
}

/// The version of what counts.
pub fn version_of(newest: Newest<'_>) -> Option<u64>
    ensures { (key : List ℕ) → result ≡ option_map (λ (e : Entry). e.version) (what.newest_entry key newest.entry) }
{
    match newest {
        Newest::None => None,
        Newest::Held(entry) => Some(entry.version),
        Newest::Tabled(found) => Some(found.version),
    }
}
