//! What is looked for in tables.

ghost use Rattle.std.specs.Prelude.{◌≡◌, ℕ, List, None};
ghost use Rattle.std.specs.Option.{option_map};
ghost use Rattle.vl_table.specs.body.Founds.{found_of};
ghost use Rattle.vl_model.specs.Winners.{newest_of};
ghost use Rattle.vl_version.specs.levels.Looks.{better, is_wanted};

use vl_table::Found;

// Which entry of a key is looked for.
#[derive(Clone, Copy)]
pub enum Look {
    // Of those with a version of at most this number the one of the greatest version.
    UpTo(u64),
    // The one of this version.
    Exactly(u64),
}

// Of what newer sources have of a key and what older ones have the one that counts.
pub fn better(look: Look, newer: Option<Found>, older: Option<Found>) -> Option<Found>
    ensures counts { (key : List ℕ) → option_map (found_of key) result
        ≡ better look (option_map (found_of key) newer) (option_map (found_of key) older) }
    ensures same { older ≡ None → result ≡ newer }
{
    match look {
        Look::UpTo(_) => greater(newer, older),
        Look::Exactly(_) => newer.or(older),
    }
}

// The one of the greater version, and of two of one version the first.
fn greater(newer: Option<Found>, older: Option<Found>) -> Option<Found>
    ensures counts { (key : List ℕ) → option_map (found_of key) result
        ≡ newest_of (option_map (found_of key) newer) (option_map (found_of key) older) }
    ensures same { older ≡ None → result ≡ newer }
{
    match (newer, older) {
        (Some(a), Some(b)) => Some(if b.version <= a.version { a } else { b }),
        (None, other) => other,
        (some, None) => some,
    }
}

// Whether what counts may stand in a table that has this greatest version.
pub fn is_wanted(look: Look, best: &Option<Found>, greatest: u64) -> bool
    ensures { (key : List ℕ) → result ≡ is_wanted look (option_map (found_of key) best.now) greatest }
{
    match (look, best) {
        (Look::UpTo(_), None) => true,
        (Look::UpTo(_), Some(found)) => found.version < greatest,
        (Look::Exactly(version), None) => version <= greatest,
        (Look::Exactly(_), Some(_)) => false,
    }
}
