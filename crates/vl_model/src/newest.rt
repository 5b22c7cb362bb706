ghost use Rattle.std.specs.Prelude.{◌≡◌, nat_le};
ghost use Rattle.std.specs.Option.{option_copied};
ghost use Rattle.vl_model.specs.Winners.{newest_of};

use crate::Entry;

/// Of two entries the one of the greater version, and of two of one version the first.
pub fn newest_of(first: Option<Entry>, second: Option<Entry>) -> Option<Entry>
    ensures { result ≡ newest_of first second }
{
    match (first, second) {
        (Some(a), Some(b)) => Some(if counts(&a, &b) { a } else { b }),
        (None, other) => other,
        (some, None) => some,
    }
}

/// The same of entries that are lent.
pub fn newest_ref<'a>(first: Option<&'a Entry>, second: Option<&'a Entry>) -> Option<&'a Entry>
    ensures { option_copied result ≡ newest_of (option_copied first.entry) (option_copied second.entry) }
{
    match (first, second) {
        (Some(a), Some(b)) => Some(if counts(a, b) { a } else { b }),
        (None, other) => other,
        (some, None) => some,
    }
}

// Whether the first of two counts.
fn counts(first: &Entry, second: &Entry) -> bool
    ensures { result ≡ nat_le second.now.version first.now.version }
{
    second.version <= first.version
}
