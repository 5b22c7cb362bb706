// The least of what several searches in a map find.
ghost use Rattle.std.specs.Prelude.{◌≡◌, true, map};
ghost use Rattle.std.specs.Box.{boxed_slice_items};
ghost use Rattle.std.specs.Option.{option_copied};
ghost use Rattle.std.specs.FinMap.{is_sorted};
ghost use Rattle.vl_model.specs.Keys.{key_cmp};
ghost use Rattle.vl_conflict.specs.Notes.{lent, first_in, is_late_within};
ghost use Rattle.vl_conflict.specs.Recent.{is_late_at_any, is_late_within_any, lesser_of};

use crate::last_commit_map::LastCommitMap;
use std::boxed::BoxedSlice;
use std::collections::BTreeSet;
use vl_model::{Key, Span, key_order};

/// The first of one of the keys with a number above this one.
pub fn first_of_keys<'a>(
    notes: &'a LastCommitMap,
    number: u64,
    keys: &BTreeSet<BoxedSlice<u8>>,
) -> Option<(&'a Key, u64)>
    requires { is_sorted key_cmp notes.now.named ≡ true }
    ensures { lent result ≡ first_in (is_late_at_any number (map boxed_slice_items keys.now.keys)) notes.now.named }
{
    let mut first = None;
    for key in keys {
        let key = key.as_slice();
        first = lesser(
            first,
            notes.first_newer_than(number, Some(key), Some(key), true),
        );
    }
    first
}

/// The first in one of the intervals with a number above this one.
pub fn first_of_spans<'a>(
    notes: &'a LastCommitMap,
    number: u64,
    spans: &[Span],
) -> Option<(&'a Key, u64)>
    requires { is_sorted key_cmp notes.now.named ≡ true }
    ensures { lent result ≡ first_in (is_late_within_any number spans.now) notes.now.named }
{
    let mut first = None;
    for span in spans {
        first = lesser(first, first_within(notes, number, span));
    }
    first
}

fn first_within<'a>(notes: &'a LastCommitMap, number: u64, span: &Span) -> Option<(&'a Key, u64)>
    ensures { lent result ≡ first_in (is_late_within number span.now) notes.now.named }
{
    let lo = bound(&span.lo);
    let hi = bound(&span.hi);
    notes.first_newer_than(number, lo, hi, span.closed)
}

fn bound(key: &Option<Key>) -> Option<&[u8]>
    ensures { option_copied result ≡ key.now }
{
    match key {
        Some(key) => Some(key.as_slice()),
        None => None,
    }
}

/// The one of the lesser key.
pub fn lesser<'a>(a: Option<(&'a Key, u64)>, b: Option<(&'a Key, u64)>) -> Option<(&'a Key, u64)>
    ensures { lent result ≡ lesser_of (lent a.entry) (lent b.entry) }
{
    match (a, b) {
        (None, _) => b,
        (Some(_), None) => a,
        (Some((x, _)), Some((y, _))) => {
            if key_order(x.as_slice(), y.as_slice()).is_gt() {
                b
            } else {
                a
            }
        }
    }
}
