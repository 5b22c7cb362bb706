ghost use Rattle.std.specs.Prelude.{◌≡◌, Some};
ghost use Rattle.std.specs.Ordering.{eq_by_cmp};
ghost use Rattle.vl_model.specs.Entries.{is_gone};
ghost use Rattle.vl_merge.specs.Visible.{is_hidden};
ghost use Rattle.vl_model.specs.Keys.{key_cmp};
ghost use Rattle.vl_model.specs.Winners.{newest_of};
ghost use Rattle.vl_merge.specs.Held.{held_with, held_after, only_shown, passed_by, passed};

use crate::Hides;
use vl_model::{Body, Entry, key_order, newest_of};

// Takes one entry more, which counts where its version is at most the number. Where it is of another
// key, that of the entry held is done, and its winner is given.
pub fn pass(held: &mut Option<Entry>, entry: Entry, number: u64, hides: Hides) -> Option<Entry>
    ensures held { held.new ≡ held_after number held.old entry }
    ensures gives { result ≡ passed hides number held.old entry }
{
    if entry.version <= number {
        pass_counted(held, entry, hides)
    } else {
        None
    }
}

fn pass_counted(held: &mut Option<Entry>, entry: Entry, hides: Hides) -> Option<Entry>
    ensures held { held.new ≡ held_with held.old entry }
    ensures gives { result ≡ passed_by hides held.old entry }
{
    let Some(best) = held.take() else {
        *held = Some(entry);
        return None;
    };
    if is_of_one_key(&best, &entry) {
        *held = newest_of(Some(best), Some(entry));
        None
    } else {
        *held = Some(entry);
        only_shown(Some(best), hides)
    }
}

// The entry, where it is shown.
pub fn only_shown(entry: Option<Entry>, hides: Hides) -> Option<Entry>
    ensures { result ≡ only_shown hides entry }
{
    match entry {
        None => None,
        Some(entry) => {
            if is_hidden(&entry, hides) {
                None
            } else {
                Some(entry)
            }
        }
    }
}

fn is_hidden(entry: &Entry, hides: Hides) -> bool
    ensures { result ≡ is_hidden hides entry.now }
{
    match hides {
        Hides::Gone => is_gone(&entry.body),
        Hides::UpTo(since) => entry.version <= since,
    }
}

fn is_gone(body: &Body) -> bool
    ensures { result ≡ is_gone body.now }
{
    matches!(body, Body::Gone)
}

fn is_of_one_key(a: &Entry, b: &Entry) -> bool
    ensures { result ≡ eq_by_cmp key_cmp a.now.key b.now.key }
{
    key_order(a.key.as_slice(), b.key.as_slice()).is_eq()
}
