//! A caller's own writes as entries of the number at which it reads. They come before all entries of other sources.

ghost use Rattle.std.specs.Prelude.{◌≡◌, ◌≤◌, length, not, IfOk, IsTrue};
ghost use Rattle.std.specs.FinMap.{is_sorted};
ghost use Rattle.std.specs.List.{filter, prefix_len};
ghost use Rattle.vl_model.specs.Keys.{key_cmp};
ghost use Rattle.vl_model.specs.Reads.{is_within};

use std::alloc::AllocError;
use vl_model::{Body, Change, Cursor, Entry, Key, Way, key_order};

/// Own writes, one after the other.
#[derive(Drop)]
pub struct OwnCursor<'a> {
    // Those that are left, their keys rising.
    writes: &'a [(Key, Change)],
    way: Way,
    number: u64,
}

impl<'a> Cursor for OwnCursor<'a> {
    ghost use Rattle.std.specs.Prelude.{Some, length, false};
    ghost use Rattle.vl_version.specs.Own.{own_left};

    type Fault = AllocError;

    type Reader = ();

    ghost left = { λ c. Some (own_left c) };

    ghost budget = { λ c. length c.writes.now };

    ghost faults = { λ _. 0 };

    ghost is_read_fault = { λ _. false };

    ghost may_fail = { λ _ _. Unit {0} };

    ghost stands_to = { λ _ _. Unit {0} };

    fn next(&mut self, _: &mut ()) -> Result<Option<Entry>, AllocError> {
        let writes = self.writes;
        let split = match self.way {
            Way::Up => writes.split_first(),
            Way::Down => writes.split_last(),
        };
        let Some((write, rest)) = split else {
            return Ok(None);
        };
        let entry = own_entry(self.number, write)?;
        self.writes = rest;
        Ok(Some(entry))
    }
}

impl<'a> OwnCursor<'a> {
    ghost use Rattle.vl_version.specs.Own.{own_left, own_entries};
    ghost use Rattle.vl_model.specs.EntryOrder.{along};

    /// A cursor over those of these writes, whose keys rise, that are from `low` on and below `high`, which are found by
    /// halving.
    pub fn within(
        writes: &'a [(Key, Change)],
        low: &[u8],
        high: &[u8],
        way: Way,
        number: u64,
    ) -> Self
        requires { IsTrue (is_sorted key_cmp writes.now) }
        ensures { own_left result
            ≡ along way (own_entries number (filter (λ write. is_within low.now high.now write.0) writes.now)) }
    {
        OwnCursor {
            writes: cut(writes, low, high),
            way,
            number,
        }
    }
}

ghost use Rattle.vl_version.specs.Own.{own_entry as entry_of, is_key_below};

// A write as an entry of this number, which shares its key and its value.
fn own_entry(number: u64, write: &(Key, Change)) -> Result<Entry, AllocError>
    ensures { IfOk result (λ entry. entry ≡ entry_of number write.now) }
{
    let (key, change) = write;
    let body = match change {
        Change::Set(value) => Body::Inline(value.share()?),
        Change::Delete => Body::Gone,
    };
    Ok(Entry {
        key: key.share()?,
        version: number,
        body,
    })
}

// Of writes whose keys rise those with keys in an interval.
fn cut<'a>(writes: &'a [(Key, Change)], low: &[u8], high: &[u8]) -> &'a [(Key, Change)]
    requires { IsTrue (is_sorted key_cmp writes.now) }
    ensures { result.now ≡ filter (λ write. is_within low.now high.now write.0) writes.now }
{
    let rest = cut_front(writes, low);
    if high.is_empty() {
        rest
    } else {
        cut_back(rest, high)
    }
}

// Those from a key on.
fn cut_front<'a>(writes: &'a [(Key, Change)], low: &[u8]) -> &'a [(Key, Change)]
    requires { IsTrue (is_sorted key_cmp writes.now) }
    ensures cut { result.now ≡ filter (λ write. not (is_key_below low.now write)) writes.now }
    ensures sorted { IsTrue (is_sorted key_cmp result.now) }
{
    let first = count_below(writes, low);
    &writes[first..]
}

// Those below a key.
fn cut_back<'a>(writes: &'a [(Key, Change)], high: &[u8]) -> &'a [(Key, Change)]
    requires { IsTrue (is_sorted key_cmp writes.now) }
    ensures { result.now ≡ filter (is_key_below high.now) writes.now }
{
    let end = count_below(writes, high);
    &writes[..end]
}

// How many of writes whose keys rise have keys below this one.
fn count_below(writes: &[(Key, Change)], key: &[u8]) -> usize
    requires { IsTrue (is_sorted key_cmp writes.now) }
    ensures count { result ≡ prefix_len (is_key_below key.now) writes.now }
    ensures within { result ≤ length writes.now }
{
    writes.partition_point(|write| key_order(write.0.as_slice(), key).is_lt())
}
