ghost use Rattle.std.specs.Prelude.{◌≡◌, ◌==◌, ◌++◌, length, IfOk};
ghost use Rattle.std.specs.List.{prefix_len};
ghost use Rattle.std.specs.Option.{option_copied};
ghost use Rattle.vl_model.specs.Entries.{in_order};
ghost use Rattle.vl_model.specs.Winners.{winner, exact};
ghost use Rattle.vl_model.specs.Reads.{is_from, is_up_to};
ghost use Rattle.vl_memtable.specs.Heads.{AreHeads};
ghost use Rattle.vl_model.specs.EntryOrder.{IsInOrder, along, within};
ghost use Rattle.vl_model.specs.Lookups.{
  is_ahead,
  first_failing,
  if_exact,
  if_of_key,
  is_not_past,
  is_short_of,
};

use crate::RunCursor;
use crate::heads::{head_of, heads_of};
use crate::merged::merged;
use crate::place::{Sought, first_alike};
use std::alloc::{AllocError, Global};
use std::marker::Model;
use std::sync::Arc;
use vl_model::{Entry, Span, Way, key_order};

/// Entries that don't change, in order, with no key and version twice. Several may share them.
#[derive(Drop)]
pub struct Run {
    held: Arc<Held, Global>,
}

// What is shared: the entries, and the heads of their keys, which stand together so that few are fetched from far.
#[derive(Drop)]
struct Held {
    entries: Vec<Entry>,
    heads: Vec<u64>,
}

impl Model for Run {
    ghost use Rattle.std.specs.Prelude.{List};
    ghost use Rattle.std.specs.Arc.{arc_value};
    ghost use Rattle.vl_model.specs.declared.entry.Entry.{Entry};
    ghost use Rattle.vl_memtable.specs.Heads.{AreHeads};
    ghost use Rattle.vl_model.specs.EntryOrder.{IsInOrder};

    ghost Value = { List Entry };

    ghost view = { λ a. (arc_value a.held).entries.items };

    ghost invariant = { λ a. IsInOrder (arc_value a.held).entries.items
        × AreHeads (arc_value a.held).heads.items (arc_value a.held).entries.items };
}

impl Run {
    /// The run of these entries.
    pub fn from_writes(entries: Vec<Entry>) -> Result<Self, AllocError>
        requires { IsInOrder entries.items }
        ensures { IfOk result (λ run. run ≡ entries.items) }
    {
        let alloc = *entries.allocator();
        let heads = heads_of(alloc, &entries)?;
        Ok(Run {
            held: Arc::new(alloc, Held { entries, heads })?,
        })
    }

    /// The same once more, without a copy of the entries. It may want memory.
    pub fn share(&self) -> Result<Self, AllocError>
        ensures { IfOk result (λ shared. shared ≡ self.now) }
    {
        Ok(Run {
            held: self.held.clone()?,
        })
    }

    pub fn len(&self) -> usize
        ensures { result ≡ length self.now }
    {
        self.held.entries.len()
    }

    pub fn is_empty(&self) -> bool
        ensures { result ≡ (length self.now == 0) }
    {
        self.as_slice().is_empty()
    }

    /// The entries in order.
    pub fn as_slice(&self) -> &[Entry]
        ensures entries { result.now ≡ self.now }
        ensures in_order { IsInOrder result.now }
    {
        &self.held.entries
    }

    /// Of the entries of a key with a version of at most a number the one of the greatest version.
    pub fn find(&self, key: &[u8], number: u64) -> Option<&Entry>
        ensures { option_copied result ≡ winner self.now key.now number }
    {
        match self.first_at(key, number) {
            Some(entry) if key == entry.key.as_slice() => Some(entry),
            _ => None,
        }
    }

    /// The entry of a key and version.
    pub fn exact(&self, key: &[u8], version: u64) -> Option<&Entry>
        ensures { option_copied result ≡ exact self.now key.now version }
    {
        match self.first_at(key, version) {
            Some(entry) if key == entry.key.as_slice() && entry.version == version => Some(entry),
            _ => None,
        }
    }

    /// The entries of this run over an older one's: of those of one key and version this run's. It
    /// copies no key and no value.
    pub fn over(&self, alloc: Global, older: &Run) -> Result<Run, AllocError>
        ensures { IfOk result (λ run. run ≡ in_order (self.now ++ older.now)) }
    {
        Run::from_writes(merged(alloc, self.as_slice(), older.as_slice())?)
    }

    /// A cursor over all entries, which shares them. It may want memory.
    pub fn cursor(&self, way: Way) -> Result<RunCursor, AllocError>
        ensures { IfOk result (λ cursor. cursor ≡ along way self.now) }
    {
        let end = self.len();
        Ok(RunCursor::between(self.share()?, 0, end, way))
    }

    /// A cursor over the entries whose keys are in an interval, which shares them. Both of its ends are
    /// found by halving. It may want memory.
    pub fn cursor_within(&self, span: &Span, way: Way) -> Result<RunCursor, AllocError>
        ensures { IfOk result (λ cursor. cursor ≡ along way (within span.now self.now)) }
    {
        let entries = self.as_slice();
        let end = end_of(entries, span);
        let first = start_of(entries, span).min(end);
        Ok(RunCursor::between(self.share()?, first, end, way))
    }

    // The first entry that doesn't come before the place of a key and version, or none where its key's head shows that
    // it is of another key.
    fn first_at(&self, key: &[u8], version: u64) -> Option<&Entry>
        ensures of_key { if_of_key key.now (option_copied result)
            ≡ if_of_key key.now (first_failing (is_ahead key.now version) self.now) }
        ensures exact { if_exact key.now version (option_copied result)
            ≡ if_exact key.now version (first_failing (is_ahead key.now version) self.now) }
        ensures in_order { IsInOrder self.now }
    {
        let sought = Sought {
            key,
            head: head_of(key),
            version,
        };
        let held = self.held();
        first_alike(&held.entries, &held.heads, &sought)
    }

    fn held(&self) -> &Held
        ensures entries { result.now.entries.items ≡ self.now }
        ensures in_order { IsInOrder result.now.entries.items }
        ensures heads { AreHeads result.now.heads.items result.now.entries.items }
    {
        &self.held
    }
}

// How many of the entries have keys below an interval.
fn start_of(entries: &[Entry], span: &Span) -> usize
    requires { IsInOrder entries.now }
    ensures { result ≡ prefix_len (is_short_of span.now) entries.now }
{
    entries.partition_point(|entry| !is_from(span, entry.key.as_slice()))
}

// How many of them have keys that aren't above it.
fn end_of(entries: &[Entry], span: &Span) -> usize
    requires { IsInOrder entries.now }
    ensures { result ≡ prefix_len (is_not_past span.now) entries.now }
{
    entries.partition_point(|entry| is_up_to(span, entry.key.as_slice()))
}

fn is_from(span: &Span, key: &[u8]) -> bool
    ensures { result ≡ is_from span.now.lo key.now }
{
    match &span.lo {
        Some(low) => !key_order(key, low.as_slice()).is_lt(),
        None => true,
    }
}

fn is_up_to(span: &Span, key: &[u8]) -> bool
    ensures { result ≡ is_up_to span.now.hi span.now.closed key.now }
{
    match &span.hi {
        Some(high) if span.closed => !key_order(high.as_slice(), key).is_lt(),
        Some(high) => key_order(key, high.as_slice()).is_lt(),
        None => true,
    }
}
