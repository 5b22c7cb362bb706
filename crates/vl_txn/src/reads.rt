ghost use Rattle.std.specs.Prelude.{◌≡◌, [], OnOk, OnErr, IfOk, map};
ghost use Rattle.std.specs.Box.{boxed_slice_items};
ghost use Rattle.std.specs.BTreeSet.{insert_key};
ghost use Rattle.std.specs.Option.{option_copied};
ghost use Rattle.vl_model.specs.Keys.{key_cmp};
ghost use Rattle.vl_model.specs.Notes.{AreNotesOf};
ghost use Rattle.vl_model.specs.Reads.{bound};
ghost use Rattle.vl_txn.specs.Reads.{no_notes, has_key, after_get, scan_of, NotesGet, NotesScan, AddsSpan, covered_up_to};

use crate::Writes;
use std::alloc::{AllocError, Global};
use std::boxed::BoxedSlice;
use std::collections::BTreeSet;
use std::marker::Model;
use vl_model::{Key, Span, Value, Way};

/// What a transaction noted of its reads: each key that it read, once, and each interval that a scan covered.
#[derive(Drop)]
pub struct Reads {
    keys: BTreeSet<BoxedSlice<u8>>,
    spans: Vec<Span>,
}

impl Model for Reads {
    ghost use Rattle.std.specs.Prelude.{map};
    ghost use Rattle.std.specs.Box.{boxed_slice_items};
    ghost use Rattle.vl_txn.specs.Reads.{Notes};

    ghost Value = { Notes };

    ghost view = { λ a. record { keys = map boxed_slice_items a.keys.keys; spans = a.spans.items } };
}

impl Reads {
    pub fn new(alloc: Global) -> Self
        ensures notes { result ≡ no_notes }
        ensures of_none { AreNotesOf [] result.keys result.spans }
    {
        Reads {
            keys: BTreeSet::new(alloc),
            spans: Vec::new(alloc),
        }
    }

    /// Notes a get of a key, which is none where the transaction has written the key itself. A key that is noted
    /// already stays noted once.
    pub fn note_get(&mut self, own: &Writes, key: &[u8]) -> Result<(), AllocError>
        ensures ok { OnOk result (self.new ≡ after_get own.now key.now self.old) }
        ensures noted { OnOk result (NotesGet own.now key.now self.old self.new) }
        ensures err { OnErr result (self.new ≡ self.old) }
    {
        if own.get(key).is_some() || self.has(key) {
            return Ok(());
        }
        self.add(key)
    }

    /// Notes a scan from `lo` on and below `hi` that gave these rows, of which there may be as many as the limit.
    pub fn note_scan(
        &mut self,
        lo: &[u8],
        hi: &[u8],
        limit: u16,
        way: Way,
        rows: &[(Key, Value)],
    ) -> Result<(), AllocError>
        ensures ok { OnOk result (AddsSpan (scan_of lo.now hi.now limit way rows.now) self.old self.new) }
        ensures noted { OnOk result (NotesScan (scan_of lo.now hi.now limit way rows.now) self.old self.new) }
        ensures err { OnErr result (self.new ≡ self.old) }
    {
        let alloc = *self.spans.allocator();
        let last = if rows.len() >= limit as usize {
            rows.last()
        } else {
            None
        };
        let span = covered(alloc, lo, hi, way, last)?;
        self.spans.push(span)?;
        Ok(())
    }

    /// The keys that were read.
    pub fn keys(&self) -> &BTreeSet<BoxedSlice<u8>>
        ensures { map boxed_slice_items result.now.keys ≡ self.now.keys }
    {
        &self.keys
    }

    /// The intervals that scans covered.
    pub fn spans(&self) -> &[Span]
        ensures { result.now ≡ self.now.spans }
    {
        &self.spans
    }

    // Whether a key is noted.
    fn has(&self, key: &[u8]) -> bool
        ensures { result ≡ has_key self.now key.now }
    {
        self.keys.contains(key)
    }

    // Notes a key.
    fn add(&mut self, key: &[u8]) -> Result<(), AllocError>
        ensures ok { OnOk result (self.new ≡ record self.old { keys = insert_key key_cmp self.old.keys key.now }) }
        ensures err { OnErr result (self.new ≡ self.old) }
    {
        let key = BoxedSlice::from_slice(*self.spans.allocator(), key)?;
        self.keys.insert(key)?;
        Ok(())
    }
}

// The interval from the bound at which a scan starts to its last row, and the whole where there is none.
fn covered(
    alloc: Global,
    lo: &[u8],
    hi: &[u8],
    way: Way,
    last: Option<&(Key, Value)>,
) -> Result<Span, AllocError>
    ensures { IfOk result (λ span. span ≡ covered_up_to lo.now hi.now way (option_copied last.entry)) }
{
    Ok(match (way, last) {
        (Way::Up, Some((key, _))) => Span {
            lo: bound(alloc, lo)?,
            hi: Some(key.share()?),
            closed: true,
        },
        (Way::Down, Some((key, _))) => Span {
            lo: Some(key.share()?),
            hi: bound(alloc, hi)?,
            closed: false,
        },
        (_, None) => Span {
            lo: bound(alloc, lo)?,
            hi: bound(alloc, hi)?,
            closed: false,
        },
    })
}

// An empty bound is none.
fn bound(alloc: Global, bytes: &[u8]) -> Result<Option<Key>, AllocError>
    ensures { IfOk result (λ key. key ≡ bound bytes.now) }
{
    if bytes.is_empty() {
        return Ok(None);
    }
    Ok(Some(Key::copy_of(alloc, bytes)?))
}
