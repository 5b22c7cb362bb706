ghost use Rattle.std.specs.Prelude.{◌≡◌, ◌≤◌, ◌∷◌, [], ℕ, true, false, List, Option, Some, None, Ok, IfOk, length};
ghost use Rattle.std.specs.Arc.{arc_value};
ghost use Rattle.std.specs.List.{prefix_len};
ghost use Rattle.std.specs.Option.{option_map};
ghost use Rattle.vl_model.specs.Formats.{table_format};
ghost use Rattle.vl_model.specs.Winners.{exact, winner};
ghost use Rattle.vl_model.specs.declared.entry.Entry.{Entry};
ghost use Rattle.vl_model.specs.Lookups.{IsParted, first_over, if_exact, if_of_key, is_below};
ghost use Rattle.vl_table.specs.body.Bytes.{IsTable, table_bytes};
ghost use Rattle.vl_model.specs.Cutting.{blocks};
ghost use Rattle.vl_table.specs.body.Founds.{found_of};
ghost use Rattle.vl_table.specs.body.Shapes.{IsShapeOf};
ghost use Rattle.vl_table.specs.declared.body.index.BlockPlace.{BlockPlace};
ghost use Rattle.vl_disk.specs.Faults.{HasCause};
ghost use Rattle.vl_table.specs.Answers.{Answers, Failed, NeedsNoMemory};
ghost use Rattle.vl_table.specs.Kept.{Files};
ghost use Rattle.vl_table.specs.KeptBlocks.{AreKept, ReadsOf};
ghost use Rattle.vl_table.specs.MayHold.{may_hold, meets};
ghost use Rattle.vl_table.specs.Meets.{LooksIn};
ghost use Rattle.vl_table.specs.Opening.{IsDamaged, IsRead, said_by};
ghost use Rattle.vl_table.specs.Seeks.{IsBadBlock};
ghost use Rattle.vl_table.specs.Tables.{AreSame, IsOf, OpensAs, number_of, shape_of};

use crate::block_reader::BlockReader;
use crate::body::{BlockPlace, Found, TableShape};
use crate::entries::Scan;
use crate::open::read_shape;
use crate::span_blocks::{is_from, is_up_to};
use crate::tested::Tested;
use std::alloc::{AllocError, Global};
use std::sync::Arc;
use vl_disk::{HeldFile, ReadFault, Reader};
use vl_filter::{LastKey, passes};
use vl_model::{Span, key_order};

/// A table in a held file.
#[derive(Drop)]
pub struct Table<H: HeldFile> {
    held: H,
    shape: Arc<TableShape, Global>,
    tested: Tested<H>,
}

impl<H: HeldFile> Table<H> {
    /// The table with this shape, in this file. Where there is memory it notes which of its blocks were tested.
    pub fn of(held: H, shape: Arc<TableShape, Global>) -> Self
        ensures shape { shape_of result ≡ arc_value shape }
        ensures held { result.held ≡ held }
        ensures table { (number : ℕ) (es : List Entry) → IsShapeOf number es (arc_value shape)
            → H.bytes held ≡ Some (table_bytes (arc_value shape).format number es) → IsOf H.bytes result es }
    {
        let blocks = &shape.blocks;
        let tested = Tested::new(*blocks.allocator(), &held, blocks.len());
        Table {
            held,
            shape,
            tested,
        }
    }

    /// Opens the table with this number. It reads the header, the footer, the index and the filter, and no block.
    pub fn open<R: Reader<Held = H>>(
        alloc: Global,
        reader: &mut R,
        held: H,
        number: u32,
    ) -> Result<Self, ReadFault>
        ensures answers { Answers (R.faults reader.old) (R.faults reader.new) number (H.bytes held)
            (λ bytes table. IsRead number bytes (said_by (shape_of table)))
            (IsDamaged number) result }
        ensures number { IfOk result (λ table. number_of table ≡ number) }
        ensures held { IfOk result (λ table. table.held ≡ held) }

        // A true table is opened as what it is, and never damaged.
        ensures opens { (format : ℕ) (es : List Entry) → 1 ≤ format → format ≤ table_format → IsTable format number es
            → H.bytes held ≡ Some (table_bytes format number es) → OpensAs H.bytes es result }
    {
        let shape = read_shape(alloc, reader, &held, number)?;
        match Arc::new(alloc, shape) {
            Ok(shape) => Ok(Table::of(held, shape)),
            Err(_) => Err(ReadFault::NoMemory),
        }
    }

    /// The same table once more. It wants no memory but for the file, and for the count of who shares it.
    pub fn share(&self) -> Result<Self, AllocError>
        ensures { IfOk result (AreSame H.bytes H.size H.named self.now) }
    {
        let held = self.held.clone()?;
        let shape = Arc::try_clone(&self.shape)?;
        let tested = self.tested.share()?;
        Ok(Table {
            held,
            shape,
            tested,
        })
    }

    /// What is known of it beside its blocks.
    pub fn shape(&self) -> &TableShape
        ensures { result.now ≡ shape_of self.now }
    {
        &self.shape
    }

    /// The file that it stands in.
    pub fn held(&self) -> &H
        ensures { result.now ≡ self.now.held }
    {
        &self.held
    }

    /// Which of its blocks were tested.
    pub(crate) fn tested(&self) -> &Tested<H> {
        &self.tested
    }

    /// Whether it may have a key: false where the key is below the first or above the last, or the filter says no.
    pub(crate) fn may_hold(&self, key: &[u8], last: &mut LastKey) -> bool
        ensures { result ≡ may_hold key.now (shape_of self.now) }
    {
        let shape = self.shape();
        !key_order(key, shape.footer.first.as_slice()).is_lt()
            && !key_order(key, shape.footer.last.as_slice()).is_gt()
            && passes(&shape.filter, key, last)
    }

    /// Whether it may have keys of an interval: false where its last key is below that, or its first one above.
    pub fn meets(&self, span: &Span) -> bool
        ensures { result ≡ meets span.now (shape_of self.now) }
    {
        let footer = &self.shape().footer;
        is_from(span, footer.last.as_slice()) && is_up_to(span, footer.first.as_slice())
    }

    /// Of the entries of a key with a version of at most a number the one of the greatest version.
    ///
    /// Where it may not have the key nothing is read. Else it looks into the first block whose last key isn't below the key,
    /// and goes on to the next while all entries of a block come before the place. A block that is kept isn't read.
    pub fn find<R: Reader<Held = H>>(
        &self,
        reader: &mut BlockReader<R>,
        key: &[u8],
        number: u64,
    ) -> Result<Option<Found>, ReadFault>
        ensures kept { (files : Files) → ReadsOf H.bytes files reader.old (self.now ∷ []) → AreKept files reader.new }
        ensures answers { (files : Files) → ReadsOf H.bytes files reader.old (self.now ∷ [])
            → Answers (R.faults reader.old.reader) (R.faults reader.new.reader) (number_of self.now) (H.bytes self.now.held)
            (λ bytes found. (es : List Entry) → IsOf H.bytes self.now es
            → option_map (found_of key.now) found ≡ winner es key.now number)
            (IsBadBlock (shape_of self.now)) result }

        // Where the index rises no answer hides a block that doesn't stand, also if the table isn't true.
        ensures looks { (files : Files) → ReadsOf H.bytes files reader.old (self.now ∷ [])
            → may_hold key.now (shape_of self.now) ≡ true
            → LooksIn H.bytes (if_of_key key.now) self.now key.now number result }

        // Nothing is looked at of a table that may not have the key; clauses don't see which key was hashed last.
        ensures unread { may_hold key.now (shape_of self.now) ≡ false → (result ≡ Ok None) × (reader.new ≡ reader.old) }
        ensures cause { HasCause (R.faults reader.old.reader) (R.faults reader.new.reader) (Failed result) }
        ensures no_memory { NeedsNoMemory result }
    {
        if !self.may_hold(key, &mut reader.last_key) {
            return Ok(None);
        }
        self.seek(reader, key, number)
    }

    /// The entry of a key and version. It looks where `find` would.
    pub fn exact<R: Reader<Held = H>>(
        &self,
        reader: &mut BlockReader<R>,
        key: &[u8],
        version: u64,
    ) -> Result<Option<Found>, ReadFault>
        ensures kept { (files : Files) → ReadsOf H.bytes files reader.old (self.now ∷ []) → AreKept files reader.new }
        ensures answers { (files : Files) → ReadsOf H.bytes files reader.old (self.now ∷ [])
            → Answers (R.faults reader.old.reader) (R.faults reader.new.reader) (number_of self.now) (H.bytes self.now.held)
            (λ bytes found. (es : List Entry) → IsOf H.bytes self.now es
            → option_map (found_of key.now) found ≡ exact es key.now version)
            (IsBadBlock (shape_of self.now)) result }
        ensures looks { (files : Files) → ReadsOf H.bytes files reader.old (self.now ∷ [])
            → may_hold key.now (shape_of self.now) ≡ true
            → LooksIn H.bytes (if_exact key.now version) self.now key.now version result }
        ensures unread { may_hold key.now (shape_of self.now) ≡ false → (result ≡ Ok None) × (reader.new ≡ reader.old) }
        ensures cause { HasCause (R.faults reader.old.reader) (R.faults reader.new.reader) (Failed result) }
        ensures no_memory { NeedsNoMemory result }
    {
        if !self.may_hold(key, &mut reader.last_key) {
            return Ok(None);
        }
        let found = self.seek(reader, key, version)?;
        Ok(of_version(found, version))
    }

    // The first entry that doesn't come before the place of a key and a version, where it is of the key.
    fn seek<R: Reader<Held = H>>(
        &self,
        reader: &mut BlockReader<R>,
        key: &[u8],
        version: u64,
    ) -> Result<Option<Found>, ReadFault>
        ensures kept { (files : Files) → ReadsOf H.bytes files reader.old (self.now ∷ []) → AreKept files reader.new }
        ensures answers { (files : Files) → ReadsOf H.bytes files reader.old (self.now ∷ [])
            → Answers (R.faults reader.old.reader) (R.faults reader.new.reader) (number_of self.now) (H.bytes self.now.held)
            (λ bytes found. (es : List Entry) → IsOf H.bytes self.now es → option_map (found_of key.now) found
            ≡ if_of_key key.now (first_over key.now version (blocks (shape_of self.now).format es)))
            (IsBadBlock (shape_of self.now)) result }
        ensures looks { (files : Files) → ReadsOf H.bytes files reader.old (self.now ∷ [])
            → LooksIn H.bytes (if_of_key key.now) self.now key.now version result }
        ensures cause { HasCause (R.faults reader.old.reader) (R.faults reader.new.reader) (Failed result) }
        ensures no_memory { NeedsNoMemory result }
    {
        let places = self.shape().blocks.as_slice();
        for at in first_block(places, key)..places.len() {
            reader.load(self, at)?;
            match reader.entries().look(key, version) {
                Scan::Behind => {}
                Scan::At(found) => return Ok(Some(found)),
                Scan::Other => return Ok(None),
            }
        }
        Ok(None)
    }
}

// What was found of a key, if it is of a version.
fn of_version(found: Option<Found>, version: u64) -> Option<Found>
    ensures { (key : List ℕ) (first : Option Entry) → option_map (found_of key) found ≡ if_of_key key first
        → option_map (found_of key) result ≡ if_exact key version first }
{
    match found {
        Some(found) if found.version == version => Some(found),
        _ => None,
    }
}

// How many blocks stand before the first whose last key isn't below a key.
fn first_block(blocks: &[BlockPlace], key: &[u8]) -> usize
    ensures first { IsParted (λ (p : BlockPlace). is_below key.now p.last) blocks.now
        → result ≡ prefix_len (λ (p : BlockPlace). is_below key.now p.last) blocks.now }
    ensures within { result ≤ length blocks.now }
{
    blocks.partition_point(|block| key_order(key, block.last.as_slice()).is_gt())
}
