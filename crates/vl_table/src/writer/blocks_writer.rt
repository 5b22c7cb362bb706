ghost use Rattle.vl_model.specs.Formats.{table_format};
ghost use Rattle.std.specs.Prelude.{◌≡◌, ◌≤◌, ◌<◌, ◌^◌, ◌+◌, ◌++◌, ◌∷◌, [], nat_le, List, length, IfOk, IsErrOf, OnOk};
ghost use Rattle.std.specs.List.{sum_by};
ghost use Rattle.vl_frame.specs.Frame.{frame_bytes};
ghost use Rattle.vl_frame.specs.declared.kinds.FrameKind.TheVariants as kinds;
ghost use Rattle.vl_model.specs.declared.entry.Entry.{Entry};
ghost use Rattle.vl_model.specs.Cutting.{block_frame_length, blocks_from, body_length, entry_length, last_key, max_block_bytes};
ghost use Rattle.vl_table.specs.body.Blocks.{block_body};
ghost use Rattle.vl_table.specs.body.Entries.{IsEntry};
ghost use Rattle.vl_table.specs.declared.writer.write_fail.WriteFail.TheVariants as why;

use crate::body::BlockPlace;
use crate::writer::block_writer::BlockWriter;
use crate::writer::write_fail::WriteFail;
use std::alloc::{AllocError, Global};
use vl_frame::{FRAME_BYTES, HEADER_BYTES};
use vl_model::{Body, Entry, Key, is_key_len};

// A block's body has at most so many bytes, or one entry.
const MAX_BLOCK_BYTES: usize = 4096;

// Behind its blocks no table is longer.
const MAX_PLACE: u64 = u32::MAX as u64;

// A block's frame has so many bytes beside its entries: those around its body, and their count.
const BLOCK_BYTES: u64 = FRAME_BYTES as u64 + 4;

/// The blocks of a table that is written: where those that are closed stand, and the body of the open one.
#[derive(Drop)]
pub struct BlocksWriter {
    pub number: u32,
    pub place: u64,
    pub written: BlockWriter,
    pub closed: Vec<BlockPlace>,
    ghost begun: { 16 ≤ place },
    ghost short: { place < 2 ^ 32 },
}

impl BlocksWriter {
    ghost use Rattle.vl_table.specs.writer.Writing.{HasBlocks, end_of};

    pub fn new(alloc: Global, number: u32) -> Result<Self, AllocError>
        ensures blocks { IfOk result (λ w. HasBlocks w [] []) }
        ensures number { IfOk result (λ w. w.number ≡ number) }
    {
        Ok(BlocksWriter {
            number,
            place: HEADER_BYTES as u64,
            written: BlockWriter::new(alloc)?,
            closed: Vec::new(alloc),
        })
    }

    /// Whether the open block has room for an entry.
    pub fn has_room(&self, entry: &Entry) -> bool
        ensures { (closed : List (List Entry)) (open_block : List Entry) → HasBlocks self.now closed open_block
            → result ≡ nat_le (length (block_body table_format open_block) + entry_length table_format entry.now) max_block_bytes }
    {
        let used = self.written.len();
        used <= MAX_BLOCK_BYTES && fits(entry, MAX_BLOCK_BYTES - used)
    }

    /// How many bytes the frames of the blocks have, that of the open one counted as if it were closed.
    pub fn bytes(&self) -> u64
        ensures { (closed : List (List Entry)) (open_block : List Entry) → HasBlocks self.now closed open_block
            → result ≡ sum_by (block_frame_length table_format) (closed ++ open_block ∷ []) }
    {
        self.place - HEADER_BYTES as u64 + (self.written.len() + FRAME_BYTES) as u64
    }

    /// Whether the blocks end at 2^32 or behind it with an entry more, which begins one where the open one has no room.
    pub fn is_full(&self, entry: &Entry) -> bool
        ensures { (closed : List (List Entry)) (open_block : List Entry) → HasBlocks self.now closed open_block
            → result ≡ nat_le (2 ^ 32) (end_of (closed
            ++ blocks_from table_format open_block (length (block_body table_format open_block)) (entry.now ∷ []))) }
    {
        let end = self.place + (self.written.len() + FRAME_BYTES) as u64;
        if self.has_room(entry) {
            return is_past_end(end, entry);
        }
        is_past_end(end + BLOCK_BYTES, entry)
    }

    /// Adds an entry that a table may have to the open block.
    pub fn add(&mut self, entry: &Entry) -> Result<(), AllocError>
        requires { IsEntry table_format entry.now }
        ensures blocks { (closed : List (List Entry)) (open_block : List Entry) → HasBlocks self.old closed open_block
            → OnOk result (HasBlocks self.new closed (open_block ++ entry.now ∷ [])) }
        ensures number { self.new.number ≡ self.old.number }
    {
        self.written.add(entry)
    }

    /// Appends the frame of the open block, whose last key this is, and opens one without entries.
    pub fn close(&mut self, out: &mut Vec<u8>, last: &Key) -> Result<(), WriteFail>
        ensures blocks { (closed : List (List Entry)) (open_block : List Entry) → HasBlocks self.old closed open_block
            → last.now ≡ last_key open_block → OnOk result (HasBlocks self.new (closed ++ open_block ∷ []) []) }
        ensures number { self.new.number ≡ self.old.number }
        ensures written { (closed : List (List Entry)) (open_block : List Entry) → HasBlocks self.old closed open_block
            → OnOk result (out.new.items ≡ out.old.items
            ++ frame_bytes self.old.number self.old.place kinds.Block (block_body table_format open_block)) }
        ensures too_long { (closed : List (List Entry)) (open_block : List Entry) → HasBlocks self.old closed open_block
            → IsErrOf result why.TooLong → 2 ^ 32 ≤ end_of (closed ++ open_block ∷ []) }
    {
        let length = self.written.append_frame(out, self.number, self.place)?;
        if self.place > MAX_PLACE - length as u64 {
            return Err(WriteFail::TooLong);
        }
        self.closed.push(BlockPlace {
            place: self.place,
            length,
            last: last.share()?,
        })?;
        self.place += length as u64;
        Ok(())
    }
}

// Whether an entry at a place ends at 2^32 or behind it.
fn is_past_end(place: u64, entry: &Entry) -> bool
    ensures { result ≡ nat_le (2 ^ 32) (place + entry_length table_format entry.now) }
{
    if place > MAX_PLACE {
        return true;
    }
    !fits(entry, (MAX_PLACE - place) as usize)
}

// Whether an entry takes at most so many bytes.
fn fits(entry: &Entry, room: usize) -> bool
    ensures { result ≡ nat_le (entry_length table_format entry.now) room }
{
    let key = entry.key.len();
    key <= room && 11 <= room - key && body_fits(&entry.body, room - key - 11)
}

fn body_fits(body: &Body, room: usize) -> bool
    ensures { result ≡ nat_le (body_length table_format body.now) room }
{
    match body {
        Body::Inline(value) => 2 <= room && value.len() <= room - 2,
        Body::Far(_) => 16 <= room,
        Body::Gone | Body::Logged(_, _) => true,
    }
}
