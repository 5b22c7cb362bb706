ghost use Rattle.vl_model.specs.Formats.{table_format};
ghost use Rattle.std.specs.Prelude.{◌≡◌, ◌≤◌, ◌<◌, ◌^◌, ◌++◌, ◌∷◌, ◌==◌, [], List, drop, length, take, IfOk, OnOk};
ghost use Rattle.byteorder.specs.Endian.{big_bytes};
ghost use Rattle.vl_frame.specs.Frame.{frame_bytes, frame_length};
ghost use Rattle.vl_frame.specs.declared.kinds.FrameKind.TheVariants as kinds;
ghost use Rattle.vl_model.specs.declared.entry.Entry.{Entry};
ghost use Rattle.vl_table.specs.body.Blocks.{block_body};
ghost use Rattle.vl_table.specs.body.Entries.{IsEntry};
ghost use Rattle.vl_table.specs.writer.Bodies.{HasBody};

use crate::writer::entry::write_entry;
use byteorder::{BigEndian, ByteOrder};
use std::alloc::{AllocError, Global};
use std::mem;
use vl_frame::{FrameKind, HEAD_BYTES, finish_frame};
use vl_model::Entry;

// How many bytes the count of a block's entries has.
const COUNT_BYTES: usize = 4;

// How many bytes stand before the entries: room for the frame's head, and the count.
const FRONT_BYTES: usize = HEAD_BYTES + COUNT_BYTES;

/// The body of a block to which entries are added, in its bytes, behind room for the head of its frame, which is completed
/// where it stands. Where a call fails, give it up.
#[derive(Drop)]
pub struct BlockWriter {
    count: u32,
    frame: Vec<u8>,
}

impl BlockWriter {
    pub fn new(alloc: Global) -> Result<Self, AllocError>
        ensures { IfOk result (λ writer. HasBody writer []) }
    {
        let mut frame = Vec::new(alloc);
        frame.extend_from_slice(&[0; FRONT_BYTES])?;
        Ok(BlockWriter { count: 0, frame })
    }

    /// Adds an entry that a table may have.
    pub fn add(&mut self, entry: &Entry) -> Result<(), AllocError>
        requires { IsEntry table_format entry.now }
        ensures { (es : List Entry) → HasBody self.old es → OnOk result (HasBody self.new (es ++ entry.now ∷ [])) }
    {
        if self.count == u32::MAX || self.frame.len() < FRONT_BYTES {
            return Err(AllocError);
        }
        write_entry(&mut self.frame, entry)?;
        self.count += 1;
        write_count(&mut self.frame, self.count);
        Ok(())
    }

    /// The body.
    pub fn as_slice(&self) -> &[u8]
        ensures { (es : List Entry) → HasBody self.now es → result.now ≡ block_body table_format es }
    {
        if self.frame.len() < HEAD_BYTES {
            return &[];
        }
        &self.frame[HEAD_BYTES..]
    }

    /// The body's length, in bytes.
    pub fn len(&self) -> usize
        ensures exact { (es : List Entry) → HasBody self.now es → result ≡ length (block_body table_format es) }
        ensures small { result < 2 ^ 63 }
    {
        self.as_slice().len()
    }

    /// Whether it has no entry yet.
    pub fn is_empty(&self) -> bool
        ensures { (es : List Entry) → HasBody self.now es → result ≡ (length es == 0) }
    {
        self.count == 0
    }

    /// Begins anew, in the same memory.
    pub fn clear(&mut self)
        ensures { (es : List Entry) → HasBody self.old es → HasBody self.new [] }
    {
        self.count = 0;
        self.frame.truncate(FRONT_BYTES);
        self.frame.fill(0);
    }

    /// Appends the frame of the block, which is to stand at this place of the table with this number, says how long it is,
    /// and begins anew. Where nothing stands in `out`, the frame goes there as it is, and isn't copied.
    pub fn append_frame(
        &mut self,
        out: &mut Vec<u8>,
        number: u32,
        place: u64,
    ) -> Result<u32, AllocError>
        ensures written { (es : List Entry) → HasBody self.old es
            → OnOk result (out.new.items ≡ out.old.items ++ frame_bytes number place kinds.Block (block_body table_format es)) }
        ensures length { (es : List Entry) → HasBody self.old es
            → IfOk result (λ n. n ≡ frame_length (length (block_body table_format es))) }
        ensures begun { OnOk result (HasBody self.new []) }
    {
        finish_frame(&mut self.frame, number, place, FrameKind::Block)?;
        let length = self.frame.len() as u32;
        hand_over(out, &mut self.frame)?;
        self.count = 0;
        self.frame.clear();
        self.frame.extend_from_slice(&[0; FRONT_BYTES])?;
        Ok(length)
    }
}

// Appends a frame, which goes where nothing stands as it is.
fn hand_over(out: &mut Vec<u8>, frame: &mut Vec<u8>) -> Result<(), AllocError>
    ensures { OnOk result (out.new.items ≡ out.old.items ++ frame.old.items) }
{
    if out.is_empty() {
        mem::swap(out, frame);
        return Ok(());
    }
    out.extend_from_slice(frame)
}

// Writes how many entries there are over the old count.
fn write_count(frame: &mut [u8], count: u32)
    requires { FRONT_BYTES ≤ length frame.old }
    ensures { frame.new ≡ take HEAD_BYTES frame.old ++ (big_bytes 4 count ++ drop FRONT_BYTES frame.old) }
{
    BigEndian::write_u32(&mut frame[HEAD_BYTES..], count);
}
