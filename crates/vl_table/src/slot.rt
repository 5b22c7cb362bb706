//! Room for one block.

ghost use Rattle.std.specs.Prelude.{◌≡◌, ◌≤◌, vec_capacity, vec_len};

use crate::block::read_block;
use crate::body::{BlockPlace, MAX_BLOCK_ENTRIES, MAX_BODY_BYTES, TableShape};
use crate::entries::Entries;
use crate::part::body_of;
use crate::tested::Tested;
use std::alloc::{AllocError, Global};
use vl_disk::{HeldFile, ReadFault, Reader};
use vl_frame::{FRAME_BYTES, take_u32};

/// The longest frame of a block.
pub const MAX_BLOCK_FRAME_BYTES: usize = MAX_BODY_BYTES + FRAME_BYTES;

/// Which block of which table.
#[derive(Clone, Copy, Debug, PartialEq, Eq)]
pub struct BlockId {
    pub format: u32,
    pub number: u32,
    pub place: u64,
    pub length: u32,
}

impl BlockId {
    ghost use Rattle.vl_table.specs.Kept.{id_of};

    /// The block that an index names.
    pub fn of(shape: &TableShape, block: &BlockPlace) -> Self
        ensures { result ≡ id_of shape.now block.now }
    {
        BlockId {
            format: shape.format,
            number: shape.number,
            place: block.place,
            length: block.length,
        }
    }
}

/// Room for one block, which is tested before it is kept.
#[derive(Drop)]
pub struct Slot {
    block: Option<BlockId>,
    // The block's frame stands at the front of this. Until a block is read this and the next are empty.
    frame: Vec<u8>,
    // Where its entries begin, in the bytes behind their count, at the front of this.
    starts: Vec<u16>,
    count: usize,
    ghost frame_room: { 4190 ≤ vec_capacity frame },
    ghost starts_room: { 347 ≤ vec_capacity starts },
    ghost count_room: { count ≤ 347 },
    ghost count_within: { count ≤ vec_len starts },
}

impl Slot {
    ghost use Rattle.std.specs.Prelude.{◌≡◌, ℕ, List, Option, None, Some, IfOk, OnOk, OnErr};
    ghost use Rattle.vl_model.specs.declared.entry.Entry.{Entry};
    ghost use Rattle.vl_table.specs.Answers.{Answers, NeedsNoMemory};
    ghost use Rattle.vl_table.specs.Kept.{HasBlock, IsMissing, has_block};
    ghost use Rattle.vl_table.specs.Scans.{Lists};
    ghost use Rattle.vl_table.specs.declared.slot.BlockId.{BlockId};

    /// Room without a block. All its memory is taken here, and none of it is written before a block is read.
    pub fn new(alloc: Global) -> Result<Self, AllocError>
        ensures { IfOk result (λ slot. slot.block ≡ None) }
    {
        Ok(Slot {
            block: None,
            frame: Vec::with_capacity(alloc, MAX_BLOCK_FRAME_BYTES)?,
            starts: Vec::with_capacity(alloc, MAX_BLOCK_ENTRIES)?,
            count: 0,
        })
    }

    /// Whether it has this block.
    pub fn has(&self, id: &BlockId) -> bool
        ensures { result ≡ has_block id.now self.now }
    {
        match &self.block {
            None => false,
            Some(block) => block == id,
        }
    }

    /// Reads the block with an index, and tests it where that wasn't done yet. Where that fails the slot is empty.
    pub fn load<H: HeldFile, R: Reader<Held = H>>(
        &mut self,
        reader: &mut R,
        held: &H,
        tested: &Tested<H>,
        at: usize,
        id: BlockId,
    ) -> Result<(), ReadFault>
        ensures answers { Answers (R.faults reader.old) (R.faults reader.new) id.number (H.bytes held.now)
            (λ bytes done. (es : List Entry) × HasBlock self.new id bytes es)
            (IsMissing id) result }
        ensures has { OnOk result (self.new.block ≡ Some id) }
        ensures empty { OnErr result (self.new.block ≡ None) }
        ensures no_memory { NeedsNoMemory result }
    {
        self.block = None;
        fill_up(&mut self.frame, MAX_BLOCK_FRAME_BYTES, 0);
        fill_up(&mut self.starts, MAX_BLOCK_ENTRIES, 0);
        let (frame, starts) = (&mut self.frame, &mut self.starts);
        let count = read_block(reader, held, tested, at, id, frame, starts)?;
        self.count = count;
        self.block = Some(id);
        Ok(())
    }

    /// The entries of its block; none where it is empty.
    pub fn entries(&self) -> Entries<'_>
        ensures { (id : BlockId) (bytes : List ℕ) (es : List Entry) → HasBlock self.now id bytes es → Lists result es }
    {
        match &self.block {
            None => Entries::none(),
            Some(id) => self.entries_of(*id),
        }
    }

    fn entries_of(&self, id: BlockId) -> Entries<'_>
        ensures { (bytes : List ℕ) (es : List Entry) → HasBlock self.now id bytes es → Lists result es }
    {
        let length = id.length as usize;
        if length > self.frame.len() {
            return Entries::none();
        }
        match take_u32(body_of(&self.frame[..length])) {
            None => Entries::none(),
            Some((_, bytes)) => Entries {
                format: id.format,
                bytes,
                starts: &self.starts[..self.count],
            },
        }
    }
}

// Brings a list to so many elements. It has room for them, so this wants no memory.
fn fill_up<T: Copy>(elements: &mut Vec<T>, size: usize, value: T)
    requires { size ≤ vec_capacity elements.old }
    ensures len { vec_len elements.new ≡ size }
    ensures capacity { vec_capacity elements.old ≤ vec_capacity elements.new }
{
    match elements.resize(size, value) {
        Ok(()) => (),
        Err(_) => unreachable!(),
    }
}
