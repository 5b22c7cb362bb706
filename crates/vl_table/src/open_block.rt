//! The block that a cursor goes over. It isn't one of those that a reader keeps: many cursors go forward in turn, and none
//! is to drive out another's block at each entry.

use crate::block::read_block;
use crate::body::{EntryRef, MAX_BLOCK_ENTRIES, entry_at};
use crate::slot::{BlockId, MAX_BLOCK_FRAME_BYTES};
use crate::tested::Tested;
use std::alloc::{AllocError, Global};
use std::marker::Model;
use vl_disk::{HeldFile, ReadFault, Reader};

// How many bytes stand before a block's entries: kind and length of the frame, and their count.
const FRONT_BYTES: usize = 9;

/// Room for one block, and its entries. Clauses see the entries.
#[derive(Drop)]
pub struct OpenBlock {
    format: u32,
    // The block's frame stands at the front of this.
    frame: Vec<u8>,
    // Where its entries begin, in the bytes behind their count, at the front of this.
    starts: Vec<u16>,
    count: usize,
}

impl Model for OpenBlock {
    ghost use Rattle.std.specs.Prelude.{List, drop, take};
    ghost use Rattle.vl_model.specs.declared.entry.Entry.{Entry};
    ghost use Rattle.vl_table.specs.OpenBlocks.{IsOpen, said_at};

    ghost Value = { List Entry };

    ghost view = { λ b. said_at b.format (drop 9 b.frame.items) (take b.count b.starts.items) };

    ghost invariant = { λ b. IsOpen b.format b.frame.items b.starts.items b.count };
}

impl OpenBlock {
    ghost use Rattle.std.specs.Prelude.{◌≡◌, ◌≤◌, ◌<◌, [], IfOk, List, OnErr, OnOk, get_or, length};
    ghost use Rattle.vl_model.specs.declared.entry.Entry.{Entry};
    ghost use Rattle.vl_table.specs.body.Entries.{entry_of};
    ghost use Rattle.vl_table.specs.Answers.{Answers, NeedsNoMemory};
    ghost use Rattle.vl_table.specs.Kept.{IsMissing, StandsBlock};

    /// Room without an entry. All its memory is taken here.
    pub fn new(alloc: Global) -> Result<Self, AllocError>
        ensures { IfOk result (λ block. block ≡ []) }
    {
        Ok(OpenBlock {
            format: 0,
            frame: vec![in alloc; 0; MAX_BLOCK_FRAME_BYTES]?,
            starts: vec![in alloc; 0; MAX_BLOCK_ENTRIES]?,
            count: 0,
        })
    }

    /// How many entries there are.
    pub fn len(&self) -> usize
        ensures exact { result ≡ length self.now }
        ensures few { result ≤ 347 }
    {
        self.count
    }

    /// The entry with an index.
    pub fn get(&self, index: usize) -> EntryRef<'_>
        requires { index < length self.now }
        ensures { entry_of result ≡ get_or self.now index (entry_of result) }
    {
        match entry_at(self.format, &self.frame[FRONT_BYTES..], self.starts[index]) {
            Some(entry) => entry,
            None => unreachable!(),
        }
    }

    /// Reads the block with an index, and tests it where that wasn't done yet. Where that fails there is no entry.
    pub fn load<H: HeldFile, R: Reader<Held = H>>(
        &mut self,
        reader: &mut R,
        held: &H,
        tested: &Tested<H>,
        at: usize,
        id: BlockId,
    ) -> Result<(), ReadFault>
        ensures answers { Answers (R.faults reader.old) (R.faults reader.new) id.number (H.bytes held.now)
            (λ bytes done. StandsBlock id.format id.number bytes id.place id.length self.new)
            (IsMissing id) result }
        ensures few { length self.new ≤ 347 }
        ensures empty { OnErr result (self.new ≡ []) }
        ensures no_memory { NeedsNoMemory result }
    {
        self.count = 0;
        let (frame, starts) = (&mut self.frame, &mut self.starts);
        let count = read_block(reader, held, tested, at, id, frame, starts)?;
        self.format = id.format;
        self.count = count;
        Ok(())
    }
}
