ghost use Rattle.vl_model.specs.Formats.{table_format};
ghost use Rattle.std.specs.Prelude.{◌≡◌, ◌≤◌, ◌<◌, ◌^◌, ◌↔◌, ◌++◌, ◌∷◌, [], ℕ, List, Err, IfOk, IsErrOf, IsTrue, OnOk};
ghost use Rattle.std.specs.List.{sum_by};
ghost use Rattle.vl_model.specs.declared.entry.Entry.{Entry};
ghost use Rattle.vl_table.specs.body.Bytes.{table_bytes, table_header};
ghost use Rattle.vl_model.specs.Cutting.{block_frame_length, blocks, table_length};
ghost use Rattle.vl_table.specs.body.Entries.{IsEntry};
ghost use Rattle.vl_table.specs.writer.Tails.{IsTail, tail_bytes};
ghost use Rattle.vl_table.specs.declared.writer.write_fail.WriteFail.TheVariants as why;
ghost use Rattle.vl_table.specs.writer.Writing.{Appended, HasRoom, IsWriting, MayCome, blocks_end};

use crate::writer::add_fail::AddFail;
use crate::writer::blocks_writer::BlocksWriter;
use crate::writer::finish::Rest;
use crate::writer::lawful::is_lawful;
use crate::writer::summary::Summary;
use crate::writer::tail::Tail;
use crate::writer::write_fail::WriteFail;
use std::alloc::{AllocError, Global};
use vl_frame::{FileKind, file_header};
use vl_model::{Entry, TABLE_FORMAT};

/// A table that is written: its entries come in order, and its bytes are given out piece by piece. It holds one block at a
/// time, the places and last keys of the others, and what the footer will say. A value is copied once, into its block. Where
/// nothing stands in `out`, a block goes there as it was built, and isn't copied. Where a call fails, give it up.
#[derive(Drop)]
pub struct TableWriter {
    blocks: BlocksWriter,
    summary: Summary,
}

impl TableWriter {
    /// Begins the table with this number, which has this entry first, and appends the table's header.
    pub fn begin(
        alloc: Global,
        out: &mut Vec<u8>,
        number: u32,
        first: &Entry,
    ) -> Result<Self, AddFail>
        ensures header { OnOk result (out.new.items ≡ out.old.items ++ table_header table_format number) }
        ensures begun { IfOk result (λ w. IsWriting w number (first.now ∷ []) (table_header table_format number)) }
        ensures refused { (result ≡ Err AddFail.NotLawful) ↔ ¬ IsEntry table_format first.now }
        ensures short { IsErrOf result AddFail.TooLong → ⊥ }
    {
        if !is_lawful(first) {
            return Err(AddFail::NotLawful);
        }
        Ok(TableWriter::of(alloc, out, number, first)?)
    }

    // What `begin` does with an entry that a table may have.
    fn of(alloc: Global, out: &mut Vec<u8>, number: u32, first: &Entry) -> Result<Self, AllocError>
        requires { IsEntry table_format first.now }
        ensures header { OnOk result (out.new.items ≡ out.old.items ++ table_header table_format number) }
        ensures begun { IfOk result (λ w. IsWriting w number (first.now ∷ []) (table_header table_format number)) }
    {
        let mut blocks = BlocksWriter::new(alloc, number)?;
        blocks.add(first)?;
        let summary = Summary::of(alloc, first)?;
        out.extend_from_slice(&file_header(FileKind::Table, TABLE_FORMAT, number))?;
        Ok(TableWriter { blocks, summary })
    }

    /// Adds an entry, and appends the block that is closed before it, if one is.
    pub fn add(&mut self, out: &mut Vec<u8>, entry: &Entry) -> Result<(), AddFail>
        ensures added { (number : ℕ) (es : List Entry) (given : List ℕ) → IsWriting self.old number es given
            → OnOk result (Appended out.old.items out.new.items
            (λ piece. IsWriting self.new number (es ++ entry.now ∷ []) (given ++ piece))) }
        ensures refused { (number : ℕ) (es : List Entry) (given : List ℕ) → IsWriting self.old number es given
            → ((result ≡ Err AddFail.NotLawful) ↔ ¬ MayCome es entry.now) }

        // It is too long exactly where the blocks would end at 2^32 or behind it, whatever memory there is.
        ensures too_long { (number : ℕ) (es : List Entry) (given : List ℕ) → IsWriting self.old number es given
            → (IsErrOf result AddFail.TooLong ↔ (MayCome es entry.now × (2 ^ 32 ≤ blocks_end (es ++ entry.now ∷ [])))) }
    {
        if !self.may_come(entry) {
            return Err(AddFail::NotLawful);
        }
        Ok(self.put(out, entry)?)
    }

    // Whether a table may have an entry, and behind the others.
    fn may_come(&self, entry: &Entry) -> bool
        ensures lawful { IsTrue result → IsEntry table_format entry.now }
        ensures comes { (number : ℕ) (es : List Entry) (given : List ℕ) → IsWriting self.now number es given
            → (IsTrue result ↔ MayCome es entry.now) }
    {
        is_lawful(entry) && self.summary.is_behind(entry)
    }

    // Adds an entry that may come.
    fn put(&mut self, out: &mut Vec<u8>, entry: &Entry) -> Result<(), WriteFail>
        requires { IsEntry table_format entry.now }
        ensures put { (number : ℕ) (es : List Entry) (given : List ℕ) → IsWriting self.old number es given → MayCome es entry.now
            → OnOk result (Appended out.old.items out.new.items
            (λ piece. IsWriting self.new number (es ++ entry.now ∷ []) (given ++ piece))) }
        ensures too_long { (number : ℕ) (es : List Entry) (given : List ℕ) → IsWriting self.old number es given
            → (IsErrOf result why.TooLong ↔ (2 ^ 32 ≤ blocks_end (es ++ entry.now ∷ []))) }
    {
        if self.blocks.is_full(entry) {
            return Err(WriteFail::TooLong);
        }
        self.make_room(out, entry)?;
        self.blocks.add(entry)?;
        self.summary.add(entry)?;
        Ok(())
    }

    // Closes the open block where it has no room for an entry.
    fn make_room(&mut self, out: &mut Vec<u8>, entry: &Entry) -> Result<(), WriteFail>
        ensures room { (number : ℕ) (es : List Entry) (given : List ℕ) → IsWriting self.old number es given
            → OnOk result (Appended out.old.items out.new.items
            (λ piece. HasRoom self.new number es (given ++ piece) entry.now)) }
        ensures too_long { (number : ℕ) (es : List Entry) (given : List ℕ) → IsWriting self.old number es given
            → IsErrOf result why.TooLong → 2 ^ 32 ≤ blocks_end (es ++ entry.now ∷ []) }
    {
        if self.blocks.has_room(entry) {
            return Ok(());
        }
        self.blocks.close(out, &self.summary.last)
    }

    /// How many bytes the frames of its blocks have, that of the open one counted as if it were closed here.
    pub fn block_bytes(&self) -> u64
        ensures { (number : ℕ) (es : List Entry) (given : List ℕ) → IsWriting self.now number es given
            → result ≡ sum_by (block_frame_length table_format) (blocks table_format es) }
    {
        self.blocks.bytes()
    }

    /// Ends the table, and hands out the rest of it.
    pub fn finish(self, alloc: Global) -> Result<Tail, WriteFail>
        ensures tail { (number : ℕ) (es : List Entry) (given : List ℕ) → IsWriting self number es given
            → IfOk result (λ tail. IsTail tail number es given) }

        // So these are all its bytes.
        ensures whole { (number : ℕ) (es : List Entry) (given : List ℕ) → IsWriting self number es given
            → IfOk result (λ tail. given ++ tail_bytes tail ≡ table_bytes table_format number es) }

        // It is too long exactly where it would have 2^32 bytes or more, unless memory runs out.
        ensures too_long { (number : ℕ) (es : List Entry) (given : List ℕ) → IsWriting self number es given
            → IsErrOf result why.TooLong → 2 ^ 32 ≤ table_length table_format es }
        ensures short { (number : ℕ) (es : List Entry) (given : List ℕ) → IsWriting self number es given
            → OnOk result (table_length table_format es < 2 ^ 32) }
    {
        let TableWriter {
            mut blocks,
            summary,
        } = self;
        let mut block = Vec::new(alloc);
        blocks.close(&mut block, &summary.last)?;
        let rest = Rest::of(alloc, &blocks, summary)?;
        Ok(rest.behind(block, blocks))
    }
}
