//! What a transaction, a view or a job reads with: a reader, and the blocks that it read and tested.

ghost use Rattle.std.specs.Prelude.{◌≡◌, ◌<◌, ◌-◌, ◌∷◌, [], ℕ, List, Ok, None, OnOk, OnErr, IfOk, true, length, get_or};
ghost use Rattle.vl_model.specs.declared.entry.Entry.{Entry};
ghost use Rattle.vl_table.specs.declared.body.index.BlockPlace.{BlockPlace};
ghost use Rattle.vl_disk.specs.Faults.{HasCause};
ghost use Rattle.vl_table.specs.Answers.{Answers, Failed, NeedsNoMemory};
ghost use Rattle.vl_table.specs.Kept.{Files, HasBlock, IsMissing, NoBlock, has_block, id_of};
ghost use Rattle.vl_table.specs.Scans.{Lists};
ghost use Rattle.vl_table.specs.Tables.{number_of, shape_of};
ghost use Rattle.vl_table.specs.Used.{brought};
ghost use Rattle.vl_table.specs.declared.slot.BlockId.{BlockId};

use crate::entries::Entries;
use crate::slot::{BlockId, Slot};
use crate::table::Table;
use crate::tested::Tested;
use std::alloc::{AllocError, Global};
use std::mem;
use vl_disk::{HeldFile, ReadFault, Reader};
use vl_filter::LastKey;

/// How many blocks a transaction, a view or a job keeps.
pub const KEPT_BLOCKS: usize = 8;

/// A reader of files, and room for blocks that were read with it. Each block that is kept was tested once. Where there is no
/// room for another one, the one that wasn't used for longest goes.
///
/// It wants no memory but what it takes when it is made.
#[derive(Drop)]
pub struct BlockReader<R> {
    /// What reads the files. It may be used beside this one: what is kept stays.
    pub reader: R,
    // The block that was used last, and the others, those used later first.
    front: Slot,
    others: Vec<Slot>,
    // So that one look-up over many tables hashes its key once.
    pub(crate) last_key: LastKey,
}

impl<R: Drop> BlockReader<R> {
    ghost use Rattle.vl_table.specs.KeptBlocks.{AreKept};

    /// Room for so many blocks, of which there is one at least.
    pub fn new(alloc: Global, reader: R, blocks: usize) -> Result<Self, AllocError>
        ensures reader { IfOk result (λ b. b.reader ≡ reader) }
        ensures kept { (files : Files) → IfOk result (AreKept files) }
        ensures slots { IfOk result (λ b. length b.others.items ≡ blocks - 1) }
    {
        let front = Slot::new(alloc)?;
        let mut others = Vec::new(alloc);
        for _ in 1..blocks {
            others.push(Slot::new(alloc)?)?;
        }
        Ok(BlockReader {
            reader,
            front,
            others,
            last_key: LastKey::none(),
        })
    }
}

impl<R: Reader> BlockReader<R> {
    ghost use Rattle.vl_table.specs.KeptBlocks.{AreKept, ReadsOf, keeps};

    /// Brings a block of a table to the front, and reads it where it isn't kept. After a fault one slot is empty.
    pub(crate) fn load<H: HeldFile>(&mut self, table: &Table<H>, at: usize) -> Result<(), ReadFault>
    where
        R: Reader<Held = H>,
        requires { at < length (shape_of table.now).blocks.items }
        ensures kept { (files : Files) → ReadsOf H.bytes files self.old (table.now ∷ []) → AreKept files self.new }
        ensures answers { (files : Files) (p : BlockPlace) → ReadsOf H.bytes files self.old (table.now ∷ [])
            → p ≡ get_or (shape_of table.now).blocks.items at p
            → Answers (R.faults self.old.reader) (R.faults self.new.reader) (number_of table.now) (H.bytes table.now.held)
            (λ bytes done. (es : List Entry) × HasBlock self.new.front (id_of (shape_of table.now) p) bytes es)
            (NoBlock (shape_of table.now).format (number_of table.now) p) result }
        ensures cause { HasCause (R.faults self.old.reader) (R.faults self.new.reader) (Failed result) }
        ensures no_memory { NeedsNoMemory result }

        // Where it answers, the block is at the front; after a fault that slot is empty.
        ensures has { (p : BlockPlace) → p ≡ get_or (shape_of table.now).blocks.items at p
            → OnOk result (has_block (id_of (shape_of table.now) p) self.new.front ≡ true) }
        ensures empty { OnErr result (self.new.front.block ≡ None) }

        // A block that is kept isn't read.
        ensures hit { (p : BlockPlace) → p ≡ get_or (shape_of table.now).blocks.items at p
            → keeps (id_of (shape_of table.now) p) self.old ≡ true → (result ≡ Ok tt) × (self.new.reader ≡ self.old.reader) }
        ensures used { (p : BlockPlace) → p ≡ get_or (shape_of table.now).blocks.items at p
            → self.new.others.items ≡ (brought (id_of (shape_of table.now) p) self.old.front self.old.others.items).1 }
    {
        let shape = table.shape();
        let id = BlockId::of(shape, &shape.blocks[at]);
        self.load_block(table.held(), table.tested(), at, id)
    }

    // Brings the block with an index to the front, and reads it where it isn't kept.
    fn load_block<H: HeldFile>(
        &mut self,
        held: &H,
        tested: &Tested<H>,
        at: usize,
        id: BlockId,
    ) -> Result<(), ReadFault>
    where
        R: Reader<Held = H>,
        ensures kept { (files : Files) → AreKept files self.old → files id.number ≡ H.bytes held.now → AreKept files self.new }
        ensures answers { (files : Files) → AreKept files self.old → files id.number ≡ H.bytes held.now
            → Answers (R.faults self.old.reader) (R.faults self.new.reader) id.number (H.bytes held.now)
            (λ bytes done. (es : List Entry) × HasBlock self.new.front id bytes es) (IsMissing id) result }
        ensures cause { HasCause (R.faults self.old.reader) (R.faults self.new.reader) (Failed result) }
        ensures no_memory { NeedsNoMemory result }
        ensures has { OnOk result (has_block id self.new.front ≡ true) }
        ensures empty { OnErr result (self.new.front.block ≡ None) }
        ensures hit { keeps id self.old ≡ true → (result ≡ Ok tt) × (self.new.reader ≡ self.old.reader) }
        ensures used { self.new.others.items ≡ (brought id self.old.front self.old.others.items).1 }
    {
        if bring(&mut self.front, &mut self.others, &id) {
            return Ok(());
        }
        self.front.load(&mut self.reader, held, tested, at, id)
    }

    /// The entries of the block that is at the front.
    pub(crate) fn entries(&self) -> Entries<'_>
        ensures { (id : BlockId) (bytes : List ℕ) (es : List Entry) → HasBlock self.now.front id bytes es → Lists result es }
    {
        self.front.entries()
    }
}

// Brings the slot with a block to the front, or the last one where none has it. It says whether the block is there.
fn bring(front: &mut Slot, others: &mut [Slot], id: &BlockId) -> bool
    ensures slots { brought id.now front.old others.old ≡ (front.new, others.new) }
    ensures there { result ≡ has_block id.now front.new }
{
    if front.has(id) {
        return true;
    }
    for i in 0..others.len() {
        mem::swap(front, &mut others[i]);
        if front.has(id) {
            return true;
        }
    }
    false
}
