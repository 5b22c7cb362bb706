//! Whether the blocks of a table are in order. Each is tested for the order of its own entries when it is read; nothing else
//! tests how they stand to each other.

ghost use Rattle.std.specs.Prelude.{◌≡◌, ◌∷◌, ◌++◌, [], List, IfErr, IfOk, MatchResult};
ghost use Rattle.vl_disk.specs.declared.read_fault.ReadFault.{ReadFault};
ghost use Rattle.vl_model.specs.Cursors.{IsCounted};
ghost use Rattle.vl_model.specs.declared.entry.Entry.{Entry};
ghost use Rattle.vl_table.specs.BlockOrder.{SaysOrder, may_follow};
ghost use Rattle.vl_table.specs.CursorParts.{MayFailOn, is_disk_fault};
ghost use Rattle.vl_table.specs.body.Lists.{last_item};

use crate::open_block::OpenBlock;
use crate::slot::BlockId;
use crate::table::Table;
use std::alloc::{AllocError, Global};
use vl_disk::{HeldFile, ReadFault, Reader};
use vl_model::{Entry, place_order};

/// The place of the first block of a table whose first entry isn't behind the last one before it; None where all are in order.
/// It reads the blocks one by one, up to that, and holds one of them and one entry.
pub fn first_out_of_order<H: HeldFile, R: Reader<Held = H>>(
    alloc: Global,
    reader: &mut R,
    table: &Table<H>,
) -> Result<Option<u64>, ReadFault>
    ensures order { SaysOrder H.bytes table.now result }
    ensures may_fail { IfErr result (λ fault. MayFailOn H.bytes (table.now ∷ []) fault) }
    ensures cause { MatchResult result (λ _. R.faults reader.new ≡ R.faults reader.old)
        (λ fault. IsCounted (is_disk_fault fault) (R.faults reader.old) (R.faults reader.new)) }
{
    let shape = table.shape();
    let mut block = OpenBlock::new(alloc)?;
    let mut last = None;
    for at in 0..shape.blocks.len() {
        let id = BlockId::of(shape, &shape.blocks[at]);
        block.load(reader, table.held(), table.tested(), at, id)?;
        if !may_follow(&last, &block) {
            return Ok(Some(id.place));
        }
        last = last_behind(alloc, last, &block)?;
    }
    Ok(None)
}

// Whether a block may stand behind the entry that came last.
fn may_follow(last: &Option<Entry>, block: &OpenBlock) -> bool
    ensures { result ≡ may_follow last.now block.now }
{
    match last {
        Some(entry) if block.len() > 0 => {
            place_order(&entry.place(), &block.get(0).place()).is_lt()
        }
        _ => true,
    }
}

// The entry that comes last behind a block: that of the block, where it has one.
fn last_behind(
    alloc: Global,
    last: Option<Entry>,
    block: &OpenBlock,
) -> Result<Option<Entry>, AllocError>
    ensures { (passed : List Entry) → last ≡ last_item passed → IfOk result (λ next. next ≡ last_item (passed ++ block.now)) }
{
    let count = block.len();
    if count == 0 {
        return Ok(last);
    }
    Ok(Some(block.get(count - 1).to_entry(alloc)?))
}
