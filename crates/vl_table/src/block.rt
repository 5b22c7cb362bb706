//! How a block is read and tested.

ghost use Rattle.std.specs.Prelude.{◌≡◌, ◌+◌, ◌≤◌, ℕ, true, false, IfOk, IsTrue, List, Some, drop, length, take};
ghost use Rattle.std.specs.List.{AllByRecursion};
ghost use Rattle.vl_model.specs.declared.entry.Entry.{Entry};
ghost use Rattle.vl_table.specs.body.Blocks.{IsSomeBlock};
ghost use Rattle.vl_frame.specs.Frame.{frame_bytes};
ghost use Rattle.vl_frame.specs.declared.kinds.FrameKind.TheVariants as kinds;
ghost use Rattle.vl_table.specs.Answers.{Answers, NeedsNoMemory};
ghost use Rattle.vl_table.specs.Begun.{FrameAt};
ghost use Rattle.vl_table.specs.OpenBlocks.{Begins};
ghost use Rattle.vl_table.specs.Kept.{HasFrame, IsMissing, StandsBlock};
ghost use Rattle.vl_table.specs.Tested.{IsTested};

use crate::body::{MAX_BLOCK_ENTRIES, find_starts};
use crate::fault::damaged;
use crate::part::{body_of, read_into};
use crate::read::fill;
use crate::slot::{BlockId, MAX_BLOCK_FRAME_BYTES};
use crate::tested::Tested;
use vl_disk::{HeldFile, ReadFault, Reader};
use vl_frame::FrameKind;

/// Reads the frame of the block with an index to the front of one slice, and puts to the front of another where its entries
/// begin. It says how many there are. Of a block that was tested neither the check nor the order is tested again.
pub fn read_block<H: HeldFile, R: Reader<Held = H>>(
    reader: &mut R,
    held: &H,
    tested: &Tested<H>,
    at: usize,
    id: BlockId,
    frame: &mut [u8],
    starts: &mut [u16],
) -> Result<usize, ReadFault>
    requires frame { length frame.old ≡ MAX_BLOCK_FRAME_BYTES }
    requires starts { length starts.old ≡ MAX_BLOCK_ENTRIES }
    ensures answers { Answers (R.faults reader.old) (R.faults reader.new) id.number (H.bytes held.now)
        (λ bytes count. (es : List Entry) × HasFrame id bytes (take id.length frame.new) (take count starts.new) es)
        (IsMissing id) result }
    ensures within { IfOk result (λ count. count ≤ MAX_BLOCK_ENTRIES) }

    // Entries begin there also in a file that doesn't tell its bytes.
    ensures begin { IfOk result (λ count. AllByRecursion (Begins id.format (drop 9 frame.new)) (take count starts.new)) }
    ensures no_memory { NeedsNoMemory result }
{
    if !lies_inside(held, &id) {
        return Err(damaged(id.number, id.place));
    }
    let size = id.length as usize;
    let was_tested = read_tested(reader, held, tested, at, id, &mut frame[..size])?;
    match find_starts(id.format, body_of(&frame[..size]), was_tested, starts) {
        None => Err(damaged(id.number, id.place)),
        Some(count) => {
            note_if_new(tested, was_tested, held, at, id);
            Ok(count)
        }
    }
}

// Notes that the block with an index was tested, where it wasn't before.
fn note_if_new<H: HeldFile>(tested: &Tested<H>, was_tested: bool, held: &H, at: usize, id: BlockId)
    requires { was_tested ≡ false → IsTested H.bytes held.now id }
{
    if !was_tested {
        tested.note(held, at, id);
    }
}

// Fills a slice with the frame of the block with an index, and says whether it was tested before. One that wasn't has its check
// tested here.
fn read_tested<H: HeldFile, R: Reader<Held = H>>(
    reader: &mut R,
    held: &H,
    tested: &Tested<H>,
    at: usize,
    id: BlockId,
    frame: &mut [u8],
) -> Result<bool, ReadFault>
    requires inside { id.place + length frame.old ≤ H.size held.now }
    requires sized { length frame.old ≡ id.length }
    ensures answers { Answers (R.faults reader.old) (R.faults reader.new) id.number (H.bytes held.now)
        (λ bytes was_tested. (body : List ℕ) × FrameAt id.number bytes id.place (length frame.old) kinds.Block body
        × (frame.new ≡ frame_bytes id.number id.place kinds.Block body) × (was_tested ≡ true → IsSomeBlock id.format body))
        (λ bytes damage. ((body : List ℕ) → FrameAt id.number bytes id.place (length frame.old) kinds.Block body → ⊥)
        × (damage ≡ id.place))
        result }
    ensures no_memory { NeedsNoMemory result }
{
    if tested.has(held, at, id) {
        fill(reader, held, id.number, id.place, frame)?;
        return Ok(true);
    }
    let kind = FrameKind::Block;
    read_into(reader, held, id.number, id.place, kind, frame)?;
    Ok(false)
}

// Whether a block's frame has a length that is read, and lies inside the file.
fn lies_inside<H: HeldFile>(held: &H, id: &BlockId) -> bool
    ensures short { IsTrue result → id.now.length ≤ MAX_BLOCK_FRAME_BYTES }
    ensures inside { IsTrue result → id.now.place + id.now.length ≤ H.size held.now }
    ensures whole { (bytes : List ℕ) (es : List Entry) → H.bytes held.now ≡ Some bytes
        → StandsBlock id.now.format id.now.number bytes id.now.place id.now.length es → IsTrue result }
{
    id.length as usize <= MAX_BLOCK_FRAME_BYTES
        && id.place <= held.len()
        && id.length as u64 <= held.len() - id.place
}
