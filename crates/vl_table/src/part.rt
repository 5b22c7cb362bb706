//! One frame of a table, of which it is known where it stands and how long it is.

ghost use Rattle.std.specs.Prelude.{◌≡◌, ◌+◌, ◌-◌, ◌<◌, ◌≤◌, ◌↔◌, ℕ, List, drop, length, take, IsTrue, OnOk};
ghost use Rattle.vl_frame.specs.Frame.{IsSpelled, frame_bytes, frame_length};
ghost use Rattle.vl_frame.specs.declared.kinds.FileKind.TheVariants as files;
ghost use Rattle.vl_frame.specs.declared.kinds.FrameKind.{FrameKind};
ghost use Rattle.vl_table.specs.Answers.{Answers, NeedsNoMemory};
ghost use Rattle.vl_table.specs.Begun.{FrameAt};
ghost use Rattle.vl_table.specs.ReadAhead.{IsAhead};

use crate::fault::damaged;
use crate::read::{Ahead, fill, fill_from};
use vl_disk::{HeldFile, ReadFault, Reader};
use vl_frame::{FRAME_BYTES, FileKind, FrameKind, read_frame};

/// Reads the frame of this kind and of so many bytes that stands at a place of the table with this number.
pub fn read_part<H: HeldFile, R: Reader<Held = H>>(
    reader: &mut R,
    held: &H,
    ahead: &Ahead,
    number: u32,
    place: u64,
    size: u32,
    kind: FrameKind,
    frame: &mut Vec<u8>,
) -> Result<(), ReadFault>
    requires { IsAhead (H.bytes held.now) ahead.now }
    ensures answers { Answers (R.faults reader.old) (R.faults reader.new) number (H.bytes held.now)
        (λ bytes done. (body : List ℕ) × FrameAt number bytes place size kind body
        × (frame.new.items ≡ frame_bytes number place kind body))
        (λ bytes damage. ((body : List ℕ) → FrameAt number bytes place size kind body → ⊥) × (damage ≡ place))
        result }
{
    if place > held.len() || size as u64 > held.len() - place {
        return Err(damaged(number, place));
    }
    frame.resize(size as usize, 0)?;
    fill_from(reader, held, ahead, number, place, frame)?;
    if !is_frame(frame, number, place, kind) {
        return Err(damaged(number, place));
    }
    Ok(())
}

/// Fills a slice with the frame of this kind that stands at a place of the table with this number. It wants no memory.
pub fn read_into<H: HeldFile, R: Reader<Held = H>>(
    reader: &mut R,
    held: &H,
    number: u32,
    place: u64,
    kind: FrameKind,
    frame: &mut [u8],
) -> Result<(), ReadFault>
    requires { place + length frame.old ≤ H.size held.now }
    ensures answers { Answers (R.faults reader.old) (R.faults reader.new) number (H.bytes held.now)
        (λ bytes done. (body : List ℕ) × FrameAt number bytes place (length frame.old) kind body
        × (frame.new ≡ frame_bytes number place kind body))
        (λ bytes damage. ((body : List ℕ) → FrameAt number bytes place (length frame.old) kind body → ⊥) × (damage ≡ place))
        result }
    ensures framed { OnOk result ((body : List ℕ) × (frame.new ≡ frame_bytes number place kind body)) }
    ensures no_memory { NeedsNoMemory result }
{
    fill(reader, held, number, place, frame)?;
    if !is_frame(frame, number, place, kind) {
        return Err(damaged(number, place));
    }
    Ok(())
}

// Whether the bytes are a frame of this kind and nothing else.
fn is_frame(bytes: &[u8], number: u32, place: u64, kind: FrameKind) -> bool
    ensures found { IsTrue result → (body : List ℕ) × IsSpelled files.Table number place bytes.now kind body
        × (length bytes.now ≡ frame_length (length body)) }
    ensures whole { (body : List ℕ) → IsSpelled files.Table number place bytes.now kind body
        → length bytes.now ≡ frame_length (length body) → IsTrue result }
{
    match read_frame(bytes, FileKind::Table, number, place) {
        Some(frame) => is_same(frame.kind, kind) && frame.length as usize == bytes.len(),
        None => false,
    }
}

/// Whether two kinds of frames are the same.
pub fn is_same(kind: FrameKind, other: FrameKind) -> bool
    ensures { IsTrue result ↔ (kind ≡ other) }
{
    kind == other
}

/// The body of a frame: all but its first five bytes and its last eight.
pub fn body_of(frame: &[u8]) -> &[u8]
    ensures cut { result.now ≡ take (length frame.now - 8 - 5) (drop 5 frame.now) }
    ensures framed { (number place : ℕ) (kind : FrameKind) (body : List ℕ)
        → frame.now ≡ frame_bytes number place kind body → result.now ≡ body }
{
    if frame.len() < FRAME_BYTES {
        return &[];
    }
    &frame[5..frame.len() - 8]
}
