//! A table's header, and the place of its footer.

ghost use Rattle.std.specs.Prelude.{◌≡◌, ◌+◌, ◌-◌, ◌≤◌, ℕ, length, IfOk, IfNone, IfSome, OnOk};
ghost use Rattle.vl_table.specs.Answers.{Answers};
ghost use Rattle.vl_table.specs.Begun.{HasHeader, IsBegun, IsInside, said_place};
ghost use Rattle.vl_table.specs.ReadAhead.{IsAhead};

use crate::fault::damaged;
use crate::read::{Ahead, fill, fill_from};
use byteorder::{BigEndian, ByteOrder};
use vl_disk::{HeldFile, ReadFault, Reader};
use vl_frame::{FileKind, HEADER_BYTES, read_header};
use vl_model::TABLE_FORMAT;

// A table has a header, a frame without a body and a place at least to be looked at.
const MIN_TABLE_BYTES: u64 = 24;

/// Tests the header, and gives the table's format.
pub fn read_begin<H: HeldFile, R: Reader<Held = H>>(
    reader: &mut R,
    held: &H,
    number: u32,
) -> Result<u32, ReadFault>
    ensures answers { Answers (R.faults reader.old) (R.faults reader.new) number (H.bytes held.now)
        (λ bytes format. IsBegun format number bytes)
        (λ bytes damage. ((format : ℕ) → IsBegun format number bytes → ⊥) × (damage ≡ 0)) result }
    ensures long { OnOk result (24 ≤ H.size held.now) }
{
    if held.len() < MIN_TABLE_BYTES {
        return Err(damaged(number, 0));
    }
    let mut header = [0; HEADER_BYTES];
    fill(reader, held, number, 0, &mut header)?;
    match format_in(&header, number) {
        Some(format) => Ok(format),
        None => Err(damaged(number, 0)),
    }
}

// The format that the header of the table with this number says, where it is one that is read.
fn format_in(bytes: &[u8], number: u32) -> Option<u32>
    ensures found { IfSome result (λ format. HasHeader format number bytes.now) }
    ensures none { IfNone result ((format : ℕ) → HasHeader format number bytes.now → ⊥) }
{
    read_header(bytes, FileKind::Table, number, TABLE_FORMAT)
}

/// The footer's place, as the last eight bytes say it.
pub fn read_place<H: HeldFile, R: Reader<Held = H>>(
    reader: &mut R,
    held: &H,
    ahead: &Ahead,
    number: u32,
) -> Result<u64, ReadFault>
    requires long { 24 ≤ H.size held.now }
    requires ahead { IsAhead (H.bytes held.now) ahead.now }
    ensures answers { Answers (R.faults reader.old) (R.faults reader.new) number (H.bytes held.now)
        (λ bytes place. (place ≡ said_place bytes) × IsInside bytes place)
        (λ bytes damage. (IsInside bytes (said_place bytes) → ⊥) × (damage ≡ length bytes - 8)) result }
    ensures inside { IfOk result (λ place. place + 21 ≤ H.size held.now) }
{
    let end = held.len() - 8;
    let mut last = [0; 8];
    fill_from(reader, held, ahead, number, end, &mut last)?;
    let place = BigEndian::read_u64(&last);
    if place < HEADER_BYTES as u64 || place > end - 13 {
        return Err(damaged(number, end));
    }
    Ok(place)
}
