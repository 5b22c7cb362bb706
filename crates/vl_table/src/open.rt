//! How a table is opened: behind its header and the last eight bytes, the footer that these lead to, then the index and the
//! filter that the footer leads to. Blocks aren't read but those of a short table.
//!
//! Behind the header two reads will do for most tables: one of their end, where the footer stands, and one of the index and
//! the filter, which stand side by side before it.

ghost use Rattle.std.specs.Prelude.{◌≡◌, ◌+◌, ◌≤◌, List, length, IfOk, IfNone, IfSome};
ghost use Rattle.vl_table.specs.body.Footer.{Foot, foot_of};
ghost use Rattle.vl_table.specs.declared.body.index.BlockPlace.{BlockPlace};
ghost use Rattle.vl_table.specs.Answers.{Answers};
ghost use Rattle.vl_table.specs.Opening.{FilterAt, FooterIn, IsDamaged, IsRead, StandsFooter, StandsIndex, said_by};
ghost use Rattle.vl_table.specs.ReadAhead.{AheadOf, IsAhead};
ghost use Rattle.vl_table.specs.OpeningParts.{HasParts, LedTo, NoFilter, NoParts, NotLedTo};

use crate::begin::{read_begin, read_place};
use crate::body::{BlockPlace, Footer, FramePlace, TableShape, read_footer, read_index};
use crate::fault::damaged;
use crate::part::{body_of, is_same, read_part};
use crate::read::{Ahead, read_ahead, read_bytes};
use std::alloc::{AllocError, Global};
use vl_disk::{HeldFile, ReadFault, Reader};
use vl_filter::read;
use vl_frame::{FileKind, FrameKind, read_frame};

// So many bytes are read at a table's end. The footers of most tables have fewer.
const END_BYTES: u64 = 4096;

/// What the table with this number says beside its blocks.
pub fn read_shape<H: HeldFile, R: Reader<Held = H>>(
    alloc: Global,
    reader: &mut R,
    held: &H,
    number: u32,
) -> Result<TableShape, ReadFault>
    ensures answers { Answers (R.faults reader.old) (R.faults reader.new) number (H.bytes held.now)
        (λ bytes shape. IsRead number bytes (said_by shape)) (IsDamaged number) result }
    ensures number { IfOk result (λ shape. shape.number ≡ number) }
{
    let format = read_begin(reader, held, number)?;
    let end = read_end(alloc, reader, held, number)?;
    let place = read_place(reader, held, &end, number)?;
    let parts = read_parts(alloc, reader, held, &end, format, number, place)?;
    Ok(TableShape {
        format,
        number,
        footer: parts.footer,
        footer_place: place,
        blocks: parts.blocks,
        filter: parts.filter,
    })
}

// The last bytes of a table, ahead.
fn read_end<H: HeldFile, R: Reader<Held = H>>(
    alloc: Global,
    reader: &mut R,
    held: &H,
    number: u32,
) -> Result<Ahead, ReadFault>
    ensures { Answers (R.faults reader.old) (R.faults reader.new) number (H.bytes held.now) AheadOf (λ bytes damage. ⊥) result }
{
    let len = held.len();
    let count = if len < END_BYTES { len } else { END_BYTES };
    read_ahead(alloc, reader, held, number, len - count, count)
}

/// What an opened table has of its file.
#[derive(Drop)]
pub struct Parts {
    pub footer: Footer,
    pub blocks: Vec<BlockPlace>,
    // The bits of the filter; none where the footer names no filter.
    pub filter: Vec<u8>,
}

// The footer at a place, and what it leads to.
pub fn read_parts<H: HeldFile, R: Reader<Held = H>>(
    alloc: Global,
    reader: &mut R,
    held: &H,
    ahead: &Ahead,
    format: u32,
    number: u32,
    place: u64,
) -> Result<Parts, ReadFault>
    requires inside { place + 21 ≤ H.size held.now }
    requires ahead { IsAhead (H.bytes held.now) ahead.now }
    ensures { Answers (R.faults reader.old) (R.faults reader.new) number (H.bytes held.now)
        (HasParts format number place) (NoParts format number place) result }
{
    let footer = read_foot(alloc, reader, held, ahead, format, number, place)?;
    let (blocks, filter) = read_led_to(alloc, reader, held, ahead, number, &footer)?;
    Ok(Parts {
        footer,
        blocks,
        filter,
    })
}

// The index and the filter that a footer leads to. Where they stand side by side, they are read at once.
fn read_led_to<H: HeldFile, R: Reader<Held = H>>(
    alloc: Global,
    reader: &mut R,
    held: &H,
    ahead: &Ahead,
    number: u32,
    footer: &Footer,
) -> Result<(Vec<BlockPlace>, Vec<u8>), ReadFault>
    requires { IsAhead (H.bytes held.now) ahead.now }
    ensures { Answers (R.faults reader.old) (R.faults reader.new) number (H.bytes held.now)
        (λ bytes parts. LedTo number (foot_of footer.now) bytes parts.0.items parts.1.items)
        (NotLedTo number (foot_of footer.now)) result }
{
    match read_both(alloc, reader, held, ahead, number, footer)? {
        Some(both) => read_named(alloc, reader, held, &both, number, footer),
        None => read_named(alloc, reader, held, ahead, number, footer),
    }
}

// The bytes of the index and of the filter, ahead, where they stand side by side and the index wasn't read.
fn read_both<H: HeldFile, R: Reader<Held = H>>(
    alloc: Global,
    reader: &mut R,
    held: &H,
    ahead: &Ahead,
    number: u32,
    footer: &Footer,
) -> Result<Option<Ahead>, ReadFault>
    ensures { Answers (R.faults reader.old) (R.faults reader.new) number (H.bytes held.now)
        (λ bytes both. IfSome both (AheadOf bytes)) (λ bytes damage. ⊥) result }
{
    if footer.index_place >= ahead.place {
        return Ok(None);
    }
    match side_by_side(footer, held.len()) {
        Some(count) => {
            let both = read_ahead(alloc, reader, held, number, footer.index_place, count)?;
            Ok(Some(both))
        }
        None => Ok(None),
    }
}

// How many bytes index and filter have, where they stand side by side in a file of this length.
fn side_by_side(footer: &Footer, len: u64) -> Option<u64>
    ensures { IfSome result (λ count. footer.now.index_place + count ≤ len) }
{
    match &footer.filter {
        Some(filter) => {
            let size = footer.index_length as u64;
            let count = size + filter.length as u64;
            let is_inside = footer.index_place <= len && count <= len - footer.index_place;
            if is_inside && filter.place == footer.index_place + size {
                Some(count)
            } else {
                None
            }
        }
        None => None,
    }
}

// The index, and the filter if the footer names one.
fn read_named<H: HeldFile, R: Reader<Held = H>>(
    alloc: Global,
    reader: &mut R,
    held: &H,
    ahead: &Ahead,
    number: u32,
    footer: &Footer,
) -> Result<(Vec<BlockPlace>, Vec<u8>), ReadFault>
    requires { IsAhead (H.bytes held.now) ahead.now }
    ensures { Answers (R.faults reader.old) (R.faults reader.new) number (H.bytes held.now)
        (λ bytes parts. LedTo number (foot_of footer.now) bytes parts.0.items parts.1.items)
        (NotLedTo number (foot_of footer.now)) result }
{
    let blocks = read_blocks(
        alloc,
        reader,
        held,
        ahead,
        number,
        footer.index_place,
        footer.index_length,
    )?;
    let filter = match &footer.filter {
        None => Vec::new(alloc),
        Some(at) => read_filter(alloc, reader, held, ahead, number, at)?,
    };
    Ok((blocks, filter))
}

// The bits of the filter at a place.
fn read_filter<H: HeldFile, R: Reader<Held = H>>(
    alloc: Global,
    reader: &mut R,
    held: &H,
    ahead: &Ahead,
    number: u32,
    at: &FramePlace,
) -> Result<Vec<u8>, ReadFault>
    requires { IsAhead (H.bytes held.now) ahead.now }
    ensures { Answers (R.faults reader.old) (R.faults reader.new) number (H.bytes held.now)
        (λ bytes bits. FilterAt number bytes at.now.place at.now.length bits.items)
        (NoFilter number at.now) result }
{
    let mut frame = Vec::new(alloc);
    read_part(
        reader,
        held,
        ahead,
        number,
        at.place,
        at.length,
        FrameKind::Filter,
        &mut frame,
    )?;
    match read(body_of(&frame)) {
        Some(filter) => {
            let mut bits = Vec::new(alloc);
            bits.extend_from_slice(filter.as_slice())?;
            Ok(bits)
        }
        None => Err(damaged(number, at.place)),
    }
}

// The footer at a place.
fn read_foot<H: HeldFile, R: Reader<Held = H>>(
    alloc: Global,
    reader: &mut R,
    held: &H,
    ahead: &Ahead,
    format: u32,
    number: u32,
    place: u64,
) -> Result<Footer, ReadFault>
    requires inside { place + 21 ≤ H.size held.now }
    requires ahead { IsAhead (H.bytes held.now) ahead.now }
    ensures { Answers (R.faults reader.old) (R.faults reader.new) number (H.bytes held.now)
        (λ bytes footer. StandsFooter format number bytes place (foot_of footer))
        (λ bytes damage. ((f : Foot) → StandsFooter format number bytes place f → ⊥) × (damage ≡ place)) result }
{
    let bytes = read_bytes(
        alloc,
        reader,
        held,
        ahead,
        number,
        place,
        held.len() - place,
    )?;
    match footer_in(alloc, format, &bytes, number, place)? {
        Some(footer) => Ok(footer),
        None => Err(damaged(number, place)),
    }
}

// The footer whose frame stands at the front of the bytes, which are those of the table with this number from a place on.
fn footer_in(
    alloc: Global,
    format: u32,
    bytes: &[u8],
    number: u32,
    place: u64,
) -> Result<Option<Footer>, AllocError>
    ensures found { IfOk result (λ read. IfSome read (λ footer. FooterIn format number place bytes.now (foot_of footer))) }
    ensures none { IfOk result (λ read. IfNone read ((f : Foot) → FooterIn format number place bytes.now f → ⊥)) }
{
    match read_frame(bytes, FileKind::Table, number, place) {
        Some(frame) if is_same(frame.kind, FrameKind::Footer) => read_footer(
            alloc, format, frame.body,
        ),
        _ => Ok(None),
    }
}

// The blocks that the index at a place names.
fn read_blocks<H: HeldFile, R: Reader<Held = H>>(
    alloc: Global,
    reader: &mut R,
    held: &H,
    ahead: &Ahead,
    number: u32,
    place: u64,
    size: u32,
) -> Result<Vec<BlockPlace>, ReadFault>
    requires { IsAhead (H.bytes held.now) ahead.now }
    ensures { Answers (R.faults reader.old) (R.faults reader.new) number (H.bytes held.now)
        (λ bytes blocks. StandsIndex number bytes place size blocks.items)
        (λ bytes damage. ((ps : List BlockPlace) → StandsIndex number bytes place size ps → ⊥) × (damage ≡ place))
        result }
{
    let mut frame = Vec::new(alloc);
    read_part(
        reader,
        held,
        ahead,
        number,
        place,
        size,
        FrameKind::Index,
        &mut frame,
    )?;
    match read_index(alloc, body_of(&frame))? {
        Some(blocks) => Ok(blocks),
        None => Err(damaged(number, place)),
    }
}
