//! The frames behind a table's blocks, each by itself.

ghost use Rattle.std.specs.Prelude.{◌≡◌, drop, IfOk};
ghost use Rattle.vl_filter.specs.Filters.{marked_body, marked_bytes};
ghost use Rattle.vl_frame.specs.declared.kinds.FrameKind.TheVariants as kinds;
ghost use Rattle.vl_table.specs.body.Footer.{foot_of, footer_body};
ghost use Rattle.vl_table.specs.body.Index.{index_body};
ghost use Rattle.vl_table.specs.writer.Framing.{IsFramed};

use crate::body::{Footer, FramePlace};
use crate::writer::blocks_writer::BlocksWriter;
use crate::writer::footer::write_footer;
use crate::writer::index::write_index;
use std::alloc::{AllocError, Global};
use vl_filter::{Hashes, build};
use vl_frame::{FRAME_BYTES, FrameKind, write_frame};

// A filter's bits can be counted for so many keys at most.
const MAX_KEYS: usize = 429_496_728;

/// A frame, and where in its table it is to stand.
#[derive(Drop)]
pub struct Framed {
    pub at: FramePlace,
    pub bytes: Vec<u8>,
}

impl Framed {
    // The frame of this kind and body that is to stand at a place of the table with this number.
    fn of(
        alloc: Global,
        number: u32,
        place: u64,
        kind: FrameKind,
        body: &[u8],
    ) -> Result<Self, AllocError>
        ensures { IfOk result (IsFramed number place kind body.now) }
    {
        let mut bytes = Vec::new(alloc);
        write_frame(&mut bytes, number, place, kind, body)?;
        Ok(Framed {
            at: FramePlace {
                place,
                length: (body.len() + FRAME_BYTES) as u32,
            },
            bytes,
        })
    }

    /// Of the index of the blocks that are closed, behind these.
    pub fn index(alloc: Global, blocks: &BlocksWriter) -> Result<Self, AllocError>
        ensures { IfOk result (IsFramed blocks.now.number blocks.now.place kinds.Index (index_body blocks.now.closed.items)) }
    {
        let mut body = Vec::new(alloc);
        write_index(&mut body, &blocks.closed)?;
        Framed::of(alloc, blocks.number, blocks.place, FrameKind::Index, &body)
    }

    /// Of the filter of different keys with these hashes, and the filter's bits. Want of memory is the answer too where there
    /// are more than a filter may have.
    pub fn filter(
        alloc: Global,
        number: u32,
        place: u64,
        keys: &[Hashes],
    ) -> Result<(Self, Vec<u8>), AllocError>
        ensures frame { IfOk result (λ r. IsFramed number place kinds.Filter (marked_body keys.now) r.0) }
        ensures bits { IfOk result (λ r. r.1.items ≡ marked_bytes keys.now) }
    {
        if keys.len() > MAX_KEYS {
            return Err(AllocError);
        }
        let body = build(alloc, keys)?;
        let frame = Framed::of(alloc, number, place, FrameKind::Filter, &body)?;
        Ok((frame, bits_of(alloc, &body)?))
    }

    /// Of the footer.
    pub fn footer(
        alloc: Global,
        number: u32,
        place: u64,
        footer: &Footer,
    ) -> Result<Self, AllocError>
        ensures { IfOk result (IsFramed number place kinds.Footer (footer_body (foot_of footer.now))) }
    {
        let mut body = Vec::new(alloc);
        write_footer(&mut body, footer)?;
        Framed::of(alloc, number, place, FrameKind::Footer, &body)
    }
}

// The bits of a filter, without their count.
fn bits_of(alloc: Global, body: &[u8]) -> Result<Vec<u8>, AllocError>
    ensures { IfOk result (λ bits. bits.items ≡ drop 4 body.now) }
{
    let mut bits = Vec::new(alloc);
    if body.len() > 4 {
        bits.extend_from_slice(&body[4..])?;
    }
    Ok(bits)
}
