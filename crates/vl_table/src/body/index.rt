//! The index of a table: which blocks it has, where they stand, and which key is the last of each.

ghost use Rattle.std.specs.Prelude.{◌≡◌, ◌++◌, ◌<◌, ℕ, List, length, IfOk, IfNone, IfSome};
ghost use Rattle.vl_table.specs.body.Index.{IsPlace, SpellsIndex, place_bytes, place_of, places};
ghost use Rattle.vl_table.specs.body.Lists.{IsRun};
ghost use Rattle.vl_table.specs.declared.body.index.BlockPlace.{BlockPlace};

use crate::body::keys::take_key;
use std::alloc::{AllocError, Global};
use vl_frame::{take_u32, take_u64};
use vl_model::{Bytes, Key};

/// Where a block's frame stands in its table, how long the frame is, and the last key of the block.
#[derive(Drop)]
pub struct BlockPlace {
    pub place: u64,
    pub length: u32,
    pub last: Key,
}

/// The blocks that the body of an index's frame names, or None where it isn't an index's.
pub fn read_index(alloc: Global, body: &[u8]) -> Result<Option<Vec<BlockPlace>>, AllocError>
    ensures found { IfOk result (λ read. IfSome read (λ blocks. SpellsIndex body.now blocks.items)) }
    ensures none { IfOk result (λ read. IfNone read ((blocks : List BlockPlace) → SpellsIndex body.now blocks → ⊥)) }
{
    let Some((count, rest)) = take_u32(body) else {
        return Ok(None);
    };
    take_places(alloc, count, rest)
}

// So many blocks, which these bytes are to the last.
fn take_places(
    alloc: Global,
    count: u32,
    bytes: &[u8],
) -> Result<Option<Vec<BlockPlace>>, AllocError>
    ensures found { IfOk result (λ read. IfSome read (λ blocks. IsRun places bytes.now count blocks.items)) }
    ensures none { IfOk result (λ read. IfNone read
        ((blocks : List BlockPlace) → IsRun places bytes.now count blocks → ⊥)) }
{
    let mut blocks = Vec::new(alloc);
    let mut rest = bytes;
    for _ in 0..count {
        match take_place(alloc, rest)? {
            None => return Ok(None),
            Some((block, after)) => {
                blocks.push(block)?;
                rest = after;
            }
        }
    }
    if rest.is_empty() {
        Ok(Some(blocks))
    } else {
        Ok(None)
    }
}

// What the index says of the block at the front, and the bytes behind it.
fn take_place(alloc: Global, bytes: &[u8]) -> Result<Option<(BlockPlace, &[u8])>, AllocError>
    ensures found { IfOk result (λ read. IfSome read (λ r. bytes.now ≡ place_bytes r.0 ++ r.1.now)) }
    ensures lawful { IfOk result (λ read. IfSome read (λ r. IsPlace r.0)) }
    ensures none { IfOk result (λ read. IfNone read
        ((block : BlockPlace) (rest : List ℕ) → IsPlace block → bytes.now ≡ place_bytes block ++ rest → ⊥)) }
{
    let Some((parts, rest)) = take_parts(bytes) else {
        return Ok(None);
    };
    let last = Bytes::copy_of(alloc, parts.last)?;
    Ok(Some((
        BlockPlace {
            place: parts.place,
            length: parts.length,
            last,
        },
        rest,
    )))
}

// What the index says of a block, where it lies in memory.
#[derive(Clone, Copy)]
struct PlaceParts<'a> {
    place: u64,
    length: u32,
    last: &'a [u8],
}

fn take_parts(bytes: &[u8]) -> Option<(PlaceParts<'_>, &[u8])>
    ensures found { IfSome result (λ r. bytes.now ≡ place_bytes (place_of r.0) ++ r.1.now) }
    ensures lawful { IfSome result (λ r. IsPlace (place_of r.0)) }
    ensures none { IfNone result
        ((block : BlockPlace) (rest : List ℕ) → IsPlace block → bytes.now ≡ place_bytes block ++ rest → ⊥) }
{
    let (place, rest) = take_u64(bytes)?;
    let (length, rest) = take_u32(rest)?;
    let (last, rest) = take_key(rest)?;
    Some((
        PlaceParts {
            place,
            length,
            last,
        },
        rest,
    ))
}
