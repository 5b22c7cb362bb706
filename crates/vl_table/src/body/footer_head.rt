ghost use Rattle.std.specs.Prelude.{◌≡◌, ◌++◌, ℕ, List, Option, IfNone, IfSome};
ghost use Rattle.vl_model.specs.Formats as formats;
ghost use Rattle.vl_table.specs.declared.body.footer_head.FramePlace.{FramePlace};
ghost use Rattle.vl_table.specs.body.Footer.{Head, IsFramePlace, IsHead, frame_place_bytes, head_bytes, head_of};

use crate::body::formats::has_filter;
use crate::body::keys::take_key;
use vl_frame::{take_u32, take_u64};

/// Where a frame stands in its table, and how long it is.
#[derive(Clone, Copy, Debug, PartialEq, Eq)]
pub struct FramePlace {
    pub place: u64,
    pub length: u32,
}

/// What a footer says before its points, where it lies in memory.
#[derive(Clone, Copy)]
pub struct FooterHead<'a> {
    pub filter: Option<FramePlace>,
    pub index_place: u64,
    pub index_length: u32,
    pub count: u64,
    pub greatest: u64,
    pub first: &'a [u8],
    pub last: &'a [u8],
}

// It, and the bytes behind it.
pub fn take_head(format: u32, bytes: &[u8]) -> Option<(FooterHead<'_>, &[u8])>
    ensures found { IfSome result (λ r. bytes.now ≡ head_bytes (head_of r.0) ++ r.1.now) }
    ensures lawful { IfSome result (λ r. IsHead format (head_of r.0)) }
    ensures none { IfNone result
        ((head : Head) (rest : List ℕ) → IsHead format head → bytes.now ≡ head_bytes head ++ rest → ⊥) }
{
    let (filter, rest) = take_filter(format, bytes)?;
    let (index_place, rest) = take_u64(rest)?;
    let (index_length, rest) = take_u32(rest)?;
    let (count, rest) = take_u64(rest)?;
    let (greatest, rest) = take_u64(rest)?;
    let (first, rest) = take_key(rest)?;
    let (last, rest) = take_key(rest)?;
    let head = FooterHead {
        filter,
        index_place,
        index_length,
        count,
        greatest,
        first,
        last,
    };
    Some((head, rest))
}

// Where the filter stands, where the format has one.
fn take_filter(format: u32, bytes: &[u8]) -> Option<(Option<FramePlace>, &[u8])>
    ensures found { IfSome result (λ r. bytes.now ≡ frame_place_bytes r.0 ++ r.1.now) }
    ensures lawful { IfSome result (λ r. IsFramePlace (formats.has_filter format) r.0) }
    ensures none { IfNone result ((place : Option FramePlace) (rest : List ℕ)
        → IsFramePlace (formats.has_filter format) place → bytes.now ≡ frame_place_bytes place ++ rest → ⊥) }
{
    if has_filter(format) {
        let (place, rest) = take_u64(bytes)?;
        let (length, rest) = take_u32(rest)?;
        Some((Some(FramePlace { place, length }), rest))
    } else {
        Some((None, bytes))
    }
}
