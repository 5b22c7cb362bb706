//! The footer of a table.

ghost use Rattle.std.specs.Prelude.{◌≡◌, IfOk, IfNone, IfSome};
ghost use Rattle.vl_table.specs.body.Footer.{Foot, SpellsFooter, foot_of, head_of};
ghost use Rattle.vl_table.specs.declared.body.footer_head.FooterHead.{FooterHead};

use crate::body::footer_head::{FooterHead, FramePlace, take_head};
use crate::body::points::read_points;
use std::alloc::{AllocError, Global};
use vl_model::{Bytes, Key, Point};

/// What a table's footer says: where the filter's frame stands, if there is one, where the index's frame stands and how
/// long it is, how many entries there are, the greatest version among them, the first and the last key, and the segments
/// that they lead into, rising.
#[derive(Drop)]
pub struct Footer {
    pub filter: Option<FramePlace>,
    pub index_place: u64,
    pub index_length: u32,
    pub count: u64,
    pub greatest: u64,
    pub first: Key,
    pub last: Key,
    pub points: Vec<Point>,
}

/// What the body of a footer's frame says, or None where it isn't a footer's.
pub fn read_footer(alloc: Global, format: u32, body: &[u8]) -> Result<Option<Footer>, AllocError>
    ensures found { IfOk result (λ read. IfSome read (λ footer. SpellsFooter format body.now (foot_of footer))) }
    ensures none { IfOk result (λ read. IfNone read ((foot : Foot) → SpellsFooter format body.now foot → ⊥)) }
{
    let Some((head, rest)) = take_head(format, body) else {
        return Ok(None);
    };
    match read_points(alloc, rest)? {
        None => Ok(None),
        Some(points) => Ok(Some(footer_with(alloc, &head, points)?)),
    }
}

fn footer_with(alloc: Global, head: &FooterHead, points: Vec<Point>) -> Result<Footer, AllocError>
    ensures { IfOk result (λ footer. foot_of footer ≡ record { head = head_of head.now; points = points.items }) }
{
    Ok(Footer {
        filter: head.filter,
        index_place: head.index_place,
        index_length: head.index_length,
        count: head.count,
        greatest: head.greatest,
        first: Bytes::copy_of(alloc, head.first)?,
        last: Bytes::copy_of(alloc, head.last)?,
        points,
    })
}
