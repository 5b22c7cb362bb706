//! Which segments a table leads into, as its footer says it.

ghost use Rattle.std.specs.Prelude.{◌≡◌, ◌↔◌, ◌++◌, ◌<◌, ℕ, List, IfOk, IfNone, IfSome, IsTrue};
ghost use Rattle.vl_table.specs.body.Footer.{IsPoint, point_bytes, points};
ghost use Rattle.vl_table.specs.body.Lists.{last_item};
ghost use Rattle.vl_table.specs.body.Lists.{AreLawful, IsNext, IsRun, counted_bytes};
ghost use Rattle.vl_model.specs.declared.point.Point.{Point};

use std::alloc::{AllocError, Global};
use vl_frame::{take_u32, take_u64};
use vl_model::Point;

// The points that these bytes are to the last, behind their count.
pub fn read_points(alloc: Global, bytes: &[u8]) -> Result<Option<Vec<Point>>, AllocError>
    ensures lawful { IfOk result (λ read. IfSome read (λ list. AreLawful points list.items)) }
    ensures found { IfOk result (λ read. IfSome read (λ list. bytes.now ≡ counted_bytes points list.items)) }
    ensures none { IfOk result (λ read. IfNone read
        ((list : List Point) → AreLawful points list → bytes.now ≡ counted_bytes points list → ⊥)) }
{
    let Some((count, rest)) = take_u32(bytes) else {
        return Ok(None);
    };
    take_points(alloc, count, rest)
}

// So many points, which these bytes are to the last.
fn take_points(alloc: Global, count: u32, bytes: &[u8]) -> Result<Option<Vec<Point>>, AllocError>
    ensures found { IfOk result (λ read. IfSome read (λ list. IsRun points bytes.now count list.items)) }
    ensures none { IfOk result (λ read. IfNone read ((list : List Point) → IsRun points bytes.now count list → ⊥)) }
{
    let mut list = Vec::new(alloc);
    let mut rest = bytes;
    for _ in 0..count {
        match take_point(rest) {
            None => return Ok(None),
            Some((point, after)) => {
                if !is_next(&list, point) {
                    return Ok(None);
                }
                list.push(point)?;
                rest = after;
            }
        }
    }
    if rest.is_empty() {
        Ok(Some(list))
    } else {
        Ok(None)
    }
}

// Whether a point comes behind the last of these.
fn is_next(list: &[Point], point: Point) -> bool
    ensures { IsTrue result ↔ IsNext points (last_item list.now) point }
{
    if list.is_empty() {
        return true;
    }
    list[list.len() - 1].segment < point.segment
}

// The point at the front, and the bytes behind it.
fn take_point(bytes: &[u8]) -> Option<(Point, &[u8])>
    ensures found { IfSome result (λ r. bytes.now ≡ point_bytes r.0 ++ r.1.now) }
    ensures lawful { IfSome result (λ r. IsPoint r.0) }
    ensures none { IfNone result
        ((point : Point) (rest : List ℕ) → IsPoint point → bytes.now ≡ point_bytes point ++ rest → ⊥) }
{
    let (segment, rest) = take_u32(bytes)?;
    let (bytes, rest) = take_u64(rest)?;
    Some((Point { segment, bytes }, rest))
}
