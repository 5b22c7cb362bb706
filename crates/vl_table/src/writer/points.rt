//! Which segments a table leads into, as its footer says it, written.

ghost use Rattle.std.specs.Prelude.{◌≡◌, ◌++◌, OnOk};
ghost use Rattle.vl_table.specs.body.Footer.{point_bytes, points};
ghost use Rattle.vl_table.specs.body.Lists.{counted_bytes};

use crate::writer::numbers::{u32_bytes, u64_bytes};
use std::alloc::AllocError;
use vl_model::Point;

// Appends the count of some points, and the points.
pub fn write_points(out: &mut Vec<u8>, list: &[Point]) -> Result<(), AllocError>
    ensures written { OnOk result (out.new.items ≡ out.old.items ++ counted_bytes points list.now) }
{
    if list.len() > u32::MAX as usize {
        return Err(AllocError);
    }
    out.extend_from_slice(&u32_bytes(list.len() as u32))?;
    for point in list {
        write_point(out, point)?;
    }
    Ok(())
}

fn write_point(out: &mut Vec<u8>, point: &Point) -> Result<(), AllocError>
    ensures written { OnOk result (out.new.items ≡ out.old.items ++ point_bytes point.now) }
{
    out.extend_from_slice(&u32_bytes(point.segment))?;
    out.extend_from_slice(&u64_bytes(point.bytes))
}
