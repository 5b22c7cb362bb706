ghost use Rattle.std.specs.Prelude.{◌≡◌, IfOk, OnOk};
ghost use Rattle.vl_model.specs.Cutting.{pointed};
ghost use Rattle.vl_table.specs.writer.PointSums.{points_in};

use std::alloc::{AllocError, Global};
use std::collections::BTreeMap;
use vl_model::Point;

/// By segment how many bytes of its records are pointed to.
pub type PointSums = BTreeMap<u32, u64>;

/// Adds so many bytes of a segment's records. Want of memory is the answer too where the sum has no room.
pub fn add_point(sums: &mut PointSums, segment: u32, bytes: u32) -> Result<(), AllocError>
    ensures { OnOk result (points_in sums.new ≡ pointed segment bytes (points_in sums.old)) }
{
    let before = sums.get(&segment).copied().unwrap_or(0);
    let Some(sum) = before.checked_add(bytes as u64) else {
        return Err(AllocError);
    };
    sums.insert(segment, sum)?;
    Ok(())
}

/// The sums, as a footer has them.
pub fn points_of(alloc: Global, sums: &PointSums) -> Result<Vec<Point>, AllocError>
    ensures { IfOk result (λ points. points.items ≡ points_in sums.now) }
{
    sums.iter()
        .map(|(segment, bytes)| Point {
            segment: *segment,
            bytes: *bytes,
        })
        .collect(alloc)
}
