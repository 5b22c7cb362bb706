// Sums of bytes by segment; one of no bytes has no entry.
ghost use Rattle.std.specs.Prelude.{List, OnOk, [], ◌∷◌};
ghost use Rattle.std.specs.List.{sum_by};
ghost use Rattle.std.specs.Ordering.{nat_cmp};
ghost use Rattle.std.specs.BTreeMap.{get};
ghost use Rattle.vl_engine_model.specs.Garbage.{pointed_bytes};
ghost use Rattle.vl_stats.specs.Sums.{Adds, Takes, HasNoEmpty};

use std::alloc::AllocError;
use std::collections::BTreeMap;
use vl_model::Point;
use vl_table::Footer;

pub type Sums = BTreeMap<u32, u128>;

// With a point's bytes more. A sum that 128 bits don't hold is refused as want of memory: it takes 2^32 tables with 2^32
// points each.
fn add_point(sums: &mut Sums, point: Point) -> Result<(), AllocError>
    ensures adds { OnOk result (Adds (get nat_cmp sums.old) (get nat_cmp sums.new) (λ s. pointed_bytes s (point ∷ []))) }
    ensures empty { OnOk result (HasNoEmpty (get nat_cmp sums.old) → HasNoEmpty (get nat_cmp sums.new)) }
{
    if point.bytes == 0 {
        return Ok(());
    }
    let before = sums.get(&point.segment).copied().unwrap_or(0);
    match before.checked_add(u128::from(point.bytes)) {
        Some(after) => {
            sums.insert(point.segment, after)?;
            Ok(())
        }
        None => Err(AllocError),
    }
}

// With a point's bytes fewer.
fn take_point(sums: &mut Sums, point: Point)
    ensures takes { Takes (get nat_cmp sums.old) (get nat_cmp sums.new) (λ s. pointed_bytes s (point ∷ [])) }
    ensures empty { HasNoEmpty (get nat_cmp sums.old) → HasNoEmpty (get nat_cmp sums.new) }
{
    let before = sums.get(&point.segment).copied().unwrap_or(0);
    let left = before.saturating_sub(u128::from(point.bytes));
    if left > 0 {
        let _ = sums.insert(point.segment, left);
    } else {
        sums.remove(&point.segment);
    }
}

fn add_points(sums: &mut Sums, points: &[Point]) -> Result<(), AllocError>
    ensures adds { OnOk result (Adds (get nat_cmp sums.old) (get nat_cmp sums.new) (λ s. pointed_bytes s points.now)) }
    ensures empty { OnOk result (HasNoEmpty (get nat_cmp sums.old) → HasNoEmpty (get nat_cmp sums.new)) }
{
    for point in points {
        add_point(sums, *point)?;
    }
    Ok(())
}

fn take_points(sums: &mut Sums, points: &[Point])
    ensures takes { Takes (get nat_cmp sums.old) (get nat_cmp sums.new) (λ s. pointed_bytes s points.now) }
    ensures empty { HasNoEmpty (get nat_cmp sums.old) → HasNoEmpty (get nat_cmp sums.new) }
{
    for point in points {
        take_point(sums, *point);
    }
}

// With the bytes of all these footers more.
pub fn add_footers(sums: &mut Sums, footers: &[&Footer]) -> Result<(), AllocError>
    ensures adds { OnOk result (Adds (get nat_cmp sums.old) (get nat_cmp sums.new)
        (λ s. sum_by (λ f. pointed_bytes s f.now.points.items) footers.now)) }
    ensures empty { OnOk result (HasNoEmpty (get nat_cmp sums.old) → HasNoEmpty (get nat_cmp sums.new)) }
{
    for footer in footers {
        add_points(sums, &footer.points)?;
    }
    Ok(())
}

// With the bytes of all these footers fewer.
pub fn take_footers(sums: &mut Sums, footers: &[&Footer])
    ensures takes { Takes (get nat_cmp sums.old) (get nat_cmp sums.new)
        (λ s. sum_by (λ f. pointed_bytes s f.now.points.items) footers.now) }
    ensures empty { HasNoEmpty (get nat_cmp sums.old) → HasNoEmpty (get nat_cmp sums.new) }
{
    for footer in footers {
        take_points(sums, &footer.points);
    }
}
