//! Whether a record of a log still counts.

ghost use Rattle.std.specs.Prelude.{◌≡◌, List, IfErr, IfOk, OnOk};
ghost use Rattle.vl_collect.specs.Faults.{IsTheirs, MayWhere};
ghost use Rattle.vl_collect.specs.Passing.{HasEntries};
ghost use Rattle.vl_model.specs.Winners.{is_far_to, leads_to, wins_exactly};
ghost use Rattle.vl_model.specs.declared.entry.Entry.{Entry};

use vl_disk::ReadFault;
use vl_merge::Sources;
use vl_model::Body;

/// Whether a record wins exactly from inside a segment: the first source that has its key and version points to its place.
pub fn wins_exactly<V: Sources<Fault = ReadFault>>(
    sources: &V,
    looks: &mut V::Reader,
    segment: u32,
    key: &[u8],
    version: u64,
    place: u64,
) -> Result<bool, ReadFault>
    ensures wins { (entries : List Entry) → V.fits sources.now looks.old → HasEntries V.has sources.now entries
        → IfOk result (λ wins. wins ≡ wins_exactly entries segment key.now version place) }
    ensures fits { V.fits sources.now looks.old → V.fits sources.now looks.new }
    ensures steady { OnOk result (V.faults looks.new ≡ V.faults looks.old) }
    ensures cause { IfErr result (IsTheirs (λ f. V.is_read_fault f)
        (MayWhere (V.fits sources.now looks.old) (V.may_fail sources.now)) (V.faults looks.old) (V.faults looks.new)) }
{
    match sources.exact(looks, key, version)? {
        None => Ok(false),
        Some(entry) => Ok(is_far_to(segment, place, &entry.body)),
    }
}

fn is_far_to(segment: u32, place: u64, body: &Body) -> bool
    ensures { result ≡ is_far_to segment place body.now }
{
    match body {
        Body::Far(pointer) => pointer.segment == segment && pointer.place == place,
        Body::Inline(_) | Body::Gone | Body::Logged(_, _) => false,
    }
}
