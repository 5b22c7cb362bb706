//! Reads of the past.

ghost use Rattle.std.specs.Prelude.{◌≡◌, min, IfErr};
ghost use Rattle.vl_reads.specs.Past.{IsWithin, LooksBack, LooksForLeast, NamesAt, ReadsPast, if_above};
ghost use Rattle.vl_model.specs.Numbers.{at_least, low_of};
ghost use Rattle.vl_model.specs.Versions.{versions_in};
ghost use Rattle.vl_table.specs.Kept.{Files};
ghost use Rattle.vl_table.specs.KeptBlocks.{ReadsOf};
ghost use Rattle.vl_version.specs.LiesOver.{LiesOver};
ghost use Rattle.vl_version.specs.Naming.{IsAskedFault};
ghost use Rattle.vl_version.specs.Past.{SeeksVersion};
ghost use Rattle.vl_version.specs.Sources.{tables_in};

use crate::AtFail;
use crate::past::Past;
use std::alloc::Global;
use vl_disk::{HeldFile, ReadFault, Reader};
use vl_model::Value;
use vl_table::BlockReader;
use vl_txn::check_key;
use vl_version::Version;

/// The value that a key had at a number, for what reads this version at another one.
pub fn read_past<H: HeldFile, R: Reader<Held = H> + Drop>(
    alloc: Global,
    version: &Version<H>,
    reader: &mut BlockReader<R>,
    past: Past,
    number: u64,
    key: &[u8],
    at: u64,
) -> Result<Option<Value>, AtFail>
    ensures reads { ReadsPast H.bytes R.faults version.now past number key.now at reader.old reader.new result }
    ensures looks { (files : Files) → LiesOver H.bytes files version.now reader.old → IsWithin number key.now at
        → LooksBack H.bytes version.now past key.now at result }
    ensures fault { (files : Files) → ReadsOf H.bytes files reader.old (tables_in version.now)
        → NamesAt H.bytes version.now key.now result }
{
    check_key(key)?;
    if at > number {
        return Err(AtFail::Ahead { number });
    }
    match low_above(version, reader, past, key, at)? {
        Some(low) => Err(AtFail::Dropped { low }),
        None => Ok(version.get(alloc, reader, key, at)?),
    }
}

// The least number at which a key can be read, where that is above this one.
fn low_above<H: HeldFile, R: Reader<Held = H>>(
    version: &Version<H>,
    reader: &mut BlockReader<R>,
    past: Past,
    key: &[u8],
    at: u64,
) -> Result<Option<u64>, ReadFault>
    ensures seeks { SeeksVersion H.bytes R.faults version.now
        (λ es. if_above at (low_of (versions_in es key.now) past.floor past.keep past.since)) reader.old reader.new result }
    ensures looks { (files : Files) → LiesOver H.bytes files version.now reader.old
        → LooksForLeast H.bytes version.now past key.now at result }
    ensures fault { (files : Files) → ReadsOf H.bytes files reader.old (tables_in version.now)
        → IfErr result (IsAskedFault H.bytes (tables_in version.now) key.now) }
{
    // No key is dropped from the floor on.
    if at >= past.floor {
        return Ok(None);
    }
    if past.keep <= 1 {
        return Ok(Some(past.floor));
    }
    let oldest = version.nth_version(reader, key, past.floor, past.keep)?;
    Ok(least_above(past, oldest, at))
}

// The same, by the oldest of as many newest versions as are kept.
fn least_above(past: Past, oldest: Option<u64>, at: u64) -> Option<u64>
    ensures { result ≡ if_above at (min past.floor (at_least past.since oldest)) }
{
    let least = past.floor.min(newer_of(past.since, oldest));
    if at < least { Some(least) } else { None }
}

fn newer_of(since: u64, oldest: Option<u64>) -> u64
    ensures { result ≡ at_least since oldest }
{
    match oldest {
        None => since,
        Some(version) => since.max(version),
    }
}
