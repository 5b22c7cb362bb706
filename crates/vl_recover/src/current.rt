// The current manifest, or what stands in its place.
ghost use Rattle.std.specs.Prelude.{◌≡◌, All, Some, length, IfErr, IfOk};
ghost use Rattle.std.specs.Option.{ForSome};
ghost use Rattle.vl_disk.specs.Calls.{ChangesNothing};
ghost use Rattle.vl_disk.specs.Crash.{Image};
ghost use Rattle.vl_disk.specs.Disk.{Lists};
ghost use Rattle.vl_disk.specs.DiskState.{DiskState};
ghost use Rattle.vl_disk.specs.Name.{IsNumbered};
ghost use Rattle.vl_disk.specs.Started.{IsRead};
ghost use Rattle.vl_recover.specs.opening.Finding.{IsFault, IsFaultOf, IsReadManifest, greatest_of};
ghost use Rattle.vl_recover.specs.opening.Leading.{AnswersStage, IsNewestWith, heading_without};
ghost use Rattle.vl_recover.specs.opening.Named.{AreGreatestIn, AreRising};
ghost use Rattle.vl_recover.specs.opening.Opening.{Current, Led, Says};

use crate::OpenError;
use crate::found::GreatestNumbers;
use crate::names::manifest_below;
use crate::read::read_whole;
use std::alloc::Global;
use vl_disk::{Disk, Name};
use vl_manifest::{ManifestLog, ManifestState, StateFail, newer_format};

/// What the current manifest says: of those that can be read the one with the greatest number. Down to that one each is
/// read, once. The names are in order.
pub fn current_state<D: Disk>(
    alloc: Global,
    disk: &mut D,
    names: &[Name],
    greatest: GreatestNumbers,
) -> Result<ManifestState, OpenError>
    requires lists { ForSome (D.told disk.old) (Lists names.now) }
    requires numbered { All IsNumbered names.now }
    requires rising { AreRising names.now }
    requires greatest { AreGreatestIn names.now (greatest_of greatest) }
    ensures says { (state : DiskState) (read : Image) → D.told disk.old ≡ Some state → IsRead read state
        → AnswersStage (Current read) result }
    ensures seven { IfOk result (λ said. length said.levels ≡ 7) }
    ensures at { IfErr result (IsFaultOf (IsReadManifest (D.told disk.old))) }
    ensures no_change { ChangesNothing D.Watched disk.old disk.new (IsFault result) }
{
    let mut above = u32::MAX;
    let mut newest = None;
    for i in 0..names.len() {
        let name = names[names.len() - 1 - i];
        let Some(number) = manifest_below(name, above) else {
            continue;
        };
        let bytes = read_whole(alloc, disk, Name::Manifest(number))?;
        if ManifestLog::is_readable(alloc, &bytes, number)? {
            return read_state(alloc, &bytes, number);
        }
        newest = newest_with(newest, &bytes, number);
        above = number;
    }
    without_current(alloc, greatest, newest)
}

// What the manifest with this number and these bytes says, which is the current one.
fn read_state(alloc: Global, bytes: &[u8], number: u32) -> Result<ManifestState, OpenError>
    ensures says { AnswersStage (Says (Led number bytes.now)) result }
    ensures seven { IfOk result (λ said. length said.levels ≡ 7) }
    ensures no_fault { IsFault result → ⊥ }
{
    match ManifestLog::read(alloc, bytes, number) {
        Ok(state) => Ok(state),
        Err(StateFail::NoMemory) => Err(OpenError::NoMemory),
        Err(StateFail::Damaged { place }) => Err(OpenError::Damaged {
            name: Name::Manifest(number),
            place,
        }),
    }
}

// The newest format, if there is one, with one manifest more below the others.
fn newest_with(newest: Option<u32>, bytes: &[u8], number: u32) -> Option<u32>
    ensures { IsNewestWith newest number bytes.now result }
{
    match newest {
        Some(_) => newest,
        None => newer_format(bytes, number),
    }
}

// Where no manifest is current, a disk without logs and tables is a store that has nothing yet.
fn without_current(
    alloc: Global,
    greatest: GreatestNumbers,
    newest: Option<u32>,
) -> Result<ManifestState, OpenError>
    ensures says { AnswersStage (Says (heading_without (greatest_of greatest) newest)) result }
    ensures seven { IfOk result (λ said. length said.levels ≡ 7) }
    ensures no_fault { IsFault result → ⊥ }
{
    if greatest.log == 0 && greatest.table == 0 {
        return Ok(ManifestState::fresh(alloc));
    }
    match newest {
        Some(format) => Err(OpenError::NewerFormat(format)),
        None => Err(OpenError::NotAStore),
    }
}
