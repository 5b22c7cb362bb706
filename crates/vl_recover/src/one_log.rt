// One log, as it stands.
ghost use Rattle.std.specs.Prelude.{◌≡◌, min, Some, IfErr, IfOk};
ghost use Rattle.std.specs.Option.{ForSome};
ghost use Rattle.vl_disk.specs.Calls.{ChangesNothing};
ghost use Rattle.vl_disk.specs.Crash.{Image};
ghost use Rattle.vl_disk.specs.Disk.{Stands};
ghost use Rattle.vl_disk.specs.DiskState.{DiskState};
ghost use Rattle.vl_disk.specs.Started.{IsRead};
ghost use Rattle.vl_disk.specs.declared.name.Name.TheVariants as kinds;
ghost use Rattle.vl_recover.specs.opening.Finding.{IsExcused, IsFault, IsFaultOf};
ghost use Rattle.vl_recover.specs.opening.LogsSoFar.{FindsLog};

use crate::OpenError;
use crate::content::{no_content, read_content};
use crate::found::LogFound;
use crate::read::{read_part, size_of};
use std::alloc::Global;
use vl_disk::{Disk, Name};
use vl_seglog::{LOG_HEADER_BYTES, header_format};

/// Reads the log of this number. The commit before it has the number `before`. Only behind a right header more is read.
pub fn read_log<D: Disk>(
    alloc: Global,
    disk: &mut D,
    number: u32,
    before: u64,
) -> Result<LogFound, OpenError>
    requires { ForSome (D.told disk.old) (Stands (kinds.Log number)) }
    ensures reads { (state : DiskState) (read : Image) → D.told disk.old ≡ Some state → IsRead read state
        → IfOk result (FindsLog read number before) }
    ensures number { IfOk result (λ log. log.number ≡ number) }
    ensures excused { IfErr result IsExcused }
    ensures at { IfErr result (IsFaultOf (λ at. at ≡ kinds.Log number)) }
    ensures no_change { ChangesNothing D.Watched disk.old disk.new (IsFault result) }
{
    let name = Name::Log(number);
    let length = size_of(disk, name)?;
    let front = read_part(alloc, disk, name, 0, front_length(length))?;
    let Some(format) = header_format(&front, number) else {
        return Ok(LogFound {
            number,
            length,
            format: None,
            content: no_content(alloc, 0, before),
        });
    };
    let behind = LOG_HEADER_BYTES as u64;
    let bytes = read_part(alloc, disk, name, behind, length - behind)?;
    Ok(LogFound {
        number,
        length,
        format: Some(format),
        content: read_content(alloc, format, &bytes, number, before)?,
    })
}

/// How many bytes of a file of this length may be a header.
pub fn front_length(length: u64) -> u64
    ensures { result ≡ min length 16 }
{
    length.min(LOG_HEADER_BYTES as u64)
}
