ghost use Rattle.std.specs.Prelude.{◌≡◌, IfOk, IsErrOf};
ghost use Rattle.std.specs.Option.{ForSome};
ghost use Rattle.vl_disk.specs.DiskState.{file_at};
ghost use Rattle.vl_disk.specs.Disk.{Stands};
ghost use Rattle.vl_disk.specs.Calls.{ChangesNothing};
ghost use Rattle.vl_disk.specs.Spare.{SameSpare};

use crate::{Disk, DiskFail, Name};
use std::alloc::Global;

/// Reads a whole file, by one read.
pub fn read_file<D: Disk>(alloc: Global, disk: &mut D, name: Name) -> Result<Vec<u8>, DiskFail>
    requires { ForSome (D.told disk.old) (Stands name) }
    ensures bytes { IfOk result (λ bytes. ForSome (D.told disk.old)
        (λ state. bytes.items ≡ (file_at state name).bytes)) }
    ensures no_change { ChangesNothing D.Watched disk.old disk.new (IsErrOf result DiskFail.Failed) }
    ensures spare { SameSpare (D.spare disk.old) (D.spare disk.new) }
{
    let size = disk.size(name)?;
    let mut bytes = Vec::new(alloc);
    bytes.resize(size as usize, 0)?;
    disk.read(name, 0, &mut bytes)?;
    Ok(bytes)
}
