// That a file may be written beside the disk's other calls: a function that does so.
ghost use Rattle.std.specs.Prelude.{◌≡◌, ◌≢◌, ◌++◌, length, IsTrue, Some, OnOk};
ghost use Rattle.std.specs.Option.{ForSome};
ghost use Rattle.vl_disk.specs.Name.{IsNumbered};
ghost use Rattle.vl_disk.specs.Disk.{IsFree};
ghost use Rattle.vl_disk.specs.DiskState.{DiskState};
ghost use Rattle.vl_disk.specs.Beside.{HasBoth};
ghost use Rattle.vl_disk.specs.Spare.{IsReady};

use crate::{Disk, DiskFail, Name, Writer, make_file};

/// Makes a file of two pieces by a writer, and meanwhile another file on the disk itself.
pub fn make_beside<D: Disk>(
    disk: &mut D,
    name: Name,
    first: &[u8],
    second: &[u8],
    other: Name,
    bytes: &[u8],
) -> Result<(), DiskFail>
    requires numbered { IsNumbered name }
    requires free { ForSome (D.told disk.old) (IsFree name) }
    requires room { IsTrue (D.spare disk.old name).change }
    requires lend { IsTrue (D.spare disk.old name).lend }
    requires apart { other ≢ name }
    requires other_numbered { IsNumbered other }
    requires other_free { ForSome (D.told disk.old) (IsFree other) }
    requires other_room { IsReady (length bytes.now) (D.spare disk.old other) }
    ensures { OnOk result ((state : DiskState) → D.told disk.old ≡ Some state
        → ForSome (D.told disk.new) (HasBoth name (first.now ++ second.now) other bytes.now)) }
{
    disk.create(name)?;
    let mut writer = disk.lend(name)?;
    writer.append(first)?;
    make_file(disk, other, bytes)?;
    writer.append(second)?;
    writer.sync()?;
    disk.adopt(writer);
    Ok(())
}
