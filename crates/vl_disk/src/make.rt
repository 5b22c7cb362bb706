ghost use Rattle.std.specs.Prelude.{length};
ghost use Rattle.std.specs.Option.{ForSome};
ghost use Rattle.vl_disk.specs.Name.{IsNumbered};
ghost use Rattle.vl_disk.specs.Disk.{IsFree};
ghost use Rattle.vl_disk.specs.Spare.{IsReady};
ghost use Rattle.vl_disk.specs.MadeFile.{Makes};

use crate::{Disk, Failed, Name};

/// Makes a file of these bytes and makes it durable: a create, an append and a sync. If it fails, the file may be
/// missing, be empty, or have taken some first bytes. Room that was made for a hold stays.
pub fn make_file<D: Disk>(disk: &mut D, name: Name, bytes: &[u8]) -> Result<(), Failed>
    requires numbered { IsNumbered name }
    requires free { ForSome (D.told disk.old) (IsFree name) }
    requires room { IsReady (length bytes.now) (D.spare disk.old name) }
    ensures { Makes D.Watched name bytes.now disk.old disk.new result }
{
    disk.create(name)?;
    disk.append(name, bytes)?;
    disk.sync(name)
}
