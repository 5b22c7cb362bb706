//! How a retired file goes.
ghost use Rattle.std.specs.Prelude.{ℕ, IsErr};
ghost use Rattle.vl_disk.specs.Faults.{HasCause};
ghost use Rattle.vl_space.specs.Removing.{IsWaiting};
ghost use Rattle.vl_space.specs.Sweeping.{RemovesFor};

use vl_compact::Lent;
use vl_disk::{Disk, Name};
use vl_pins::RetiredFile;

/// Removes a retired file, by one changing call. One that was lent is taken back first. If it fails, the answer has its name.
pub fn remove_file<D: Disk>(disk: &mut D, file: RetiredFile<Lent<D::Writer>>) -> Result<(), Name>
    requires { (next_table : ℕ) × IsWaiting D.Watched D.Writer.Writer disk.old next_table file }
    ensures removes { RemovesFor D.Watched D.Writer.Writer file disk.old disk.new result }
    ensures cause { HasCause (D.faults disk.old) (D.faults disk.new) (IsErr result) }
{
    let RetiredFile { name, lent, .. } = file;
    if let Some(lent) = lent {
        disk.adopt(lent.writer);
    }
    match disk.remove(name) {
        Ok(()) => Ok(()),
        Err(_) => Err(name),
    }
}
