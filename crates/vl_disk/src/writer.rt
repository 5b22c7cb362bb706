ghost use Rattle.std.specs.Prelude.{◌≡◌, ℕ, OnErr, OnOk, IsErr, IsErrOf, Option};
ghost use Rattle.vl_disk.specs.declared.name.Name.{Name};
ghost use Rattle.vl_disk.specs.DiskState.{File};
ghost use Rattle.vl_disk.specs.Faults.{HasCause};
ghost use Rattle.vl_disk.specs.Lending.{TakesAll, TakesPart, Settles};

use crate::{DiskFail, Failed};

/// What writes one file that a disk has lent, beside the disk's calls. It may go to another thread.
pub trait Writer {
    /// The name of its file.
    ghost named: { Self → Name };

    /// Its file. One that doesn't tell it claims nothing of its bytes.
    ghost file: { Self → Option File };

    /// How often it has failed. The count never falls. It is `never` of one of which no call fails, now or later, but for
    /// want of memory.
    ghost faults: { Self → ℕ };

    /// Puts a piece behind the end of the file. If it fails, the file has taken some first bytes of the piece; for want
    /// of memory it is as it was.
    fn append(&mut self, piece: &[u8]) -> Result<(), DiskFail>
        ensures named { named self.new ≡ named self.old }
        ensures appended { OnOk result (TakesAll piece.now (file self.old) (file self.new)) }
        ensures failed { IsErrOf result DiskFail.Failed → TakesPart piece.now (file self.old) (file self.new) }
        ensures memory { IsErrOf result DiskFail.NoMemory → file self.new ≡ file self.old }
        ensures cause { HasCause (faults self.old) (faults self.new) (IsErrOf result DiskFail.Failed) };

    /// Makes the file durable. If it fails, nothing more is durable.
    fn sync(&mut self) -> Result<(), Failed>
        ensures named { named self.new ≡ named self.old }
        ensures synced { OnOk result (Settles (file self.old) (file self.new)) }
        ensures failed { OnErr result (file self.new ≡ file self.old) }
        ensures cause { HasCause (faults self.old) (faults self.new) (IsErr result) };
}
