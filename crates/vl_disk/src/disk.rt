ghost use Rattle.std.specs.Prelude.{◌≡◌, ℕ, ◌+◌, ◌≤◌, length, Option, None, Some, IsTrue, All, IfOk, OnOk, OnErr, IsErr, IsErrOf};
ghost use Rattle.std.specs.Option.{ForSome};
ghost use Rattle.vl_disk.specs.declared.name.Name.{Name};
ghost use Rattle.vl_disk.specs.Name.{IsNumbered};
ghost use Rattle.vl_disk.specs.DiskState.{DiskState, IsLawful, bytes_at, file_at, new_file};
ghost use Rattle.vl_disk.specs.Faults.{CountsPast, IsNewCount};
ghost use Rattle.vl_disk.specs.Disk.{Stands, IsFree, IsInside, Lists};
ghost use Rattle.vl_disk.specs.Spare.{IsReady, CanAppend, SameSpare, SameSpareElsewhere, UsesHold};
ghost use Rattle.vl_disk.specs.Calls.{ChangesNothing, Creates, Appends, Syncs, Cuts, Removes};
ghost use Rattle.vl_disk.specs.Lending.{IsJustMade, Lends, Adopts};

use crate::{DiskFail, Failed, HeldFile, Name, NoMemory, Reader, Watched, Writer};
use std::alloc::Global;

/// A disk of named files, which a sync makes durable.
pub trait Disk: Watched {
    type Held: HeldFile;

    type Reader: Reader<Held = Self::Held> + Drop;

    type Writer: Writer + Drop;

    /// The names of the files that stand.
    fn list(&mut self, alloc: Global) -> Result<Vec<Name>, DiskFail>
        ensures names { IfOk result (λ names. ForSome (Self.told self.old) (Lists names.items)) }
        ensures numbered { IfOk result (λ names. All IsNumbered names.items) }
        ensures no_change { ChangesNothing Self.Watched self.old self.new (IsErrOf result DiskFail.Failed) }
        ensures spare { SameSpare (Self.spare self.old) (Self.spare self.new) };

    /// The length of a file in bytes.
    fn size(&mut self, name: Name) -> Result<u64, Failed>
        requires { ForSome (Self.told self.old) (Stands name) }
        ensures size { IfOk result (λ size. ForSome (Self.told self.old)
            (λ disk. size ≡ length (file_at disk name).bytes)) }
        ensures no_change { ChangesNothing Self.Watched self.old self.new (IsErr result) }
        ensures spare { SameSpare (Self.spare self.old) (Self.spare self.new) };

    /// Reads the bytes of a file from a place on, as many as fill `out`. If it fails, `out` may hold anything.
    fn read(&mut self, name: Name, place: u64, out: &mut [u8]) -> Result<(), Failed>
        requires stands { ForSome (Self.told self.old) (Stands name) }
        requires inside { ForSome (Self.told self.old) (IsInside name (place + length out.old)) }
        ensures bytes { OnOk result (ForSome (Self.told self.old)
            (λ disk. out.new ≡ bytes_at place (length out.old) (file_at disk name).bytes)) }
        ensures no_change { ChangesNothing Self.Watched self.old self.new (IsErr result) }
        ensures spare { SameSpare (Self.spare self.old) (Self.spare self.new) };

    /// Makes room. Afterwards `create` or one `cut` of this name, one append to it of at most so many bytes, the syncs
    /// after them, one `hold` of it, and one `lend` with the `adopt` after it want no memory. A `sync` and a `remove`
    /// never want any.
    fn ready(&mut self, name: Name, bytes: u64) -> Result<(), NoMemory>
        ensures ready { OnOk result (IsReady bytes (Self.spare self.new name)) }
        ensures hold { OnOk result (IsTrue (Self.spare self.new name).hold) }
        ensures lend { OnOk result (IsTrue (Self.spare self.new name).lend) }
        ensures elsewhere { SameSpareElsewhere name (Self.spare self.old) (Self.spare self.new) }
        ensures refused { OnErr result (SameSpare (Self.spare self.old) (Self.spare self.new)) }
        ensures no_change { ChangesNothing Self.Watched self.old self.new ⊥ };

    /// Makes an empty file. If it fails, the file may stand or not.
    fn create(&mut self, name: Name) -> Result<(), Failed>
        requires numbered { IsNumbered name }
        requires free { ForSome (Self.told self.old) (IsFree name) }
        requires room { IsTrue (Self.spare self.old name).change }
        ensures { Creates Self.Watched name self.old self.new result };

    /// Puts a piece behind the end of a file. If it fails, the file has taken some first bytes of the piece.
    fn append(&mut self, name: Name, piece: &[u8]) -> Result<(), Failed>
        requires stands { ForSome (Self.told self.old) (Stands name) }
        requires room { CanAppend (length piece.now) (Self.spare self.old name) }
        ensures { Appends Self.Watched name piece.now self.old self.new result };

    /// Makes a file durable. After it a crash leaves what a read gives. If it fails, nothing more is durable.
    fn sync(&mut self, name: Name) -> Result<(), Failed>
        requires { ForSome (Self.told self.old) (Stands name) }
        ensures { Syncs Self.Watched name self.old self.new result };

    /// Cuts a file to a length. What was to be cut off may come back until the next sync that answers Ok. If it fails,
    /// the file has that length, its old one or one between, and no more than was to stay is durable.
    fn cut(&mut self, name: Name, len: u64) -> Result<(), Failed>
        requires stands { ForSome (Self.told self.old) (Stands name) }
        requires inside { ForSome (Self.told self.old) (IsInside name len) }
        requires room { IsTrue (Self.spare self.old name).change }
        ensures { Cuts Self.Watched name len self.old self.new result };

    /// Removes a file. It may stand again after a crash. If it fails, the file may stand or not.
    fn remove(&mut self, name: Name) -> Result<(), Failed>
        requires { ForSome (Self.told self.old) (Stands name) }
        ensures { Removes Self.Watched name self.old self.new result };

    /// Shares a file as it is. What it gives keeps these bytes, whatever becomes of the file.
    fn hold(&mut self, name: Name) -> Result<Self::Held, DiskFail>
        requires { ForSome (Self.told self.old) (Stands name) }
        ensures held { IfOk result (λ held. ForSome (Self.told self.old)
            (λ disk. Self.Held.bytes held ≡ Some (file_at disk name).bytes)) }
        ensures named { IfOk result (λ held. Self.Held.named held ≡ name) }
        ensures no_change { ChangesNothing Self.Watched self.old self.new (IsErrOf result DiskFail.Failed) }
        ensures memory { IsTrue (Self.spare self.old name).hold → IsErrOf result DiskFail.NoMemory → ⊥ }
        ensures spare { UsesHold name (Self.spare self.old) (Self.spare self.new) };

    /// Lends a file that was just made to a writer. Until it is adopted it counts as one that was removed before its first
    /// sync: after a crash it may stand, with any bytes, or not. If it fails, the file stands as before.
    fn lend(&mut self, name: Name) -> Result<Self::Writer, Failed>
        requires just_made { ForSome (Self.told self.old) (IsJustMade name) }
        requires room { IsTrue (Self.spare self.old name).lend }
        ensures lends { Lends Self.Watched name self.old self.new (IsErr result) }
        ensures named { IfOk result (λ writer. Self.Writer.named writer ≡ name) }
        ensures file { IfOk result (λ writer. ForSome (Self.told self.old)
            (λ _. Self.Writer.file writer ≡ Some new_file)) }
        ensures faults { IfOk result (λ writer. IsNewCount (Self.gives_steady self.old) (Self.Writer.faults writer)) };

    /// Takes a file back that was lent, as its writer has it. It wants no memory and can't fail.
    fn adopt(&mut self, writer: Self::Writer)
        requires free { ForSome (Self.told self.old) (IsFree (Self.Writer.named writer)) }
        requires room { IsTrue (Self.spare self.old (Self.Writer.named writer)).adopt }
        ensures { Adopts Self.Watched (Self.Writer.named writer) (Self.Writer.file writer) self.old self.new };

    /// A reader of the files that are held.
    fn reader(&self, alloc: Global) -> Result<Self::Reader, NoMemory>
        ensures faults { IfOk result (λ reader. IsNewCount (Self.gives_steady self.now) (Self.Reader.faults reader)) };

    /// What it tells is lawful.
    ghost lawful: { (disk : Self) (state : DiskState) → Self.told disk ≡ Some state → IsLawful state };

    /// This moment is one of those since an earlier one.
    ghost counts_now: { (disk : Self) (state : DiskState) (t : ℕ)
        → Self.told disk ≡ Some state → t ≤ Self.moment disk → Self.states_since disk t state };

    /// Since this moment it was only what it is.
    ghost only_now: { (disk : Self) (state other : DiskState)
        → Self.told disk ≡ Some state → Self.states_since disk (Self.moment disk) other → other ≡ state };

    /// It has counted a fault for each call that was to fail, and no other.
    ghost counts_past: { (disk : Self) (stop : Option ℕ)
        → Self.fails_past disk stop → CountsPast stop (Self.calls disk) (Self.faults disk) };

    /// All of one type tell what they hold, or none does.
    ghost alike: { (one other : Self) → Self.told one ≡ None → Self.told other ≡ None };
}
