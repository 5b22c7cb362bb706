// What writes a file that a disk in memory has lent.
ghost use Rattle.vl_mem.specs.Written.{IsReady};
ghost use Rattle.std.proofs.Props.{props};
ghost use Rattle.vl_mem.specs.Written.{written_prop};

use crate::written::Written;
use std::alloc::Global;
use vl_disk::{DiskFail, Failed, FaultPlan, Name, NoMemory, Writer};

/// What writes a file that a disk in memory has lent. It tells the file.
#[derive(Drop)]
pub struct MemWriter {
    alloc: Global,
    plan: FaultPlan,
    name: Name,
    written: Written,
    // the same bytes once more, and room for a copy of them, for the disk
    bytes: Vec<u8>,
    copy: Vec<u8>,
    ghost ready: { IsReady name written bytes copy } by { Prim.hlevel (props, written_prop) },
}

/// What a disk takes back.
#[derive(Drop)]
pub struct Returned {
    pub name: Name,
    pub written: Written,
    pub bytes: Vec<u8>,
    pub copy: Vec<u8>,
}

impl MemWriter {
    ghost use Rattle.std.specs.Prelude.{◌≡◌, ◌≤◌, Some, OnErr, OnOk, length};
    ghost use Rattle.vl_disk.specs.DiskState.{IsLawfulFile, lengthened, new_file};
    ghost use Rattle.vl_disk.specs.Lending.{Settles, TakesAll};
    ghost use Rattle.vl_disk.specs.FaultPlan.{new_plan};
    ghost use Rattle.vl_disk.specs.Name.{IsNumbered};
    ghost use Rattle.vl_mem.specs.MemDisk.{file_by, writes_of};
    ghost use Rattle.vl_mem.specs.Written.{HasRoom, IsDoubled, file_written};

    /// A writer of a file that was just made, which is to fail at the calls that are listed.
    pub fn new(alloc: Global, name: Name, failing: Vec<u64>) -> Self
        requires { IsNumbered name }
        ensures name { result.name ≡ name }
        ensures file { file_by result ≡ Some new_file }
        ensures plan { writes_of result ≡ new_plan failing.items }
    {
        MemWriter {
            alloc,
            plan: FaultPlan::new(failing),
            name,
            written: Written::new(alloc),
            bytes: Vec::new(alloc),
            copy: Vec::new(alloc),
        }
    }

    /// What the disk takes back.
    pub fn into_returned(self) -> Returned
        ensures name { result.name ≡ self.name }
        ensures file { file_by self ≡ Some (file_written result.written) }
        ensures ready { IsReady result.name result.written result.bytes result.copy }
    {
        let MemWriter {
            name,
            written,
            bytes,
            copy,
            ..
        } = self;
        Returned {
            name,
            written,
            bytes,
            copy,
        }
    }

    /// Makes room for a piece of so many bytes.
    fn make_room(&mut self, count: usize) -> Result<(), NoMemory>
        ensures room { OnOk result (HasRoom count self.new.written self.new.bytes self.new.copy) }
        ensures file { file_by self.new ≡ file_by self.old }
        ensures plan { writes_of self.new ≡ writes_of self.old }
        ensures name { self.new.name ≡ self.old.name }
    {
        self.written.make_room(count)?;
        if self.bytes.reserve(count).is_err() {
            return Err(NoMemory);
        }
        if self.copy.reserve(self.bytes.capacity()).is_err() {
            return Err(NoMemory);
        }
        Ok(())
    }

    /// A piece was handed over, and the file takes so many bytes of it.
    fn take(&mut self, piece: Vec<u8>, taken: usize)
        requires part { taken ≤ length piece.items }
        requires room { HasRoom (length piece.items) self.old.written self.old.bytes self.old.copy }
        ensures file { file_by self.new ≡ Some (lengthened piece.items taken (file_written self.old.written)) }
        ensures plan { writes_of self.new ≡ writes_of self.old }
        ensures name { self.new.name ≡ self.old.name }
    {
        let _ = self.bytes.extend_from_slice(&piece[..taken]);
        self.written.take(piece, taken);
    }

    /// Puts the whole of a piece behind the end of the file, as no call that is counted.
    pub fn take_all(&mut self, piece: &[u8]) -> Result<(), NoMemory>
        ensures taken { OnOk result (TakesAll piece.now (file_by self.old) (file_by self.new)) }
        ensures refused { OnErr result (file_by self.new ≡ file_by self.old) }
        ensures plan { writes_of self.new ≡ writes_of self.old }
        ensures name { self.new.name ≡ self.old.name }
    {
        let kept = Vec::from_slice(self.alloc, piece)?;
        self.make_room(piece.len())?;
        self.take(kept, piece.len());
        Ok(())
    }

    /// What was handed over is durable, as no call that is counted.
    pub fn settle(&mut self)
        ensures settled { Settles (file_by self.old) (file_by self.new) }
        ensures plan { writes_of self.new ≡ writes_of self.old }
        ensures name { self.new.name ≡ self.old.name }
    {
        self.written.sync();
    }
}

impl Writer for MemWriter {
    ghost use Rattle.std.specs.Prelude.{◌≡◌, OnErr, OnOk, IsErr, IsErrOf};
    ghost use Rattle.vl_disk.specs.FaultPlan.{Follows};
    ghost use Rattle.vl_disk.specs.Faults.{HasCause};
    ghost use Rattle.vl_disk.specs.Lending.{Settles, Takes, TakesAll, TakesPart};
    ghost use Rattle.vl_mem.specs.MemDisk.{file_by, writes_of};
    ghost use Rattle.vl_mem.specs.Steady.{count_of};

    ghost named = { λ writer. writer.name };

    ghost file = { file_by };

    ghost faults = { λ writer. count_of (writes_of writer) };

    #[tactic(auto, using(crate::specs::Steady::count_cause))]
    fn append(&mut self, piece: &[u8]) -> Result<(), DiskFail>
        ensures named { self.new.name ≡ self.old.name }
        ensures appended { OnOk result (TakesAll piece.now (file_by self.old) (file_by self.new)) }
        ensures failed { IsErrOf result DiskFail.Failed → TakesPart piece.now (file_by self.old) (file_by self.new) }
        ensures memory { IsErrOf result DiskFail.NoMemory → file_by self.new ≡ file_by self.old }
        ensures cause { HasCause (count_of (writes_of self.old)) (count_of (writes_of self.new)) (IsErrOf result DiskFail.Failed) }

        // A call that finds no memory isn't counted. One that fails takes nothing, and its piece is unsynced.
        ensures uncounted { IsErrOf result DiskFail.NoMemory → writes_of self.new ≡ writes_of self.old }
        ensures counts { (IsErrOf result DiskFail.NoMemory → ⊥)
            → Follows (writes_of self.old) (writes_of self.new) (IsErrOf result DiskFail.Failed) }
        ensures nothing { IsErrOf result DiskFail.Failed → Takes piece.now 0 (file_by self.old) (file_by self.new) }
    {
        let kept = Vec::from_slice(self.alloc, piece)?;
        self.make_room(piece.len())?;
        if self.plan.fails() {
            self.take(kept, 0);
            return Err(DiskFail::Failed);
        }
        self.take(kept, piece.len());
        Ok(())
    }

    #[tactic(auto, using(crate::specs::Steady::count_cause))]
    fn sync(&mut self) -> Result<(), Failed>
        ensures named { self.new.name ≡ self.old.name }
        ensures synced { OnOk result (Settles (file_by self.old) (file_by self.new)) }
        ensures failed { OnErr result (file_by self.new ≡ file_by self.old) }
        ensures cause { HasCause (count_of (writes_of self.old)) (count_of (writes_of self.new)) (IsErr result) }
        ensures counts { Follows (writes_of self.old) (writes_of self.new) (IsErr result) }
    {
        if self.plan.fails() {
            return Err(Failed);
        }
        self.settle();
        Ok(())
    }
}
