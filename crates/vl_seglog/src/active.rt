ghost use Rattle.std.specs.Prelude.{◌≡◌, ◌+◌, ◌-◌, ◌<◌, ◌^◌, length, min, IfOk, IsErrOf, IsTrue, OnErr, OnOk, Some};
ghost use Rattle.std.specs.Option.{ForSome};
ghost use Rattle.vl_disk.specs.declared.errors.DiskFail.TheVariants as why;
ghost use Rattle.vl_disk.specs.declared.name.Name.TheVariants as names;
ghost use Rattle.vl_disk.specs.Calls.{Appends, ChangesNothing, Syncs};
ghost use Rattle.vl_disk.specs.Disk.{Stands};
ghost use Rattle.vl_disk.specs.DiskState.{file_at};
ghost use Rattle.vl_disk.specs.Spare.{CanAppend, SameSpare, SameSpareElsewhere, UsesHold};
ghost use Rattle.vl_model.specs.Formats.{log_format};
ghost use Rattle.vl_model.specs.declared.log_frame.LogFrame.TheVariants.{Committed, Relocated};
ghost use Rattle.vl_seglog.specs.Bodies.{IsFrame};
ghost use Rattle.vl_seglog.specs.Staging.{IsStaged, IsStagedFor};

use crate::lengths::LOG_HEADER_BYTES;
use crate::sealed::SealedLog;
use crate::staged::{Staged, staged_commit, staged_move};
use std::alloc::Global;
use vl_disk::{Disk, DiskFail, Failed, Name, NoMemory};
use vl_model::{Change, Key, LOG_FORMAT, Moved};

/// The log that frames are appended to, in the format that is written. Its file is made, and opened, by others.
#[derive(Debug, Drop)]
pub struct ActiveLog {
    /// Of its file, which is the segment of its records' pointers too.
    pub number: u32,
    /// In bytes: where the next frame is to stand.
    pub length: u64,
}

impl ActiveLog {
    /// A log of its header alone.
    pub fn new(number: u32) -> Self
        ensures { result ≡ record { number = number; length = 16 } }
    {
        ActiveLog {
            number,
            length: LOG_HEADER_BYTES as u64,
        }
    }

    /// Spells the frame of a commit that is to stand at the log's end, and makes room for it on the disk: all the memory
    /// that appending and syncing it want. Want of memory is the answer too where the commit has more records than can
    /// be counted, its frame is longer than one may be, or the log would have 2^64 bytes.
    pub fn stage_commit<D: Disk>(
        &self,
        alloc: Global,
        disk: &mut D,
        number: u64,
        writes: &[(Key, Change)],
    ) -> Result<Staged, NoMemory>
        requires { IsFrame log_format (Committed number writes.now) }
        ensures staged { IfOk result (IsStaged self.now.number self.now.length (Committed number writes.now)) }
        ensures staged_for { IfOk result (IsStagedFor self.now) }
        ensures room { IfOk result (λ staged.
            CanAppend (length staged.frame.items) (D.spare disk.new (names.Log self.now.number))) }
        ensures hold { OnOk result (IsTrue (D.spare disk.new (names.Log self.now.number)).hold) }
        ensures elsewhere { SameSpareElsewhere (names.Log self.now.number) (D.spare disk.old) (D.spare disk.new) }
        ensures refused { OnErr result (SameSpare (D.spare disk.old) (D.spare disk.new)) }
        ensures no_change { ChangesNothing D.Watched disk.old disk.new ⊥ }
    {
        let staged = staged_commit(alloc, self.number, self.length, number, writes)?;
        disk.ready(Name::Log(self.number), staged.frame.len() as u64)?;
        Ok(staged)
    }

    /// Spells that of a relocation likewise.
    pub fn stage_move<D: Disk>(
        &self,
        alloc: Global,
        disk: &mut D,
        records: &[Moved],
    ) -> Result<Staged, NoMemory>
        requires { IsFrame log_format (Relocated records.now) }
        ensures staged { IfOk result (IsStaged self.now.number self.now.length (Relocated records.now)) }
        ensures staged_for { IfOk result (IsStagedFor self.now) }
        ensures room { IfOk result (λ staged.
            CanAppend (length staged.frame.items) (D.spare disk.new (names.Log self.now.number))) }
        ensures hold { OnOk result (IsTrue (D.spare disk.new (names.Log self.now.number)).hold) }
        ensures elsewhere { SameSpareElsewhere (names.Log self.now.number) (D.spare disk.old) (D.spare disk.new) }
        ensures refused { OnErr result (SameSpare (D.spare disk.old) (D.spare disk.new)) }
        ensures no_change { ChangesNothing D.Watched disk.old disk.new ⊥ }
    {
        let staged = staged_move(alloc, self.number, self.length, records)?;
        disk.ready(Name::Log(self.number), staged.frame.len() as u64)?;
        Ok(staged)
    }

    /// Hands a frame that was staged for this log's end to the disk, which isn't durable before `sync`. If it fails, the
    /// file has taken some first bytes of it, and the log is not to be appended to any more.
    pub fn append<D: Disk>(&mut self, disk: &mut D, staged: &Staged) -> Result<(), Failed>
        requires staged_for { IsStagedFor self.old staged.now }
        requires stands { ForSome (D.told disk.old) (Stands (names.Log self.old.number)) }
        requires room { CanAppend (length staged.now.frame.items) (D.spare disk.old (names.Log self.old.number)) }
        ensures appended { Appends D.Watched (names.Log self.old.number) staged.now.frame.items disk.old disk.new result }
        ensures number { self.new.number ≡ self.old.number }
        ensures longer { OnOk result (self.new.length ≡ min (self.old.length + length staged.now.frame.items) (2 ^ 64 - 1)) }
        ensures kept { OnErr result (self.new.length ≡ self.old.length) }
    {
        disk.append(Name::Log(self.number), &staged.frame)?;
        self.length = self.length.saturating_add(staged.frame.len() as u64);
        Ok(())
    }

    /// Makes all that was appended durable. If it fails, nothing more is durable, and the log is not to be appended to any
    /// more.
    pub fn sync<D: Disk>(&mut self, disk: &mut D) -> Result<(), Failed>
        requires { ForSome (D.told disk.old) (Stands (names.Log self.old.number)) }
        ensures synced { Syncs D.Watched (names.Log self.old.number) disk.old disk.new result }
        ensures kept { self.new ≡ self.old }
    {
        disk.sync(Name::Log(self.number))
    }

    /// The log as one that is appended to no more: its file is held. With the room that `stage_commit` and `stage_move`
    /// make it wants no memory.
    pub fn seal<D: Disk>(self, disk: &mut D) -> Result<SealedLog<D::Held>, DiskFail>
        requires { ForSome (D.told disk.old) (Stands (names.Log self.number)) }
        ensures number { IfOk result (λ log. log.number ≡ self.number) }
        ensures format { IfOk result (λ log. log.format ≡ log_format) }
        ensures held { IfOk result (λ log. ForSome (D.told disk.old)
            (λ state. D.Held.bytes log.held ≡ Some (file_at state (names.Log self.number)).bytes)) }
        ensures named { IfOk result (λ log. D.Held.named log.held ≡ names.Log self.number) }
        ensures no_change { ChangesNothing D.Watched disk.old disk.new (IsErrOf result why.Failed) }
        ensures memory { IsTrue (D.spare disk.old (names.Log self.number)).hold → IsErrOf result why.NoMemory → ⊥ }
        ensures spare { UsesHold (names.Log self.number) (D.spare disk.old) (D.spare disk.new) }
    {
        let held = disk.hold(Name::Log(self.number))?;
        Ok(SealedLog {
            number: self.number,
            format: LOG_FORMAT,
            held,
        })
    }
}
