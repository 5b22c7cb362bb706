//! A switch: one more frame of a manifest, appended and synced.

ghost use Rattle.std.specs.Prelude.{◌≡◌, ◌+◌, ◌-◌, ◌^◌, ◌++◌, ◌∷◌, [], List, length, min, Some, IfOk, OnErr, OnOk};
ghost use Rattle.std.specs.Option.{ForSome};
ghost use Rattle.vl_disk.specs.declared.name.Name.TheVariants as names;
ghost use Rattle.vl_disk.specs.Calls.{ChangesNothing};
ghost use Rattle.vl_disk.specs.Disk.{Stands};
ghost use Rattle.vl_disk.specs.DiskState.{DiskState};
ghost use Rattle.vl_disk.specs.Moments.{HoldsThroughout};
ghost use Rattle.vl_disk.specs.Spare.{CanAppend, SameSpare, SameSpareElsewhere};
ghost use Rattle.vl_manifest.specs.declared.edit.Edit.{Edit};
ghost use Rattle.vl_manifest.specs.Switching.{HasFrames, IsStaged, IsStagedFor, LeavesFrames, Switches};

use crate::edit::Edit;
use crate::manifest_log::ManifestLog;
use crate::staged::StagedEdits;
use crate::writer::write_edits;
use std::alloc::{AllocError, Global};
use vl_disk::{Disk, Failed, Name, NoMemory};

impl ManifestLog {
    /// Spells the frame of edits that is to stand at the manifest's end, and makes room for it on the disk: all the memory
    /// that the switch wants. Want of memory is the answer too where there are more edits than can be counted, the frame
    /// is longer than one may be, or the manifest would have 2^64 bytes.
    pub fn stage<D: Disk>(
        &self,
        alloc: Global,
        disk: &mut D,
        edits: &[Edit],
    ) -> Result<StagedEdits, NoMemory>
        ensures staged { IfOk result (IsStaged self.now.number self.now.length edits.now) }
        ensures staged_for { IfOk result (IsStagedFor self.now) }
        ensures room { IfOk result (λ staged.
            CanAppend (length staged.frame.items) (D.spare disk.new (names.Manifest self.now.number))) }
        ensures elsewhere { SameSpareElsewhere (names.Manifest self.now.number) (D.spare disk.old) (D.spare disk.new) }
        ensures refused { OnErr result (SameSpare (D.spare disk.old) (D.spare disk.new)) }
        ensures no_change { ChangesNothing D.Watched disk.old disk.new ⊥ }
    {
        let staged = staged_edits(alloc, self.number, self.length, edits)?;
        disk.ready(Name::Manifest(self.number), staged.frame.len() as u64)?;
        Ok(staged)
    }

    /// Appends a frame that was staged for this manifest's end, and makes it durable: two changing calls. If one fails, the
    /// file has taken some first bytes of the frame, and the manifest is not to be appended to any more.
    pub fn switch<D: Disk>(&mut self, disk: &mut D, staged: &StagedEdits) -> Result<(), Failed>
        requires staged_for { IsStagedFor self.old staged.now }
        requires stands { ForSome (D.told disk.old) (Stands (names.Manifest self.old.number)) }
        requires room { CanAppend (length staged.now.frame.items) (D.spare disk.old (names.Manifest self.old.number)) }
        ensures switched { Switches D.Watched self.old.number staged.now.frame.items disk.old disk.new result }
        ensures number { self.new.number ≡ self.old.number }
        ensures longer { OnOk result (self.new.length ≡ min (self.old.length + length staged.now.frame.items) (2 ^ 64 - 1)) }
        ensures kept { OnErr result (self.new.length ≡ self.old.length) }

        // Whatever a crash leaves, at each moment, reads as the frames before, or as these and the new one.
        ensures leaves { (frames : List (List Edit)) (edits : List Edit) (state : DiskState) → D.told disk.old ≡ Some state
            → HasFrames self.old frames state → IsStaged self.old.number self.old.length edits staged.now
            → HoldsThroughout D.Watched disk.old disk.new (LeavesFrames self.old.number frames edits) }

        // Afterwards it is these and the new one.
        ensures has { (frames : List (List Edit)) (edits : List Edit) → ForSome (D.told disk.old) (HasFrames self.old frames)
            → IsStaged self.old.number self.old.length edits staged.now
            → OnOk result (ForSome (D.told disk.new) (HasFrames self.new (frames ++ edits ∷ []))) }
    {
        append_and_sync(disk, self.number, &staged.frame)?;
        self.length = self.length.saturating_add(staged.frame.len() as u64);
        Ok(())
    }
}

fn append_and_sync<D: Disk>(disk: &mut D, number: u32, piece: &[u8]) -> Result<(), Failed>
    requires stands { ForSome (D.told disk.old) (Stands (names.Manifest number)) }
    requires room { CanAppend (length piece.now) (D.spare disk.old (names.Manifest number)) }
    ensures { Switches D.Watched number piece.now disk.old disk.new result }
{
    let name = Name::Manifest(number);
    disk.append(name, piece)?;
    disk.sync(name)
}

// The frame of edits that is to stand at a place of the manifest with this number. Where there is none, or it would end
// beyond 2^64 bytes, want of memory is the answer.
fn staged_edits(
    alloc: Global,
    manifest: u32,
    place: u64,
    edits: &[Edit],
) -> Result<StagedEdits, AllocError>
    ensures staged { IfOk result (IsStaged manifest place edits.now) }
    ensures staged_for { IfOk result (λ s. (s.manifest ≡ manifest) × (s.place ≡ place)) }
{
    let mut frame = Vec::new(alloc);
    write_edits(alloc, &mut frame, manifest, place, edits)?;
    if frame.len() as u64 > u64::MAX - place {
        return Err(AllocError);
    }
    Ok(StagedEdits {
        manifest,
        place,
        frame,
    })
}
