// Laws of what a crash may leave: each is the contract of a function that does nothing.
ghost use Rattle.std.specs.Prelude.{◌≡◌, ℕ, ◌≤◌, ◌++◌, List, take, Option, Some, IsTrue};
ghost use Rattle.std.specs.FinMap.{get, insert, remove};
ghost use Rattle.vl_disk.specs.declared.name.Name.{Name};
ghost use Rattle.vl_disk.specs.DiskState.{File, DiskState, IsLawful, created, appended, settled, synced, cut_to, without};
ghost use Rattle.vl_disk.specs.Crash.{Image, MayLeave, MayLeaveOne};
ghost use Rattle.vl_disk.specs.Lending.{IsJustMade, adopted};
ghost use Rattle.vl_disk.specs.Started.{IsRead};

/// A crash may leave what reads give.
pub fn what_was_read_may_be_left()
    ensures { (image : Image) (disk : DiskState) → IsRead image disk → MayLeave disk image }
{}

/// A file that was created and never synced may be missing, and one to which a piece was handed may have any bytes past
/// its synced length, of any length.
pub fn what_is_unsynced_may_be_torn()
    ensures missing { (name : Name) (disk : DiskState) (image : Image) → MayLeave (created name disk) image
        → MayLeave (created name disk) (remove image name) }
    ensures torn { (name : Name) (disk : DiskState) (image : Image) (file : File) (piece tail : List ℕ) (taken : ℕ)
        → IsLawful disk → get disk.standing name ≡ Some file → MayLeave (appended name piece taken disk) image
        → MayLeave (appended name piece taken disk) (insert image name (take file.synced file.bytes ++ tail)) }
{}

/// What was cut off may come back.
pub fn what_was_cut_may_come_back()
    ensures { (name : Name) (disk : DiskState) (image : Image) (file : File) (len left : ℕ) → len ≤ left
        → get disk.standing name ≡ Some file → MayLeave (cut_to name len left disk) image
        → MayLeave (cut_to name len left disk) (insert image name file.bytes) }
{}

/// A removed file may stand again, with its last bytes, or stay away.
pub fn what_was_removed_may_stand()
    ensures again { (name : Name) (disk : DiskState) (image : Image) (file : File) → get disk.standing name ≡ Some file
        → MayLeave (without name disk) image → MayLeave (without name disk) (insert image name file.bytes) }
    ensures away { (name : Name) (disk : DiskState) (image : Image) → MayLeave (without name disk) image
        → MayLeave (without name disk) (remove image name) }
{}

/// A synced file stays exactly as a read gives it, and a sync of one that is wholly synced changes nothing.
pub fn what_is_synced_stays()
    ensures left { (name : Name) (disk : DiskState) (image : Image) (file : File) → get disk.standing name ≡ Some file
        → MayLeave (synced name disk) image → get image name ≡ Some file.bytes }
    ensures again { (name : Name) (disk : DiskState) (file : File) → IsLawful disk → get disk.standing name ≡ Some file
        → IsTrue file.wholly_synced → synced name disk ≡ disk }
{}

/// A file that is lent may be missing after a crash, or stand with any bytes.
pub fn what_is_lent_may_be_anything()
    ensures { (name : Name) (disk : DiskState) (left : Option (List ℕ)) → IsJustMade name disk
        → MayLeaveOne (get (without name disk).standing name) (get (without name disk).removed name) left }
{}

/// A file that its writer synced stays once it is adopted, exactly as it was written.
pub fn what_was_adopted_stays()
    ensures { (name : Name) (disk : DiskState) (image : Image) (bytes : List ℕ)
        → MayLeave (adopted name (settled bytes) disk) image → get image name ≡ Some bytes }
{}
