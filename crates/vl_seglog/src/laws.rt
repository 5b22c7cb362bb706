// Laws of the definitions: each is the contract of a function that does nothing.
ghost use Rattle.std.specs.Prelude.{◌≡◌, ◌++◌, ℕ, List, drop, Some};
ghost use Rattle.std.specs.List.{AllByRecursion};
ghost use Rattle.vl_model.specs.Formats.{log_format};
ghost use Rattle.vl_model.specs.Keys.{Stored};
ghost use Rattle.vl_model.specs.declared.change.Change.TheVariants.{Set};
ghost use Rattle.vl_model.specs.declared.log_frame.LogFrame.{LogFrame};
ghost use Rattle.vl_model.specs.declared.pointer.Pointer.{Pointer};
ghost use Rattle.vl_seglog.specs.LogReading.{LogReading, ReadsLog};
ghost use Rattle.vl_seglog.specs.Placed.{AreFramesFrom, IsFrameAt, read_pointers};
ghost use Rattle.vl_seglog.specs.Reading.{frame_of, reading_of};
ghost use Rattle.vl_seglog.specs.Sealed.{IsFound};
ghost use Rattle.vl_seglog.specs.Staging.{IsStaged};
ghost use Rattle.vl_seglog.specs.Stored.{AllLead, LeadToAll, LeadsTo, frame_writes, stored_at};
ghost use Rattle.vl_seglog.specs.declared.frame.Frame.{Frame};
ghost use Rattle.vl_seglog.specs.declared.read.LogRead.{LogRead};
ghost use Rattle.vl_seglog.specs.declared.staged.Staged.{Staged};

/// The pointers of a frame lead to its records where it stands in its log: those that it was staged with, those of all
/// frames that a log's bytes hold, and those that a whole log or one frame of it was read with.
pub fn pointers_lead_to_their_records()
    ensures staged { (number place : ℕ) (f : LogFrame) (staged : Staged) (bytes rest : List ℕ)
        → IsStaged number place f staged → drop place bytes ≡ staged.frame.items ++ rest
        → LeadToAll log_format number bytes staged.pointers.items (frame_writes f) }
    ensures held { (format number : ℕ) (bytes : List ℕ) (reading : LogReading)
        → ReadsLog number bytes reading → reading.header ≡ Some format
        → AllLead format number bytes 16 reading.frames }
    ensures read { (format number : ℕ) (bytes : List ℕ) (read : LogRead)
        → ReadsLog number bytes (reading_of read) → read.header ≡ Some format
        → AreFramesFrom format number 16 read.frames.items
        → AllByRecursion (λ (f : Frame). LeadToAll format number bytes (read_pointers f) (frame_writes (frame_of f)))
        read.frames.items }
    ensures scanned { (format number place : ℕ) (bytes : List ℕ) (f : Frame)
        → IsFound format number place bytes (Some f) → IsFrameAt format number place f
        → LeadToAll format number bytes (read_pointers f) (frame_writes (frame_of f)) }
{}

/// By a pointer a value is found in the bytes of its log exactly where it leads to that value's record.
pub fn values_are_found_by_their_pointers()
    ensures found { (format log : ℕ) (bytes : List ℕ) (p : Pointer) (key : List ℕ) (value : Stored)
        → LeadsTo format log bytes p key (Set value) → stored_at format bytes p key ≡ Some value }
    ensures leads { (format : ℕ) (bytes : List ℕ) (p : Pointer) (key : List ℕ) (value : Stored)
        → stored_at format bytes p key ≡ Some value → LeadsTo format p.segment bytes p key (Set value) }
{}
