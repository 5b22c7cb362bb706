// What is known of a batch for as long as its log is: each is the contract of a function that does nothing.
ghost use Rattle.std.specs.Prelude.{◌≡◌, ◌≤◌, ℕ, List, Some};
ghost use Rattle.std.specs.List.{AllByRecursion};
ghost use Rattle.vl_collect.specs.Passing.{AreLeft};
ghost use Rattle.vl_collect.specs.Standing.{HaveOnly, IsGiven, start};
ghost use Rattle.vl_collect.specs.declared.pass.At.{At};
ghost use Rattle.vl_frame.specs.Runs.{HasFrame};
ghost use Rattle.vl_engine_model.specs.Logs.{records};
ghost use Rattle.vl_engine_model.specs.Relocation.{Candidate, Pass, next_batch};
ghost use Rattle.vl_engine_model.specs.Shown.{IsThere};
ghost use Rattle.vl_engine_model.specs.Shows.{AreUpTo};
ghost use Rattle.vl_engine_model.specs.declared.segment.Segment.{Segment};
ghost use Rattle.vl_model.specs.Winners.{Logs};
ghost use Rattle.vl_seglog.specs.Frames.{frames_grammar, log_bytes};

/// Where the records of a batch were found nothing but their values stands, in the log and in all logs that have nothing else
/// in its segment, and none is newer than the base of the pass that gave them. A log that is sealed doesn't change, so this
/// holds on whatever is done beside the pass.
pub fn batches_stand_in_their_log()
    ensures given { (format number : ℕ) (bytes : List ℕ) (at : At) (p : Pass) (last : ℕ) (batch : List Candidate)
        → AreLeft format number bytes at p.left → AreUpTo last p.base → (next_batch p).0 ≡ Some batch
        → IsGiven format bytes p.segment last batch }
    ensures later { (format : ℕ) (bytes : List ℕ) (segment last later : ℕ) (batch : List Candidate) → last ≤ later
        → IsGiven format bytes segment last batch → IsGiven format bytes segment later batch }
    ensures there { (logs : Logs) (format : ℕ) (bytes : List ℕ) (segment last : ℕ) (batch : List Candidate)
        → HaveOnly format bytes segment logs → IsGiven format bytes segment last batch
        → AllByRecursion (IsThere logs segment) batch }
{}

/// Of a log that has its frames and nothing else a pass has all records to come to at its start.
pub fn a_pass_begins_with_all_records()
    ensures { (s : Segment) → AllByRecursion (HasFrame (frames_grammar s.format)) s.frames
        → AreLeft s.format s.number (log_bytes s.format s.number s.frames) start (records s) }
{}
