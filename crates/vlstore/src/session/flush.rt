ghost use Rattle.std.specs.Prelude.{◌≡◌, true};
ghost use Rattle.vl_steps.specs.Stepping.{StepFailed, step_outcome};
ghost use Rattle.vl_engine_model.specs.Rulings.Flush.{flush_ruling};
ghost use Rattle.vlstore.specs.Counting.{WasCounted};
ghost use Rattle.vlstore.specs.Entries.{flush_entry};
ghost use Rattle.vlstore.specs.Knowing.{GoesOn, KeepsOwnMerge, Stepped};
ghost use Rattle.vlstore.specs.Standing.{NeverFails};

use super::Session;
use super::finish::finish;
use super::rotate::has_stepped;
use std::marker::Brand;
use std::sync::Wait;
use vl_disk::Disk;
use vl_engine::StepFail;

impl<D: Disk> Session<D> {
    /// Writes what stands in the log that was sealed first, and wasn't flushed, to a table, and answers the
    /// table's number; none where there is no such log. It is refused as `rotate` is.
    pub fn flush<R: Wait>(&mut self, rt: &R) -> Result<Option<u32>, StepFail>
        ensures on { GoesOn self.old self.new }
        ensures merge { KeepsOwnMerge self.old self.new }
        ensures steps { self.old.tells ≡ true
            → Stepped (NeverFails D.faults D.Reader.faults D.Writer.faults) self.old self.new
            flush_ruling flush_entry (step_outcome result) }
        // Over any disk, it fails only where the disk counted that.
        ensures cause { StepFailed result → WasCounted D.faults }
    {
        let lock = &*self.lock;
        let mut turn = lock.take(rt, &mut self.token);
        let locked = turn.value();
        let answer = locked.engine.flush();
        let enters = has_stepped(&answer);
        finish::<_, Brand, _, _, _>(lock, rt, turn, &(), &answer, enters);
        answer
    }
}
