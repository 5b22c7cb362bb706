//! A merge carried out beside the engine, in files that the engine lends.
ghost use Rattle.std.specs.Prelude.{◌≡◌, ◌<◌, ◌+◌, ◌^◌, ℕ, None, Ok, OnOk, true, is_some};
ghost use Rattle.vl_compact.specs.Progress.{IsNew};
ghost use Rattle.vl_disk.specs.Faults.{HasCause};
ghost use Rattle.vl_steps.specs.Drawing.{drawn_core};
ghost use Rattle.vl_steps.specs.Merging.{FitsReaders, IsJustOpen};
ghost use Rattle.vl_version.specs.Bases.{Fits};
ghost use Rattle.vl_space.specs.Removing.{Removes};
ghost use Rattle.vl_engine.specs.UnderWay.{IsUnderWay as MayGiveUp};
ghost use Rattle.vl_engine_model.specs.declared.job.Job as laid;
ghost use Rattle.vl_replay_laws.specs.Drawn.{IsPlanned, Merged, drawn_all};
ghost use Rattle.vl_script_model.specs.Failing.{FailsBeside, beside};
ghost use Rattle.vl_script_model.specs.Halts.{HaltsByDisk, HaltsByReader};
ghost use Rattle.vl_replay.specs.AsCalled.{HaltsMerging};
ghost use Rattle.vl_replay.specs.Handed.{MayHandIn};
ghost use Rattle.vl_replay.specs.Rounds.{HasLent, IsUnderWay, MergesSurely, RoundLeaves, Rounds, StillLent, halt_by, round_by};
ghost use Rattle.vl_script_model.specs.Sequential.{State};
ghost use Rattle.vl_replay.specs.declared.tables.Round.TheVariants.{Made};

use std::alloc::Global;
use vl_compact::{Job, JobReader};
use vl_disk::{Disk, ReadFault};
use vl_engine::{Engine, StepFail};
use vl_model::Counter;
use vl_script_model::Halt;
use vl_table::BlockReader;
use vl_version::Base;

/// What a round of a merge came to.
enum Round {
    /// A table more was made.
    Made,
    /// It has all of its tables.
    Ended,
    /// No number is left for the next table.
    Exhausted(Counter),
}

/// Makes the tables of a merge that was just planned, one after the other, each in a file that the engine lends. None where it
/// has all of them, and else what is used up.
pub fn make_tables<D: Disk>(
    alloc: Global,
    engine: &mut Engine<D>,
    job: &mut Job<Base<D::Held, D::Reader>, D::Held, D::Writer>,
) -> Result<Option<Counter>, Halt>
    requires open { IsJustOpen engine.old.merging }
    requires new { IsNew job.old }
    ensures merged { (s : State) (j : laid.Job)
        → IsPlanned D.Writer.Writer D.Held.bytes (D.told engine.old.disk) engine.old.core engine.old.merging job.old s j
        → Merged D.Watched D.Writer.Writer D.Held.bytes engine.old.disk engine.new.disk engine.new.core engine.new.merging job.new s j
        result }

    // What the engine keeps of which files can go is the layout's then, which gave so many numbers.
    ensures removes { (s : State) (j : laid.Job) (count : ℕ)
        → IsPlanned D.Writer.Writer D.Held.bytes (D.told engine.old.disk) engine.old.core engine.old.merging job.old s j
        → engine.new.core.back.state.next_table ≡ s.store.layout.next_table + count
        → Removes engine.old.core engine.old.removing s.store.layout
        → OnOk result (Removes engine.new.core engine.new.removing (drawn_all count s.store.layout)) }

    // A fault of the disk is counted by it, and one beside it by what read or wrote, unless the engine was halted already.
    ensures cause { HasCause (D.faults engine.old.disk) (D.faults engine.new.disk) (HaltsByDisk result) }
    ensures fault { engine.old.core.front.halted ≡ None → HaltsByReader result
        → FailsBeside (D.gives_steady engine.old.disk) (beside D.Reader.faults D.Writer.faults) }
    ensures steady { D.gives_steady engine.old.disk → D.gives_steady engine.new.disk }

    // Whatever the disk holds, damage is that of a block which reading for the merge met, and a fault beside the disk is counted.
    ensures as_called { HaltsMerging D.Held.bytes (λ r. D.Reader.faults r) D.Writer.Writer (FitsReaders D.Held.bytes job.old) job.old result }

    // What is kept of statistics and of passes stays.
    ensures collecting { engine.new.collecting ≡ engine.old.collecting }
    ensures logs { engine.new.core.version.behind.logs ≡ engine.old.core.version.behind.logs }

    // A merge that has all of its tables can be handed in.
    ensures handed { result ≡ Ok None
        → MayHandIn D.Watched D.Writer.Writer engine.new.disk engine.new.merging job.new }
    // However it ends, the merge can be abandoned.
    ensures under_way { MayGiveUp D.Watched D.Writer.Writer engine.new.disk engine.new.core.front.halted engine.new.merging job.new }
{
    let mut reader = engine.reader()?;
    'tables: loop {
        match make_table(alloc, engine, job, &mut reader) {
            Ok(Round::Made) => {}
            Ok(Round::Ended) => return Ok(None),
            Ok(Round::Exhausted(counter)) => return Ok(Some(counter)),
            Err(halt) => return Err(halt),
        }
    }
}

// Makes the next table of an open merge, where it lacks one.
fn make_table<D: Disk>(
    alloc: Global,
    engine: &mut Engine<D>,
    job: &mut Job<Base<D::Held, D::Reader>, D::Held, D::Writer>,
    reader: &mut JobReader<D::Reader, BlockReader<D::Reader>>,
) -> Result<Round, Halt>
    requires { is_some engine.old.merging ≡ true }
    ensures rounds { (s : State) (j : laid.Job)
        → IsUnderWay D.Writer.Writer D.Held.bytes (D.told engine.old.disk) engine.old.core engine.old.merging job.old reader.old s j
        → Rounds D.Watched D.Writer.Writer D.Held.bytes engine.old.disk engine.new.disk engine.new.core engine.new.merging job.old job.new
        reader.new s j result }
    ensures removes { (s : State) (j : laid.Job)
        → IsUnderWay D.Writer.Writer D.Held.bytes (D.told engine.old.disk) engine.old.core engine.old.merging job.old reader.old s j
        → Removes engine.old.core engine.old.removing s.store.layout
        → RoundLeaves (Removes engine.new.core engine.new.removing) s.store.layout result }
    ensures cause { HasCause (D.faults engine.old.disk) (D.faults engine.new.disk) (HaltsByDisk result) }
    ensures fault { engine.old.core.front.halted ≡ None → HaltsByReader result
        → FailsBeside (MergesSurely D.Watched D.Reader.faults engine.old.disk reader.old) (beside D.Reader.faults D.Writer.faults) }
    ensures steady { D.gives_steady engine.old.disk → D.gives_steady engine.new.disk }
    ensures sure { MergesSurely D.Watched D.Reader.faults engine.old.disk reader.old
        → result ≡ Ok Made → MergesSurely D.Watched D.Reader.faults engine.new.disk reader.new }
    // Whatever the disk holds, damage is that of a block which reading for the merge met. What is merged stays the same.
    ensures as_called { HaltsMerging D.Held.bytes (λ r. D.Reader.faults r) D.Writer.Writer
        (Fits D.Held.bytes job.old.base.version reader.old.looks) job.old result }
    ensures base { job.new.base ≡ job.old.base }
    ensures inputs { job.new.inputs ≡ job.old.inputs }
    ensures fits { Fits D.Held.bytes job.old.base.version reader.old.looks → Fits D.Held.bytes job.old.base.version reader.new.looks }
    ensures lent { HasLent D.Watched D.Writer.Writer engine.old.disk engine.old.merging job.old
        → StillLent (HasLent D.Watched D.Writer.Writer engine.new.disk engine.new.merging job.new) (job.new.ended ≡ true) result }
    ensures under_way { HasLent D.Watched D.Writer.Writer engine.old.disk engine.old.merging job.old
        → MayGiveUp D.Watched D.Writer.Writer engine.new.disk engine.new.core.front.halted engine.new.merging job.new }
    ensures collecting { engine.new.collecting ≡ engine.old.collecting }
    ensures logs { engine.new.core.version.behind.logs ≡ engine.old.core.version.behind.logs }
    // Each table takes a number of its own.
    ensures drawn { result ≡ Ok Made
        → (engine.old.core.back.state.next_table < 2 ^ 32) × (engine.new.core ≡ drawn_core engine.old.core) }
{
    let next = match job.ready(alloc, reader) {
        Ok(Some(next)) => next,
        Ok(None) => return Ok(Round::Ended),
        Err(fault) => return Err(halt_at(fault)),
    };
    let file = match engine.fresh(job) {
        Ok(file) => file,
        Err(fail) => return refused(fail),
    };
    match job.fill(alloc, reader, next, file) {
        Ok(()) => Ok(Round::Made),
        Err(fault) => Err(halt_at(fault)),
    }
}

// How a line ends whose merge couldn't read, or couldn't write beside the disk.
fn halt_at(fault: ReadFault) -> Halt
    ensures { result ≡ halt_by fault }
{
    match fault {
        ReadFault::NoMemory => Halt::NoMemory,
        ReadFault::Disk { name } => Halt::Read { name },
        ReadFault::Damaged { name, place } => Halt::Damaged { name, place },
    }
}

// How a round ends whose merge was lent no file.
fn refused(fail: StepFail) -> Result<Round, Halt>
    ensures { result ≡ round_by fail }
{
    match fail {
        StepFail::Exhausted(counter) => Ok(Round::Exhausted(counter)),
        StepFail::NoMemory => Err(Halt::NoMemory),
        StepFail::Disk { name } => Err(Halt::Disk { name }),
        StepFail::Halted { name } => Err(Halt::Halted { name }),
    }
}
