//! One line of a script: carried out, and answered.
ghost use Rattle.std.specs.Prelude.{◌≡◌, ◌≢◌, None, Some, IfErr, IfOk, OnOk};
ghost use Rattle.std.specs.Option.{option_map};
ghost use Rattle.vl_disk.specs.Faults.{Rose, HasCause};
ghost use Rattle.vl_script_model.specs.Sequential.{State};
ghost use Rattle.vl_replay.specs.AsCalled.{AnswersAsCalled};
ghost use Rattle.vl_script_model.specs.Called.{AnswersAsLine, EndsText, HaltsAsLine, IsApart};
ghost use Rattle.vl_replay.specs.Served.{GoesOnFor, IsUnfailing, StandsFor, StaysOpen, TakesLines, disk_of};
ghost use Rattle.vl_script_model.specs.Exchanges.{exchange_at, state_behind};
ghost use Rattle.vl_script_model.specs.Endings.{TheDisk, TheSink, TheSource, CountsFaultsOf, CutsAnswer, EndsAs, culprit_of, line_number};
ghost use Rattle.vl_script_model.specs.Runs.{Script};
ghost use Rattle.vl_script_model.specs.Durable.{HoldsState, CarriesOut};
ghost use Rattle.vl_script_model.specs.Stored.{IsStopped, IsStored};
ghost use Rattle.vl_engine_laws.specs.Shown.{Shown};
ghost use Rattle.vl_script_model.specs.Steps.{IsAnswered, IsNext, EndsAtBadLine, PrintsStep, DiskSteps};
ghost use Rattle.vl_script_model.specs.Failing.{FailsBeside, IsTableRead, beside};
ghost use Rattle.vl_script_model.specs.Halts.{HaltsByDamage, HaltsByDisk, HaltsByRead, HaltsByReader};
ghost use Rattle.vl_script_model.specs.Reading.{AnswersText, EndsBadly, IsLine, ReadsText};
ghost use Rattle.vl_script_model.specs.declared.fails.Refusal.{Refusal};

use crate::ended::{DISK_FAULT, NO_MEMORY, end_at_fault, finish};
use crate::refuse::end_at_damage;
use crate::replayer::Replayer;
use std::alloc::Global;
use vl_disk::Disk;
use vl_io::Sink;
use vl_script::{NUMBER_ROOM, parse_line, print_answer, print_bad_line};
use vl_script_model::{Ending, Halt, OnFault};

/// Carries out a text as a line, and gives the text of its answer; None where it is a bad line. The room for an answer by a
/// number is there before the line is carried out, so that no commit, move, rotation or merge stands whose answer found no memory.
fn execute_line<D: Disk>(
    alloc: Global,
    replayer: &mut Replayer<D>,
    text: &[u8],
) -> Result<Option<Vec<u8>>, Halt>
    requires { TakesLines replayer.old }
    ensures answers { (s : State) → StandsFor D.Watched D.Writer.Writer D.Held.bytes replayer.old s
        → IfOk result (λ out. IsAnswered s text.now (StandsFor D.Watched D.Writer.Writer D.Held.bytes replayer.new)
        (option_map (λ text. text.items) out)) }
    ensures carries { (s : State) → StandsFor D.Watched D.Writer.Writer D.Held.bytes replayer.old s
        → CarriesOut D.Watched IsStored Shown IsStopped (disk_of replayer.old) (disk_of replayer.new) s
        (state_behind s (exchange_at s text.now)) result }
    ensures cause { HasCause (D.faults (disk_of replayer.old)) (D.faults (disk_of replayer.new)) (HaltsByDisk result) }
    // What a store has isn't damaged. Only a line that reads tables, or goes on with a pass, asks a reader, which counts its fault.
    ensures readable { (s : State) → StandsFor D.Watched D.Writer.Writer D.Held.bytes replayer.old s
        → HaltsByRead result → IsTableRead (exchange_at s text.now) }
    ensures undamaged { (s : State) → StandsFor D.Watched D.Writer.Writer D.Held.bytes replayer.old s → HaltsByDamage result → ⊥ }
    ensures fault { (s : State) → StandsFor D.Watched D.Writer.Writer D.Held.bytes replayer.old s
        → HaltsByReader result → FailsBeside (IsUnfailing D.Watched D.Reader.faults replayer.old.served)
        (beside D.Reader.faults D.Writer.faults) }
    ensures sure { (s : State) → StandsFor D.Watched D.Writer.Writer D.Held.bytes replayer.old s
        → IsUnfailing D.Watched D.Reader.faults replayer.old.served
        → OnOk result (IsUnfailing D.Watched D.Reader.faults replayer.new.served) }
    ensures met { HaltsByRead result → IsLine text.now }
    ensures reads { IfOk result (λ out. ReadsText text.now (option_map (λ text. text.items) out)) }
    ensures goes_on { OnOk result (TakesLines replayer.new) }
    // Whatever the disk holds, it is answered, or halted, as its line is.
    ensures as_called { IfOk result (λ out. AnswersAsLine
        (AnswersAsCalled D.Watched D.Held.bytes (λ r. D.Reader.faults r) D.Writer.Writer replayer.old replayer.new) text.now
        (option_map (λ text. text.items) out)) }
    ensures halted { IfErr result (HaltsAsLine
        (AnswersAsCalled D.Watched D.Held.bytes (λ r. D.Reader.faults r) D.Writer.Writer replayer.old replayer.new) text.now) }
{
    let Some(line) = parse_line(alloc, text)? else {
        return Ok(None);
    };
    let mut out = Vec::with_capacity(alloc, NUMBER_ROOM)?;
    let answer = replayer.line(line)?;
    print_answer(alloc, &mut out, &answer)?;
    Ok(Some(out))
}

/// Ends a run at a bad line, with so many lines answered before it.
pub fn end_at_bad_line<K: Sink>(alloc: Global, answered: u64, sink: &mut K) -> Ending
    ensures printed { EndsAtBadLine answered result (K.held sink.old) (K.held sink.new) }
    ensures sink_faults { CountsFaultsOf TheSink (Some result) (K.faults sink.old) (K.faults sink.new) }
    ensures not_the_disk { culprit_of result ≢ TheDisk }
    ensures not_the_source { culprit_of result ≢ TheSource }
    ensures not_the_files { (refusal : Refusal) → result ≢ Ending.Refused refusal }
    ensures not_the_words { result ≢ Ending.BadWords }
    ensures readable { result ≢ Ending.ReaderFault }
    ensures whole { CutsAnswer result → ⊥ }
    ensures apart { IsApart result }
    ensures reads { EndsBadly (Unit {0}) ⊥ answered result (K.held sink.old) (K.held sink.new) }
{
    let mut line = Vec::new(alloc);
    match print_bad_line(&mut line, answered.saturating_add(1)) {
        Ok(()) => finish(sink, &line, Ending::BadLine),
        Err(_) => finish(sink, NO_MEMORY, Ending::NoMemory),
    }
}

/// Answers a line, with so many lines answered before it. None where the run goes on.
pub fn answer<K: Sink, D: Disk>(
    alloc: Global,
    replayer: &mut Replayer<D>,
    text: &[u8],
    answered: u64,
    sink: &mut K,
    on_fault: OnFault,
) -> Option<Ending>
    requires { TakesLines replayer.old }
    ensures printed { (script : Script) → StandsFor D.Watched D.Writer.Writer D.Held.bytes replayer.old script.start
        → answered ≡ line_number script.before
        → IsNext script text.now
        → PrintsStep (Rose (D.faults (disk_of replayer.old)) (D.faults (disk_of replayer.new))) script text.now
        (StandsFor D.Watched D.Writer.Writer D.Held.bytes replayer.new) result (K.held sink.old) (K.held sink.new) }
    ensures moves { (s : State) → StandsFor D.Watched D.Writer.Writer D.Held.bytes replayer.old s
        → HoldsState D.Watched IsStored s (disk_of replayer.old)
        → DiskSteps D.Watched IsStored Shown IsStopped (disk_of replayer.old) (disk_of replayer.new) s
        (state_behind s (exchange_at s text.now)) result }
    ensures sink_faults { CountsFaultsOf TheSink result (K.faults sink.old) (K.faults sink.new) }
    ensures disk_faults { CountsFaultsOf TheDisk result (D.faults (disk_of replayer.old)) (D.faults (disk_of replayer.new)) }
    ensures not_the_source { option_map culprit_of result ≢ Some TheSource }
    ensures not_the_files { (refusal : Refusal) → result ≢ Some (Ending.Refused refusal) }
    ensures not_the_words { result ≢ Some Ending.BadWords }
    // A read fails only where its reader counts it, and not where nothing is to fail beside the disk. Wherever the run goes on, the
    // store stands for a state, and nothing is to fail that wasn't.
    ensures reader_fault { (s : State) → StandsFor D.Watched D.Writer.Writer D.Held.bytes replayer.old s → result ≡ Some Ending.ReaderFault
        → FailsBeside (IsUnfailing D.Watched D.Reader.faults replayer.old.served) (beside D.Reader.faults D.Writer.faults) }
    ensures stands { (s : State) → StandsFor D.Watched D.Writer.Writer D.Held.bytes replayer.old s → result ≡ None
        → (t : State) × GoesOnFor D.Watched D.Writer.Writer D.Held.bytes D.Reader.faults replayer.old replayer.new t }
    ensures again { (s : State) → StandsFor D.Watched D.Writer.Writer D.Held.bytes replayer.old s
        → HoldsState D.Watched IsStored s (disk_of replayer.old)
        → StaysOpen D.Watched (StandsFor D.Watched D.Writer.Writer D.Held.bytes replayer.new) (disk_of replayer.new) result }
    ensures reads { AnswersText text.now answered result (K.held sink.old) (K.held sink.new) }
    ensures as_meant { EndsAs on_fault result }
    ensures goes_on { result ≡ None → TakesLines replayer.new }
    // Whatever the disk holds, what is put, and how the run ends there, follows from what the line was answered.
    ensures as_called { EndsText K.Sink on_fault
        (AnswersAsCalled D.Watched D.Held.bytes (λ r. D.Reader.faults r) D.Writer.Writer replayer.old replayer.new) text.now sink.old sink.new result }
{
    match execute_line(alloc, replayer, text) {
        Ok(Some(answer)) => match sink.put(&answer) {
            Ok(()) => None,
            Err(_) => Some(Ending::AnswerCut),
        },
        Ok(None) => Some(end_at_bad_line(alloc, answered, sink)),
        Err(Halt::NoMemory) => Some(finish(sink, NO_MEMORY, Ending::NoMemory)),
        Err(Halt::Damaged { name, place }) => Some(end_at_damage(alloc, sink, name, place)),
        Err(Halt::Read { .. }) => Some(finish(sink, DISK_FAULT, Ending::ReaderFault)),
        Err(Halt::Halted { .. }) => Some(finish(sink, DISK_FAULT, Ending::ReaderFault)),
        Err(Halt::Disk { .. }) => Some(end_at_fault(sink, on_fault)),
    }
}
