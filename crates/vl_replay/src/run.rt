//! Whole runs of a script.
ghost use Rattle.std.specs.Prelude.{◌≡◌, ◌≢◌, ◌⊎◌, ◌+◌, ◌<◌, ℕ, List, Option, Some, None, length};
ghost use Rattle.vl_disk.specs.Crash.{Image};
ghost use Rattle.vl_disk.specs.DiskState.{DiskState};
ghost use Rattle.vl_disk.specs.Started.{IsRead};
ghost use Rattle.vl_recover.specs.crash.Starts.{MayOpen};
ghost use Rattle.vl_script_model.specs.Sequential.{State};
ghost use Rattle.vl_replay.specs.AsCalled.{AnswersAsCalled, RunsFromOpening, files_by, shares_by};
ghost use Rattle.vl_replay.specs.Served.{GoesOnFor, IsUnfailing, StandsFor, StaysOpen, TakesLines, disk_of};
ghost use Rattle.vl_script_model.specs.Called.{CallsOn, EndsText, HasCalled, RunsAsCalled};
ghost use Rattle.vl_script_model.specs.Exchanges.{exchange_at, state_behind};
ghost use Rattle.vl_script_model.specs.Endings.{TheDisk, TheSink, TheSource, CountsFaultsOf, EndsAs, culprit_of, line_number};
ghost use Rattle.std.specs.Option.{option_map};
ghost use Rattle.vl_disk.specs.Faults.{Rose};
ghost use Rattle.vl_script_model.specs.Runs.{Script, script_of, outside, EndsRun};
ghost use Rattle.vl_script_model.specs.Failing.{FailsBeside, beside};
ghost use Rattle.vl_script_model.specs.Durable.{HoldsState, DiskEndsFrom, Tells};
ghost use Rattle.vl_script_model.specs.Stored.{IsStopped, IsStored};
ghost use Rattle.vl_engine_laws.specs.Shown.{Shown};
ghost use Rattle.vl_script_model.specs.Start.{AnswersInput, EndsAtTables, StartsIn, StaysOpenable};
ghost use Rattle.vl_script_model.specs.Opening.{IsRefused};
ghost use Rattle.vl_script_model.specs.declared.fails.Refusal.{Refusal};
ghost use Rattle.vl_script_model.specs.Reading.{AnswersText, HasRead, ReadsInput, ReadsOn, Streams, streams};
ghost use Rattle.vl_script_model.specs.Steps.{IsNext, PrintsStep, DiskSteps, kept, HasToDo, Steps, IsRefusedRun, EndsWithoutOpening};

use crate::answer::{answer, end_at_bad_line};
use crate::ended::{Ended, NO_MEMORY, READ_FAULT, finish};
use crate::input::{Buffer, InputFail, read_line};
use crate::refuse::end_unopened;
use crate::replayer::Replayer;
use std::alloc::Global;
use vl_disk::Disk;
use vl_io::{Sink, Source};
use vl_recover::OpenFail;
use vl_script::Next;
use vl_script_model::{Ending, OnFault};

/// A run under way: what was read and not yet answered, the store, and how many lines were answered.
#[derive(Drop)]
struct Progress<D: Disk> {
    alloc: Global,
    buffer: Buffer,
    line: Vec<u8>,
    replayer: Replayer<D>,
    answered: u64,
    on_fault: OnFault,
}

impl<D: Disk> Progress<D> {
    /// Reads a line and answers it. None where the run goes on.
    fn step<S: Source, K: Sink>(&mut self, source: &mut S, sink: &mut K) -> Option<Ending>
        requires { TakesLines self.old.replayer }
        ensures runs { (script : Script)
            → HasToDo script (kept (StandsFor D.Watched D.Writer.Writer D.Held.bytes self.old.replayer) self.old.buffer self.old.answered)
            (outside S.Source K.Sink source.old sink.old (disk_of self.old.replayer))
            → Steps D.Watched IsStored Shown IsStopped script
            (outside S.Source K.Sink source.old sink.old (disk_of self.old.replayer))
            (outside S.Source K.Sink source.new sink.new (disk_of self.new.replayer))
            (kept (StandsFor D.Watched D.Writer.Writer D.Held.bytes self.new.replayer) self.new.buffer self.new.answered) result }
        // A step after which the run goes on leaves less to be read, so that the run ends.
        ensures shorter { result ≡ None
            → length self.new.buffer + S.budget source.new < length self.old.buffer + S.budget source.old }
        ensures source_faults { CountsFaultsOf TheSource result (S.faults source.old) (S.faults source.new) }
        ensures sink_faults { CountsFaultsOf TheSink result (K.faults sink.old) (K.faults sink.new) }
        ensures disk_faults { CountsFaultsOf TheDisk result
            (D.faults (disk_of self.old.replayer)) (D.faults (disk_of self.new.replayer)) }
        ensures not_the_files { (refusal : Refusal) → result ≢ Some (Ending.Refused refusal) }
        ensures not_the_words { result ≢ Some Ending.BadWords }
        ensures reader_fault { (s : State) → StandsFor D.Watched D.Writer.Writer D.Held.bytes self.old.replayer s
            → result ≡ Some Ending.ReaderFault
            → FailsBeside (IsUnfailing D.Watched D.Reader.faults self.old.replayer.served) (beside D.Reader.faults D.Writer.faults) }
        ensures stands { (s : State) → StandsFor D.Watched D.Writer.Writer D.Held.bytes self.old.replayer s → result ≡ None
            → (t : State) × GoesOnFor D.Watched D.Writer.Writer D.Held.bytes D.Reader.faults self.old.replayer self.new.replayer t }
        // However the run goes on, the disk holds such a state; and however it ends, a store may be opened there again.
        ensures again { (s : State) → StandsFor D.Watched D.Writer.Writer D.Held.bytes self.old.replayer s
            → HoldsState D.Watched IsStored s (disk_of self.old.replayer)
            → StaysOpen D.Watched (StandsFor D.Watched D.Writer.Writer D.Held.bytes self.new.replayer) (disk_of self.new.replayer) result }
        ensures reads { (input : List ℕ) (begin : Streams)
            → HasRead input begin (streams S.Source K.Sink source.old sink.old) self.old.buffer self.old.answered
            → ReadsOn input begin (streams S.Source K.Sink source.new sink.new) self.new.buffer self.new.answered result }
        // Whatever the disk holds, each line was answered what the engine's call gave, and so is this one; or it ended the run.
        ensures called { (first : _) (left : Option (List ℕ)) (begin : K)
            → HasCalled (AnswersAsCalled D.Watched D.Held.bytes (λ r. D.Reader.faults r) D.Writer.Writer) K.Sink first self.old.replayer
            left (S.left source.old) self.old.buffer begin sink.old
            → CallsOn (AnswersAsCalled D.Watched D.Held.bytes (λ r. D.Reader.faults r) D.Writer.Writer) K.Sink self.old.on_fault first
            self.new.replayer left (S.left source.new) self.new.buffer begin sink.new result }
        ensures as_meant { EndsAs self.old.on_fault result }
        ensures same_mode { self.new.on_fault ≡ self.old.on_fault }
        ensures goes_on { result ≡ None → TakesLines self.new.replayer }
        ensures still_told { (left : List ℕ) → S.left source.old ≡ Some left → (rest : List ℕ) × (S.left source.new ≡ Some rest) }
    {
        match read_line(&mut self.buffer, source, &mut self.line) {
            Ok(Next::Line) => self.answer(sink),
            Ok(Next::LastLine) => Some(self.answer(sink).unwrap_or(Ending::Complete)),
            Ok(Next::TooLong) => Some(end_at_bad_line(self.alloc, self.answered, sink)),
            Ok(Next::End) => Some(Ending::Complete),
            Err(InputFail::NoMemory) => Some(finish(sink, NO_MEMORY, Ending::NoMemory)),
            Err(InputFail::Fault) => Some(finish(sink, READ_FAULT, Ending::ReadFault)),
        }
    }

    /// Answers the line that was read.
    fn answer<K: Sink>(&mut self, sink: &mut K) -> Option<Ending>
        requires { TakesLines self.old.replayer }
        ensures printed { (script : Script) → StandsFor D.Watched D.Writer.Writer D.Held.bytes self.old.replayer script.start
            → self.old.answered ≡ line_number script.before → IsNext script self.old.line.items
            → PrintsStep (Rose (D.faults (disk_of self.old.replayer)) (D.faults (disk_of self.new.replayer))) script
            self.old.line.items (StandsFor D.Watched D.Writer.Writer D.Held.bytes self.new.replayer) result
            (K.held sink.old) (K.held sink.new) }
        ensures moves { (s : State) → StandsFor D.Watched D.Writer.Writer D.Held.bytes self.old.replayer s
            → HoldsState D.Watched IsStored s (disk_of self.old.replayer)
            → DiskSteps D.Watched IsStored Shown IsStopped (disk_of self.old.replayer) (disk_of self.new.replayer) s
            (state_behind s (exchange_at s self.old.line.items)) result }
        ensures counted { (before : ℕ) → self.old.answered ≡ line_number before
            → self.new.answered ≡ line_number (before + 1) }
        ensures same { self.new.buffer ≡ self.old.buffer }
        ensures sink_faults { CountsFaultsOf TheSink result (K.faults sink.old) (K.faults sink.new) }
        ensures disk_faults { CountsFaultsOf TheDisk result
            (D.faults (disk_of self.old.replayer)) (D.faults (disk_of self.new.replayer)) }
        ensures not_the_source { option_map culprit_of result ≢ Some TheSource }
        ensures not_the_files { (refusal : Refusal) → result ≢ Some (Ending.Refused refusal) }
        ensures not_the_words { result ≢ Some Ending.BadWords }
        ensures reader_fault { (s : State) → StandsFor D.Watched D.Writer.Writer D.Held.bytes self.old.replayer s
            → result ≡ Some Ending.ReaderFault
            → FailsBeside (IsUnfailing D.Watched D.Reader.faults self.old.replayer.served) (beside D.Reader.faults D.Writer.faults) }
        ensures stands { (s : State) → StandsFor D.Watched D.Writer.Writer D.Held.bytes self.old.replayer s → result ≡ None
            → (t : State) × GoesOnFor D.Watched D.Writer.Writer D.Held.bytes D.Reader.faults self.old.replayer self.new.replayer t }
        ensures again { (s : State) → StandsFor D.Watched D.Writer.Writer D.Held.bytes self.old.replayer s
            → HoldsState D.Watched IsStored s (disk_of self.old.replayer)
            → StaysOpen D.Watched (StandsFor D.Watched D.Writer.Writer D.Held.bytes self.new.replayer) (disk_of self.new.replayer) result }
        ensures reads { AnswersText self.old.line.items self.old.answered result (K.held sink.old) (K.held sink.new) }
        ensures called { EndsText K.Sink self.old.on_fault
            (AnswersAsCalled D.Watched D.Held.bytes (λ r. D.Reader.faults r) D.Writer.Writer self.old.replayer self.new.replayer)
            self.old.line.items sink.old sink.new result }
        ensures as_meant { EndsAs self.old.on_fault result }
        ensures same_mode { self.new.on_fault ≡ self.old.on_fault }
        ensures goes_on { result ≡ None → TakesLines self.new.replayer }
    {
        let ended = answer(
            self.alloc,
            &mut self.replayer,
            &self.line,
            self.answered,
            sink,
            self.on_fault,
        );
        self.answered = self.answered.saturating_add(1);
        ended
    }
}

/// Opens the store on a disk, or makes one where nothing stands, and answers the lines of a source, one after the other.
pub fn replay<S: Source, K: Sink, D: Disk>(
    alloc: Global,
    source: &mut S,
    sink: &mut K,
    disk: D,
) -> Ended<D>
    // Where the disk opens as a store, the lines of the input are answered as the sequential store does: so it is of what is
    // printed, of how the run ends, and of what the disk holds in the end.
    ensures runs { AnswersInput D.Watched D.Reader.faults (outside S.Source K.Sink source.old sink.old disk)
        (outside S.Source K.Sink source.new sink.new result.disk) result.ending }
    ensures source_faults { CountsFaultsOf TheSource (Some result.ending) (S.faults source.old) (S.faults source.new) }
    ensures sink_faults { CountsFaultsOf TheSink (Some result.ending) (K.faults sink.old) (K.faults sink.new) }
    // A fault of the disk is counted by it, or by the reader through which its opening read tables; and that of a line's read by
    // its reader, which comes only where something may fail beside the disk.
    ensures disk_faults { CountsFaultsOf TheDisk (Some result.ending) (D.faults disk) (D.faults result.disk)
        ⊎ (EndsAtTables D.Watched D.Reader.faults K.Sink disk result.disk sink.old sink.new result.ending
        × (source.new ≡ source.old)) }
    ensures reader_fault { (s : State) → StartsIn D.Watched disk s → result.ending ≡ Ending.ReaderFault
        → FailsBeside (D.gives_steady disk) (beside D.Reader.faults D.Writer.faults) }
    ensures not_the_words { result.ending ≢ Ending.BadWords }
    // It says how it ended.
    ensures reported { result.ending ≢ Ending.Stopped }

    // The run ends by a refusal only where reads of the disk give it, and there always, unless a fault or want of memory
    // comes first. Then no line was read, and the disk wasn't changed. The last line is all that is printed.
    ensures refused { (refusal : Refusal) → result.ending ≡ Ending.Refused refusal
        → IsRefusedRun D.Watched K.Sink disk result.disk sink.old sink.new refusal × (source.new ≡ source.old) }
    ensures refuses { (state : DiskState) (read : Image) (refusal : Refusal) → D.told disk ≡ Some state
        → IsRead read state → IsRefused read refusal
        → EndsWithoutOpening D.Watched K.Sink disk result.disk sink.old sink.new refusal result.ending
        × (source.new ≡ source.old) }

    // Whatever the disk is and holds, each line was answered what the engine's call gave. The run ended as the last call says: by
    // damage with that damage's line, and by a fault with that of a fault; or no store was opened, and it says why.
    ensures called { RunsFromOpening D.Watched (files_by D.Held.bytes D.Held.size D.Held.named)
        (shares_by D.Held.is_clone D.Held.is_infallible) D.Reader.Reader D.Writer.Writer K.Sink disk (S.left source.old)
        sink.old sink.new result.ending }

    // Over a disk on which a store may be opened: however the run ends, and whatever failed, one may be opened there again.
    ensures again { (s : State) → StartsIn D.Watched disk s → StaysOpenable D.Watched disk result.disk }

    // Whatever the disk is and holds, the run tells so much of its input.
    ensures input { (input : List ℕ) → S.left source.old ≡ Some input
        → ReadsInput input (streams S.Source K.Sink source.old sink.old) (streams S.Source K.Sink source.new sink.new)
        result.ending }
{
    match Replayer::new(alloc, disk) {
        Ok(replayer) => answer_lines(alloc, source, sink, replayer, OnFault::Report),
        Err(OpenFail { why, disk, .. }) => {
            let ending = end_unopened(alloc, sink, why);
            Ended { ending, disk }
        }
    }
}

/// Answers the lines of a source over an open store.
pub(crate) fn answer_lines<S: Source, K: Sink, D: Disk>(
    alloc: Global,
    source: &mut S,
    sink: &mut K,
    replayer: Replayer<D>,
    on_fault: OnFault,
) -> Ended<D>
    requires { TakesLines replayer }
    ensures runs { (s : State) (input : List ℕ) → StandsFor D.Watched D.Writer.Writer D.Held.bytes replayer s
        → S.left source.old ≡ Some input
        → EndsRun D.Watched (DiskEndsFrom D.Watched IsStored Shown IsStopped (disk_of replayer) result.disk s)
        (script_of s 0 input) (outside S.Source K.Sink source.old sink.old (disk_of replayer))
        (outside S.Source K.Sink source.new sink.new result.disk) result.ending }
    ensures source_faults { CountsFaultsOf TheSource (Some result.ending) (S.faults source.old) (S.faults source.new) }
    ensures sink_faults { CountsFaultsOf TheSink (Some result.ending) (K.faults sink.old) (K.faults sink.new) }
    ensures disk_faults { CountsFaultsOf TheDisk (Some result.ending) (D.faults (disk_of replayer)) (D.faults result.disk) }
    ensures not_the_files { (refusal : Refusal) → result.ending ≢ Ending.Refused refusal }
    ensures not_the_words { result.ending ≢ Ending.BadWords }
    ensures reader_fault { (s : State) → StandsFor D.Watched D.Writer.Writer D.Held.bytes replayer s → result.ending ≡ Ending.ReaderFault
        → FailsBeside (IsUnfailing D.Watched D.Reader.faults replayer.served) (beside D.Reader.faults D.Writer.faults) }
    ensures input { (input : List ℕ) → S.left source.old ≡ Some input
        → ReadsInput input (streams S.Source K.Sink source.old sink.old) (streams S.Source K.Sink source.new sink.new)
        result.ending }
    ensures again { (s : State) → StandsFor D.Watched D.Writer.Writer D.Held.bytes replayer s
        → HoldsState D.Watched IsStored s (disk_of replayer) → Tells D.Watched result.disk MayOpen }
    // Whatever the disk holds, each line was answered what the engine's call gave, and the run ended there.
    ensures called { RunsAsCalled (AnswersAsCalled D.Watched D.Held.bytes (λ r. D.Reader.faults r) D.Writer.Writer) K.Sink on_fault
        replayer (S.left source.old) sink.old sink.new result.ending }
    ensures as_meant { EndsAs on_fault (Some result.ending) }
    ensures still_told { (left : List ℕ) → S.left source.old ≡ Some left → (rest : List ℕ) × (S.left source.new ≡ Some rest) }
{
    let Ok(buffer) = Buffer::new(alloc) else {
        return Ended {
            ending: finish(sink, NO_MEMORY, Ending::NoMemory),
            disk: replayer.close(),
        };
    };
    let mut progress = Progress {
        alloc,
        buffer,
        line: Vec::new(alloc),
        replayer,
        answered: 0,
        on_fault,
    };
    'lines: loop {
        if let Some(ending) = progress.step(source, sink) {
            return Ended {
                ending,
                disk: progress.replayer.close(),
            };
        }
    }
}
