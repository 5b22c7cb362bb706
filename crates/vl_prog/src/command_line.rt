//! The top call: words and a script in, answers and a status out.

ghost use Rattle.std.specs.Prelude.{◌≡◌, ◌≢◌, ◌<◌, ◌⊎◌, ℕ, List, map, string_bytes, Some};
ghost use Rattle.vl_disk.specs.Crash.{Image};
ghost use Rattle.vl_disk.specs.DiskState.{DiskState};
ghost use Rattle.vl_disk.specs.Faults.{Rose};
ghost use Rattle.vl_disk.specs.Started.{IsRead};
ghost use Rattle.vl_script.specs.Script.{lines_of};
ghost use Rattle.vl_script_model.specs.Sequential.{State};
ghost use Rattle.vl_script_model.specs.Endings.{status_of};
ghost use Rattle.vl_script_model.specs.Exchanges.{exchanges_from, AreExplained};
ghost use Rattle.vl_script_model.specs.Failing.{beside};
ghost use Rattle.vl_script_model.specs.Opening.{IsRefused};
ghost use Rattle.vl_script_model.specs.Reading.{streams};
ghost use Rattle.vl_script_model.specs.Runs.{outside};
ghost use Rattle.vl_script_model.specs.Start.{StartsIn, StaysOpenable};
ghost use Rattle.vl_script_model.specs.Steps.{IsRefusedRun};
ghost use Rattle.vl_script_model.specs.declared.ending.Ending.{Ending as HowEnded};
ghost use Rattle.vl_script_model.specs.declared.fails.Refusal.{Refusal};
ghost use Rattle.vl_script_model.specs.Trial.{TriesInTime, begun};
ghost use Rattle.vl_script_model.specs.Trying.{trial_of};
ghost use Rattle.vl_mem.specs.declared.outcome.Outcome.{Outcome};
ghost use Rattle.vl_replay.specs.AsCalled.{RunsFromOpening, files_by, shares_by};
ghost use Rattle.vl_replay.specs.Benchmark.{StatusOfBench, summary_of};
ghost use Rattle.vl_prog.specs.Counting.{StatusOfIds};
ghost use Rattle.vl_prog.specs.Driving.{StatusOfDrive};
ghost use Rattle.vl_prog.specs.Run.{AreNotPlain, AskFor, EndsBy, FailedAtTables, FailedToRead, HasCountedFault};
ghost use Rattle.vl_prog.specs.Run.{MetDamage, StatusOfAnswers, StatusOfTrial, StatusWithoutOpening, TellsOfInput};
ghost use Rattle.vl_script.specs.declared.words.Command.{Command as Commands};

use crate::clients::drive;
use crate::ids;
use std::alloc::Global;
use std::sync::Wait;
use std::thread::Threads;
use vl_disk::Disk;
use vl_drive::Shops;
use vl_io::{Sink, Source};
use vl_model::reads_without_conflict_stay_explained;
use vl_replay::{Ended, NO_MEMORY, USAGE, bench, finish, replay, trial};
use vl_script::{Command, command_in};
use vl_script_model::Ending;

/// How a run ended: the process's status, as docs/SCRIPT.md lists them, and the disk.
pub struct CommandEnded<D> {
    pub status: u8,
    pub disk: D,
}

/// Ends a run whose words found no memory: status 5, or 7 where the last line can't be put.
pub fn refuse_without_words<K: Sink>(sink: &mut K) -> u8
    ensures { EndsBy K.Sink sink.old sink.new Ending.NoMemory result }
{
    finish(sink, NO_MEMORY, Ending::NoMemory).status()
}

/// Carries out a command line: its words, without the program's name. `T` is the store in memory that clients share. It may
/// wait where they do, and else it waits for nobody.
pub fn run<T: Shops, R: Threads + Wait + Sync, S: Source, K: Sink, D: Disk>(
    rt: &R,
    alloc: Global,
    words: &[String],
    source: &mut S,
    sink: &mut K,
    disk: D,
) -> CommandEnded<D>
    // Where the words ask for a replay and the disk opens as a store, the lines of the input are answered as the sequential
    // store does: so it is of what is printed, of how the run ends, and of what the disk holds in the end.
    ensures answers { AskFor (map string_bytes words.now) Command.Replay
        → StatusOfAnswers D.Watched D.Reader.faults (outside S.Source K.Sink source.old sink.old disk)
        (outside S.Source K.Sink source.new sink.new result.disk) result.status }

    // Where they ask for a trial, what is printed is this, to the byte: the answers to all lines before the stop, and then what
    // the store has that is opened on what a crash leaves there. Other endings print a front of that and their last line.
    ensures tries { (stop : ℕ) (outcome : Outcome) (input : List ℕ) → AskFor (map string_bytes words.now) (Command.Trial stop outcome)
        → S.left source.old ≡ Some input
        → StatusOfTrial (trial_of stop input outcome) (K.held sink.old) (K.held sink.new) (S.left source.new) result.status }

    // Each answer of a trial is put before the next line is read.
    ensures tries_in_time { (stop : ℕ) (outcome : Outcome) (input : List ℕ) → AskFor (map string_bytes words.now) (Command.Trial stop outcome)
        → S.left source.old ≡ Some input
        → TriesInTime (trial_of stop input outcome) (K.held sink.old) (K.held sink.new) (S.asked source.new) }

    // Where they ask for a benchmark, the summary of the answers to its lines is printed. Source and disk are left untouched.
    ensures benches { (seed count : ℕ) → AskFor (map string_bytes words.now) (Command.Bench seed count)
        → (source.new ≡ source.old) × (result.disk ≡ disk)
        × StatusOfBench K.Sink (summary_of seed count) sink.old sink.new result.status }

    // Where they ask for clients, the counts of their commits and conflicts are printed, and the sum of all balances. Source and
    // disk are left untouched.
    ensures drives { (clients txns seed : ℕ) → AskFor (map string_bytes words.now) (Command.Drive clients txns seed)
        → (source.new ≡ source.old) × (result.disk ≡ disk)
        × StatusOfDrive K.Sink clients txns seed sink.old sink.new result.status }

    // Where they ask for numbers, it is printed how many were given, from how many leases, and which comes next. Source and disk
    // are left untouched.
    ensures counts { (clients count lease : ℕ) → AskFor (map string_bytes words.now) (Command.Ids clients count lease)
        → (source.new ≡ source.old) × (result.disk ≡ disk)
        × StatusOfIds K.Sink clients count lease sink.old sink.new result.status }

    // What was read is explained by the history at the reader's own number, and that grows by accepted commits alone. This is a law
    // of the sequential store's answers, and says nothing of the body. It stands here so that this contract has the whole headline.
    ensures explained { (s : State) (input : List ℕ) → StartsIn D.Watched disk s
        → AreExplained (exchanges_from s (lines_of input)) }
    ensures explained_in_trial { (input : List ℕ) → AreExplained (exchanges_from begun (lines_of input)) }

    // Where the words aren't plain nothing is opened or read and the usage line is printed, with status 2, or 7 where it
    // can't be. Status 2 comes nowhere else.
    ensures no_usage_line { (command : Commands) → AskFor (map string_bytes words.now) command → result.status ≢ 2 }
    ensures not_plain { AreNotPlain (map string_bytes words.now)
        → (source.new ≡ source.old) × (result.disk ≡ disk)
        × EndsBy K.Sink sink.old sink.new Ending.BadWords result.status }

    // A trial hands the disk back untouched.
    ensures untouched { (stop : ℕ) (outcome : Outcome) → AskFor (map string_bytes words.now) (Command.Trial stop outcome)
        → result.disk ≡ disk }

    // Status 3 comes only by a fault of the disk, or where something failed of which the disk counts no fault: a line's read of an
    // open store's file, a merge's write of a file that was lent to it, or an opening's read of a table. Over a disk on which a run
    // may begin, the disk, or some reader or writer of its kind, has counted a fault then: the disk, where nothing that it gives ever
    // fails. All other statuses but 7 come only without a fault of the disk. A trial never comes to 3: its stop is not reported. Nor do
    // a benchmark and clients.
    ensures no_fault_in_trial { (stop : ℕ) (outcome : Outcome) → AskFor (map string_bytes words.now) (Command.Trial stop outcome)
        → result.status ≢ 3 }
    ensures disk_fault { result.status ≡ 3 → Rose (D.faults disk) (D.faults result.disk)
        ⊎ (FailedToRead (streams S.Source K.Sink source.old sink.old) (streams S.Source K.Sink source.new sink.new)
        ⊎ FailedAtTables D.Watched D.Reader.faults K.Sink source.old source.new disk result.disk sink.old sink.new) }
    ensures reader_fault { (s : State) → StartsIn D.Watched disk s → result.status ≡ 3
        → HasCountedFault D.Watched (beside D.Reader.faults D.Writer.faults) disk result.disk }
    ensures no_disk_fault { result.status ≢ 3 → result.status ≢ 7
        → D.faults result.disk ≡ D.faults disk }

    // In a replay, status 4 comes where reads of the disk refuse it as a store, always but where the disk failed, memory ran
    // out, or the last line couldn't be put. Then no line was read, and the disk wasn't changed. The last line is all that is
    // printed. Else it comes only where a line met damage.
    ensures refused { AskFor (map string_bytes words.now) Command.Replay → result.status ≡ 4
        → (((refusal : Refusal) × IsRefusedRun D.Watched K.Sink disk result.disk sink.old sink.new refusal)
        × (source.new ≡ source.old))
        ⊎ MetDamage (streams S.Source K.Sink source.old sink.old) (streams S.Source K.Sink source.new sink.new) }
    ensures refuses { AskFor (map string_bytes words.now) Command.Replay → (state : DiskState) (read : Image) (refusal : Refusal)
        → D.told disk ≡ Some state → IsRead read state → IsRefused read refusal
        → StatusWithoutOpening D.Watched K.Sink disk result.disk sink.old sink.new refusal result.status
        × (source.new ≡ source.old) }

    // Statuses 6 and 7 come only by faults of the source and of the sink, and the others only without.
    ensures read_fault { result.status ≡ 6
        → Rose (S.faults source.old) (S.faults source.new)
        × (K.faults sink.new ≡ K.faults sink.old) }
    ensures write_fault { result.status ≡ 7 → Rose (K.faults sink.old) (K.faults sink.new) }
    ensures no_stream_fault { result.status < 6
        → (S.faults source.new ≡ S.faults source.old) × (K.faults sink.new ≡ K.faults sink.old) }

    // In a replay, whatever the disk is and holds, each line was answered what the engine's call gave. The run ended as the last call
    // says: by damage with that damage's line and status 4, and by a fault with that of a fault and status 3; or no store was opened,
    // and it says why.
    ensures called { AskFor (map string_bytes words.now) Command.Replay → (ending : HowEnded) × (result.status ≡ status_of ending)
        × RunsFromOpening D.Watched (files_by D.Held.bytes D.Held.size D.Held.named)
        (shares_by D.Held.is_clone D.Held.is_infallible) D.Reader.Reader D.Writer.Writer K.Sink disk (S.left source.old)
        sink.old sink.new ending }

    // There are no other statuses.
    ensures status { (ending : HowEnded) × (result.status ≡ status_of ending) }

    // Over a disk on which a run may begin and a store be opened: however the run ends, and whatever failed, one may be opened there
    // again.
    ensures again { (s : State) → StartsIn D.Watched disk s → StaysOpenable D.Watched disk result.disk }

    // In a replay the status tells of the input over every disk, also where nothing is known of what it holds: after 0 every
    // line was of the language and was answered, and after 1 just those before the bad one.
    ensures input { AskFor (map string_bytes words.now) Command.Replay
        → TellsOfInput (streams S.Source K.Sink source.old sink.old) (streams S.Source K.Sink source.new sink.new)
        result.status }
{
    reads_without_conflict_stay_explained();
    let Ok(command) = command_in(alloc, words) else {
        let status = finish(sink, NO_MEMORY, Ending::NoMemory).status();
        return CommandEnded { status, disk };
    };
    match command {
        Some(Command::Replay) => {
            let Ended { ending, disk } = replay(alloc, source, sink, disk);
            let status = ending.status();
            CommandEnded { status, disk }
        }
        Some(Command::Trial(stop, outcome)) => {
            let status = trial(alloc, source, sink, stop, outcome).status();
            CommandEnded { status, disk }
        }
        Some(Command::Bench(seed, count)) => {
            let status = bench(alloc, sink, seed, count).status();
            CommandEnded { status, disk }
        }
        Some(Command::Drive(clients, txns, seed)) => {
            let status = drive::<T, R, K>(rt, alloc, sink, clients, txns, seed).status();
            CommandEnded { status, disk }
        }
        Some(Command::Ids(clients, count, lease)) => {
            let status = ids::count::<T, R, K>(rt, alloc, sink, clients, count, lease).status();
            CommandEnded { status, disk }
        }
        None => {
            let status = finish(sink, USAGE, Ending::BadWords).status();
            CommandEnded { status, disk }
        }
    }
}
