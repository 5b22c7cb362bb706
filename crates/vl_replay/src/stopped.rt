//! A script over a disk that stops, and the store that is opened on what a crash then leaves.
ghost use Rattle.std.specs.Prelude.{◌≡◌, ◌≢◌, ◌↔◌, ℕ, List, [], Some, IfErr, IfOk, IsErr, IsTrue, OnOk};
ghost use Rattle.vl_disk.specs.Faults.{HasCause};
ghost use Rattle.vl_mem.specs.CrashImage.{crash_image};
ghost use Rattle.vl_mem.specs.StoppingDisk.{state_on};
ghost use Rattle.vl_mem.specs.contracts.stopping_disk.StoppingDiskWatched.TheImpl as memory;
ghost use Rattle.vl_mem.specs.contracts.steady_writer.SteadyWriterWriter.TheImpl as writing;
ghost use Rattle.vl_model.specs.History.{History, last_number};
ghost use Rattle.vl_script_model.specs.Endings.{TheSink, TheSource, CountsFaultsOf, culprit_of, status_of};
ghost use Rattle.vl_engine.specs.Opening.{IsFault};
ghost use Rattle.vl_script_model.specs.Reopens.{Reopens};
ghost use Rattle.vl_replay.specs.Served.{StandsFor, TakesLines, disk_of};
ghost use Rattle.vl_mem.specs.declared.outcome.Outcome.{Outcome as Outcomes};
ghost use Rattle.vl_script_model.specs.Trial.{EndsTrial, PutsInTime, TriesInTime};
ghost use Rattle.vl_script_model.specs.Trying.{ComesTo, IsOnTrial, PassesAndReopens, ReopensAs, StopsOpening, all_told, trial_of};

use crate::contents::store_text;
use crate::ended::{Ended, NO_MEMORY, READ_FAULT, finish};
use crate::refuse::end_unopened;
use crate::replayer::Replayer;
use crate::run::answer_lines;
use std::alloc::Global;
use vl_disk::Failed;
use vl_engine::Engine;
use vl_io::{Sink, Source};
use vl_mem::{Outcome, SteadyReader, StoppingDisk};
use vl_model::MAX_ROOM;
use vl_recover::{OpenError, OpenFail};
use vl_script_model::{Ending, OnFault};

/// Tries a script: answers the lines of a source over an empty disk in memory, of which each changing call behind so many
/// fails. The line that meets the stop prints nothing, and the rest of the source is passed over. Then the store is opened
/// that a crash leaves, and its number and contents are printed.
pub fn trial<S: Source, K: Sink>(
    alloc: Global,
    source: &mut S,
    sink: &mut K,
    stop: u32,
    outcome: Outcome,
) -> Ending
    // So it is of what is printed, to the byte. No stop is reported as a fault of the disk.
    ensures ends { (input : List ℕ) → S.left source.old ≡ Some input
        → EndsTrial (trial_of stop input outcome) (K.held sink.old) (K.held sink.new) (S.left source.new) result }
    // Each answer is put before the next line is read.
    ensures in_time { (input : List ℕ) → S.left source.old ≡ Some input
        → TriesInTime (trial_of stop input outcome) (K.held sink.old) (K.held sink.new) (S.asked source.new) }
    ensures no_disk_fault { status_of result ≢ 3 }
    ensures not_the_words { result ≢ Ending.BadWords }
    ensures source_faults { CountsFaultsOf TheSource (Some result) (S.faults source.old) (S.faults source.new) }
    ensures sink_faults { CountsFaultsOf TheSink (Some result) (K.faults sink.old) (K.faults sink.new) }
{
    let Ended { ending, disk } = run_to_stop(alloc, source, sink, stop);
    if is_complete(ending) {
        return reopen(alloc, sink, disk, outcome);
    }
    if has_stopped(ending) {
        return pass_and_reopen(alloc, source, sink, disk, outcome);
    }
    ending
}

fn is_complete(ending: Ending) -> bool
    ensures { IsTrue result ↔ (ending ≡ Ending.Complete) }
{
    matches!(ending, Ending::Complete)
}

fn has_stopped(ending: Ending) -> bool
    ensures { IsTrue result ↔ (ending ≡ Ending.Stopped) }
{
    matches!(ending, Ending::Stopped)
}

// Answers the lines up to the stop, or to the end.
fn run_to_stop<S: Source, K: Sink>(
    alloc: Global,
    source: &mut S,
    sink: &mut K,
    stop: u32,
) -> Ended<StoppingDisk>
    ensures comes { (input : List ℕ) → S.left source.old ≡ Some input
        → ComesTo (trial_of stop input) (K.held sink.old) (K.held sink.new) (S.left source.new) result.disk result.ending }
    ensures in_time { (input : List ℕ) (outcome : Outcomes) → S.left source.old ≡ Some input
        → PutsInTime (trial_of stop input outcome) (K.held sink.old) (K.held sink.new) (S.asked source.new) }
    ensures no_disk_fault { result.ending ≢ Ending.DiskFault }
    ensures no_read_fault { result.ending ≢ Ending.ReaderFault }
    ensures not_the_words { result.ending ≢ Ending.BadWords }
    ensures source_faults { CountsFaultsOf TheSource (Some result.ending) (S.faults source.old) (S.faults source.new) }
    ensures sink_faults { CountsFaultsOf TheSink (Some result.ending) (K.faults sink.old) (K.faults sink.new) }
{
    match begin(alloc, stop) {
        Ok(replayer) => answer_lines(alloc, source, sink, replayer, OnFault::Stop),
        Err(OpenFail { why, disk, .. }) => {
            if is_fault(&why) {
                return Ended {
                    ending: Ending::Stopped,
                    disk,
                };
            }
            let ending = end_unopened(alloc, sink, why);
            Ended { ending, disk }
        }
    }
}

// Whether the disk failed.
fn is_fault(why: &OpenError) -> bool
    ensures { IsTrue result ↔ IsFault (Some why.now) }
{
    matches!(why, OpenError::Disk { .. })
}

// Opens a store on an empty disk that stops behind so many changing calls.
fn begin(
    alloc: Global,
    stop: u32,
) -> Result<Replayer<StoppingDisk>, OpenFail<StoppingDisk, SteadyReader>>
    ensures opened { IfOk result
        (λ replayer. IsOnTrial stop (StandsFor memory.ghosts writing.ghosts all_told replayer) (disk_of replayer)) }
    ensures goes_on { IfOk result TakesLines }
    ensures stopped { IfErr result (λ fail. StopsOpening stop fail.why fail.disk) }
{
    Replayer::new(alloc, StoppingDisk::new(alloc, stop as u64))
}

// Reads the rest of the source, and then opens what a crash leaves.
fn pass_and_reopen<S: Source, K: Sink>(
    alloc: Global,
    source: &mut S,
    sink: &mut K,
    disk: StoppingDisk,
    outcome: Outcome,
) -> Ending
    ensures reopens { (rest : List ℕ) (h : History) → S.left source.old ≡ Some rest
        → Reopens (crash_image outcome (state_on disk)) h (last_number h)
        → PassesAndReopens K.Sink (S.left source.new) h (last_number h) sink.old sink.new result }
    ensures no_disk_fault { status_of result ≢ 3 }
    ensures not_the_words { result ≢ Ending.BadWords }
    ensures source_faults { CountsFaultsOf TheSource (Some result) (S.faults source.old) (S.faults source.new) }
    ensures sink_faults { CountsFaultsOf TheSink (Some result) (K.faults sink.old) (K.faults sink.new) }
{
    match pass_over(source) {
        Ok(()) => reopen(alloc, sink, disk, outcome),
        Err(_) => finish(sink, READ_FAULT, Ending::ReadFault),
    }
}

/// The most that is read at a time of what is passed over.
const PASSED_BYTES: usize = 4096;

// Reads a source to its end, and keeps nothing.
fn pass_over<S: Source>(source: &mut S) -> Result<(), Failed>
    ensures left { (rest : List ℕ) → S.left source.old ≡ Some rest → OnOk result (S.left source.new ≡ Some []) }
    ensures cause { HasCause (S.faults source.old) (S.faults source.new) (IsErr result) }
{
    let mut passed = [0; PASSED_BYTES];
    while source.next(&mut passed)? > 0 {}
    Ok(())
}

// Opens the store that a crash leaves, and prints its number and contents.
fn reopen<K: Sink>(alloc: Global, sink: &mut K, disk: StoppingDisk, outcome: Outcome) -> Ending
    ensures reopens { (h : History) → Reopens (crash_image outcome (state_on disk)) h (last_number h)
        → ReopensAs K.Sink h (last_number h) sink.old sink.new result }
    ensures no_disk_fault { status_of result ≢ 3 }
    ensures not_the_source { culprit_of result ≢ TheSource }
    ensures not_the_words { result ≢ Ending.BadWords }
    ensures sink_faults { CountsFaultsOf TheSink (Some result) (K.faults sink.old) (K.faults sink.new) }
{
    let Ok(disk) = disk.crash(outcome) else {
        return finish(sink, NO_MEMORY, Ending::NoMemory);
    };
    match Engine::open(alloc, disk, MAX_ROOM) {
        Ok(engine) => match store_text(alloc, engine) {
            Some(text) => finish(sink, &text, Ending::Complete),
            // Nothing lives yet beside the view, no reader of this disk fails, and what is shown isn't damaged.
            None => finish(sink, NO_MEMORY, Ending::NoMemory),
        },
        Err(OpenFail { why, .. }) => {
            // No call of this disk is to fail, so what couldn't be read found no memory.
            if is_fault(&why) {
                return finish(sink, NO_MEMORY, Ending::NoMemory);
            }
            end_unopened(alloc, sink, why)
        }
    }
}
