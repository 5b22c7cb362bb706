//! A benchmark: generated lines over an empty disk in memory, and a summary of the answers to them.
ghost use Rattle.std.specs.Prelude.{◌≡◌, Some, IfErr, IfOk};
ghost use Rattle.std.specs.List.{AllByRecursion};
ghost use Rattle.std.specs.Option.{ForSome};
ghost use Rattle.vl_disk.specs.Faults.{HasCause};
ghost use Rattle.vl_mem.specs.contracts.steady_writer.SteadyWriterWriter.TheImpl as writing;
ghost use Rattle.vl_mem.specs.contracts.sure_disk.SureDiskWatched.TheImpl as memory;
ghost use Rattle.vl_recover.specs.declared.fails.OpenError.TheVariants as why;
ghost use Rattle.vl_replay.specs.Benchmark.{PrintsSummary, exchanges_of, summary_of, summed};
ghost use Rattle.vl_replay.specs.Served.{StandsFor, TakesLines, disk_of};
ghost use Rattle.vl_script.specs.Summary.{none_counted, summary_text};
ghost use Rattle.vl_script_model.specs.Asking.{AsksForRow};
ghost use Rattle.vl_script_model.specs.Endings.{CountsFaultsOf, TheSink};
ghost use Rattle.vl_script_model.specs.Failing.{ReaderFailed, beside};
ghost use Rattle.vl_script_model.specs.Halts.{HaltsByDamage, HaltsByDisk, HaltsByReader};
ghost use Rattle.vl_script_model.specs.Sequential.{State};
ghost use Rattle.vl_script_model.specs.Trial.{begun};
ghost use Rattle.vl_script_model.specs.Trying.{all_told};
ghost use Rattle.vl_script_model.specs.declared.fails.Halt.TheVariants as halts;

use crate::ended::{NO_MEMORY, finish};
use crate::replayer::Replayer;
use std::alloc::Global;
use vl_disk::Disk;
use vl_io::Sink;
use vl_mem::{SteadyReader, SureDisk};
use vl_recover::OpenFail;
use vl_script::{Gen, Summary, print_summary};
use vl_script_model::{Ending, Halt};

/// Answers the lines that a seed and a number of rounds give, over an empty disk in memory, and prints a summary of the answers.
pub fn bench<K: Sink>(alloc: Global, sink: &mut K, seed: u64, count: u32) -> Ending
    // It is the summary of what the sequential store answers to these lines. It is printed, unless memory runs out or the sink
    // fails.
    ensures prints { PrintsSummary K.Sink (summary_of seed count) sink.old sink.new result }
    ensures sink_faults { CountsFaultsOf TheSink (Some result) (K.faults sink.old) (K.faults sink.new) }
{
    match summary_text(alloc, seed, count) {
        Some(text) => finish(sink, &text, Ending::Complete),
        None => finish(sink, NO_MEMORY, Ending::NoMemory),
    }
}

// What is printed; none where memory ran out, which is all that may happen.
fn summary_text(alloc: Global, seed: u64, count: u32) -> Option<Vec<u8>>
    ensures { ForSome result (λ text. text.items ≡ summary_text (summary_of seed count)) }
{
    let Ok(replayer) = begin(alloc) else {
        return None;
    };
    let Ok(summary) = answer_rounds(alloc, replayer, seed, count) else {
        return None;
    };
    let mut text = Vec::new(alloc);
    match print_summary(&mut text, summary) {
        Ok(()) => Some(text),
        Err(_) => None,
    }
}

// Opens a store on an empty disk of which nothing fails.
fn begin(alloc: Global) -> Result<Replayer<SureDisk>, OpenFail<SureDisk, SteadyReader>>
    ensures opened { IfOk result (λ replayer. StandsFor memory.ghosts writing.ghosts all_told replayer begun) }
    ensures goes_on { IfOk result TakesLines }
    ensures refused { IfErr result (λ fail. fail.why ≡ why.NoMemory) }
{
    Replayer::new(alloc, SureDisk::new(alloc))
}

// Answers the lines of so many rounds over such a store, and sums up the answers.
fn answer_rounds(
    alloc: Global,
    replayer: Replayer<SureDisk>,
    seed: u64,
    count: u32,
) -> Result<Summary, Halt>
    requires stands { StandsFor memory.ghosts writing.ghosts all_told replayer begun }
    requires goes_on { TakesLines replayer }
    ensures summary { IfOk result (λ summary. summary ≡ summary_of seed count) }
    ensures refused { IfErr result (λ halt. halt ≡ halts.NoMemory) }
{
    let mut replayer = replayer;
    sum_up(&mut replayer, Gen::new(alloc, seed, count))
}

// Answers lines, one after the other, and sums up the answers.
fn sum_up<D: Disk>(replayer: &mut Replayer<D>, lines: Gen) -> Result<Summary, Halt>
    requires goes_on { TakesLines replayer.old }
    requires rows { AllByRecursion AsksForRow lines }
    ensures summary { (s : State) → StandsFor D.Watched D.Writer.Writer D.Held.bytes replayer.old s
        → IfOk result (λ summary. summary ≡ summed none_counted (exchanges_of s lines)) }

    // What the store has isn't damaged. A fault is counted by the disk, or by what reads or writes its files.
    ensures undamaged { (s : State) → StandsFor D.Watched D.Writer.Writer D.Held.bytes replayer.old s → HaltsByDamage result → ⊥ }
    ensures fault { (s : State) → StandsFor D.Watched D.Writer.Writer D.Held.bytes replayer.old s
        → HaltsByReader result → ReaderFailed (beside D.Reader.faults D.Writer.faults) }
    ensures cause { HasCause (D.faults (disk_of replayer.old)) (D.faults (disk_of replayer.new)) (HaltsByDisk result) }
{
    let mut lines = lines;
    let mut summary = Summary::none();
    while let Some(line) = lines.next()? {
        let commits = line.is_commit();
        let answer = replayer.line(line)?;
        summary.count(commits, &answer);
    }
    Ok(summary)
}
