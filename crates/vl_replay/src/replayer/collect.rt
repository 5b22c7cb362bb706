//! Lines that have to do with where space comes back from: statistics, and those of passes.
ghost use Rattle.std.specs.Prelude.{◌≡◌, Err, false, IfOk, map, None, Ok, OnOk, Option};
ghost use Rattle.std.specs.Option.{option_map_or};
ghost use Rattle.std.specs.Str.{bytes_eq};
ghost use Rattle.vl_engine_laws.specs.Carries.{StaysUntold};
ghost use Rattle.vl_engine_laws.specs.Shown.{Shown};
ghost use Rattle.vl_disk.specs.Faults.{HasCause};
ghost use Rattle.vl_engine_laws.specs.Lent.{Opens};
ghost use Rattle.vl_disk.specs.declared.name.Name.{Name};
ghost use Rattle.vl_disk.specs.declared.name.Name.TheVariants as names;
ghost use Rattle.vl_engine_model.specs.Store.Dispatch.{batch_by, drop_by, move_by, pick_as, step_of};
ghost use Rattle.vl_engine_model.specs.Store.Lines as store_lines;
ghost use Rattle.vl_engine_model.specs.Store.Things.{thing_of};
ghost use Rattle.vl_script_model.specs.Durable.{CarriesOut};
ghost use Rattle.vl_script_model.specs.Failing.{FailsBeside, MovesRecords, SeeksRecords};
ghost use Rattle.vl_script_model.specs.Halts.{HaltsByDamage, HaltsByDisk, HaltsByRead, HaltsByReader};
ghost use Rattle.vl_replay.specs.Handed.{CanHandIn, KeepsLent};
ghost use Rattle.vl_replay_laws.specs.Passing.{PassesIn, TakesPass, halt_at};
ghost use Rattle.vl_replay_laws.specs.Replaying.{MakesStep, MergesIn, OnlyNoMemory, state_by};
ghost use Rattle.vl_replay.specs.Served.{ReadSurely, RemovesIn, ServesFor, StandsPassing, StandsWith};
ghost use Rattle.vl_replay.specs.AsCalled.{AnswersBatch, AnswersMove};
ghost use Rattle.vl_script_model.specs.Sequential.{State, segment_line};
ghost use Rattle.vl_script_model.specs.Stored.{IsStopped, IsStored};
ghost use Rattle.vl_script_model.specs.declared.fails.Halt.TheVariants as halts;
ghost use Rattle.vl_steps.specs.Relocating.{at};

use crate::replayer::{Served, merge};
use std::alloc::{AllocError, Global};
use vl_collect::Pass;
use vl_disk::{Disk, ReadFault};
use vl_engine::{MoveFail, PickFail};
use vl_engine_model::SegmentStat;
use vl_replay_laws::{Passing, Planned};
use vl_script::{Answer, Ident, SegmentLine};
use vl_script_model::Halt;
use vl_version::Base;

/// Whether the pass that is open has this name.
pub(super) fn is_passing<V, H>(passing: &Option<Passing<V, H>>, name: &[u8]) -> bool
    ensures { result ≡ option_map_or (λ going. bytes_eq name.now going.name) passing.now false }
{
    match passing {
        Some(going) => going.is_named(name),
        None => false,
    }
}

/// The pass that is open, taken out, where it has this name.
fn take_pass<V, H>(passing: &mut Option<Passing<V, H>>, name: &[u8]) -> Option<Pass<V, H>>
    ensures { TakesPass name.now passing.old passing.new result }
{
    if !is_passing(passing, name) {
        return None;
    }
    match passing.take() {
        Some(Passing { pass, .. }) => Some(pass),
        None => None,
    }
}

/// Tells what there is of each log, and how much of it is live.
pub(super) fn stats<D: Disk>(served: &Served<D>) -> Result<Answer, Halt>
    ensures makes { (s : State) (passing : Option (Passing (Base D.Held D.Reader) D.Held))
        → StandsPassing D.Watched D.Held.bytes served.now passing s
        → MakesStep D.Held.bytes (D.told served.now.engine.disk) served.now.engine.core served.now.opens.items s
        (step_of s.store store_lines.Stats) result }
    ensures fails { OnlyNoMemory result }
{
    let stats = served.engine.stats()?;
    let segments = segment_lines(served.alloc, &stats)?;
    Ok(Answer::Segments { segments })
}

// What is printed of each log.
fn segment_lines(alloc: Global, stats: &[SegmentStat]) -> Result<Vec<SegmentLine>, AllocError>
    ensures { IfOk result (λ lines. lines.items ≡ map segment_line stats.now) }
{
    let mut lines = Vec::new(alloc);
    for stat in stats {
        lines.push(SegmentLine {
            segment: stat.segment,
            bytes: stat.bytes,
            live: stat.live,
        })?;
    }
    Ok(lines)
}

/// Begins a pass of this name, which is free, over the log with the greatest share of garbage.
pub(super) fn pick<D: Disk>(
    served: &mut Served<D>,
    passing: &mut Option<Passing<Base<D::Held, D::Reader>, D::Held>>,
    name: Ident,
    percent: u8,
) -> Result<Answer, Halt>
    ensures makes { (s : State) → StandsPassing D.Watched D.Held.bytes served.old passing.old s → thing_of s.store name ≡ None
        → MakesStep D.Held.bytes (D.told served.new.engine.disk) served.new.engine.core served.new.opens.items s
        (pick_as s.store name percent (thing_of s.store name)) result }
    ensures passes { (s : State) → StandsPassing D.Watched D.Held.bytes served.old passing.old s → thing_of s.store name ≡ None
        → OnOk result (PassesIn D.Held.bytes served.new.engine.core served.new.engine.collecting passing.new
        (pick_as s.store name percent (thing_of s.store name)).state) }
    ensures removes { (s : State) → StandsPassing D.Watched D.Held.bytes served.old passing.old s → thing_of s.store name ≡ None
        → RemovesIn served.old s.store
        → OnOk result (RemovesIn served.new (pick_as s.store name percent (thing_of s.store name)).state) }
    ensures carries { (s : State) → StandsPassing D.Watched D.Held.bytes served.old passing.old s → thing_of s.store name ≡ None
        → CarriesOut D.Watched IsStored Shown IsStopped served.old.engine.disk served.new.engine.disk s
        (state_by s (pick_as s.store name percent (thing_of s.store name))) result }
    ensures things { served.new.opens ≡ served.old.opens }
    ensures fails { OnlyNoMemory result }
    ensures disk { served.new.engine.disk ≡ served.old.engine.disk }
    ensures merging { served.new.engine.merging ≡ served.old.engine.merging }
{
    match served.engine.pick(percent) {
        Ok(pass) => {
            let number = u64::from(pass.segment());
            *passing = Some(Passing {
                name,
                pass,
                batch: None,
            });
            Ok(Answer::Number { number })
        }
        Err(PickFail::InvalidRequest) => Ok(Answer::Invalid),
        Err(PickFail::Rejected(segment)) => Ok(Answer::Rejected { segment }),
        Err(PickFail::NoRewrite) => Ok(Answer::NoRewrite),
        Err(PickFail::NoMemory) => Err(Halt::NoMemory),
    }
}

/// Finds the next batch of the pass of this name. It waits then for its move.
pub(super) fn batch<D: Disk>(
    served: &Served<D>,
    passing: &mut Option<Passing<Base<D::Held, D::Reader>, D::Held>>,
    name: Ident,
) -> Result<Answer, Halt>
    ensures makes { (s : State) → StandsPassing D.Watched D.Held.bytes served.now passing.old s
        → MakesStep D.Held.bytes (D.told served.now.engine.disk) served.now.engine.core served.now.opens.items s
        (batch_by s.store name (thing_of s.store name)) result }
    ensures passes { (s : State) → StandsPassing D.Watched D.Held.bytes served.now passing.old s
        → OnOk result (PassesIn D.Held.bytes served.now.engine.core served.now.engine.collecting passing.new
        (batch_by s.store name (thing_of s.store name)).state) }
    ensures sound { (s : State) → StandsPassing D.Watched D.Held.bytes served.now passing.old s → HaltsByRead result
        → SeeksRecords (thing_of s.store name) }
    ensures undamaged { (s : State) → StandsPassing D.Watched D.Held.bytes served.now passing.old s → HaltsByDamage result → ⊥ }
    ensures fault { HaltsByReader result → FailsBeside (D.gives_steady served.now.engine.disk) D.Reader.faults }
    ensures not_the_disk { HaltsByDisk result → ⊥ }
    // Whatever the disk holds, it is answered what the pass gave.
    ensures as_called { AnswersBatch D.Held.bytes passing.old name result }
{
    let Some(going) = passing else {
        return Ok(Answer::Unknown { name });
    };
    if !going.is_named(name.as_slice()) {
        return Ok(Answer::Unknown { name });
    }
    if going.batch.is_some() {
        return Ok(Answer::Taken { name });
    }
    let mut reader = served.engine.reader()?;
    match going
        .pass
        .next(served.alloc, &mut reader.files, &mut reader.looks)
    {
        Ok(Some(batch)) => {
            let count = batch.len() as u64;
            going.batch = Some(batch);
            Ok(Answer::FoundRecords { count })
        }
        Ok(None) => Ok(Answer::End),
        Err(fault) => Err(halt_at(fault)),
    }
}

// How a line ends whose reading failed.
fn halt_at(fault: ReadFault) -> Halt
    ensures { result ≡ halt_at fault }
{
    match fault {
        ReadFault::NoMemory => Halt::NoMemory,
        ReadFault::Disk { name } => Halt::Read { name },
        ReadFault::Damaged { name, place } => Halt::Damaged { name, place },
    }
}

/// Writes what of the waiting batch of the pass of this name is still live to the log that takes commits. It waits on where it
/// was refused.
pub(super) fn move_batch<D: Disk>(
    served: &mut Served<D>,
    passing: &mut Option<Passing<Base<D::Held, D::Reader>, D::Held>>,
    name: Ident,
) -> Result<Answer, Halt>
    ensures makes { (s : State) → StandsPassing D.Watched D.Held.bytes served.old passing.old s
        → MakesStep D.Held.bytes (D.told served.new.engine.disk) served.new.engine.core served.new.opens.items s
        (move_by s.store name (thing_of s.store name)) result }
    ensures passes { (s : State) → StandsPassing D.Watched D.Held.bytes served.old passing.old s
        → OnOk result (PassesIn D.Held.bytes served.new.engine.core served.new.engine.collecting passing.new
        (move_by s.store name (thing_of s.store name)).state) }
    ensures carries { (s : State) → StandsPassing D.Watched D.Held.bytes served.old passing.old s
        → CarriesOut D.Watched IsStored Shown IsStopped served.old.engine.disk served.new.engine.disk s
        (state_by s (move_by s.store name (thing_of s.store name))) result }
    ensures removes { (s : State) → StandsPassing D.Watched D.Held.bytes served.old passing.old s → RemovesIn served.old s.store
        → OnOk result (RemovesIn served.new (move_by s.store name (thing_of s.store name)).state) }
    ensures opens { (s : State) → StandsPassing D.Watched D.Held.bytes served.old passing.old s
        → OnOk result (Opens served.new.engine.merging (move_by s.store name (thing_of s.store name)).state.layout.job) }
    ensures sound { (s : State) → StandsPassing D.Watched D.Held.bytes served.old passing.old s → HaltsByRead result
        → MovesRecords (thing_of s.store name) }
    ensures undamaged { (s : State) → StandsPassing D.Watched D.Held.bytes served.old passing.old s → HaltsByDamage result → ⊥ }
    ensures fault { (s : State) → StandsPassing D.Watched D.Held.bytes served.old passing.old s
        → HaltsByReader result → FailsBeside (D.gives_steady served.old.engine.disk) D.Reader.faults }
    ensures things { served.new.opens ≡ served.old.opens }
    ensures cause { HasCause (D.faults served.old.engine.disk) (D.faults served.new.engine.disk) (HaltsByDisk result) }
    ensures named { (s : State) (file : Name) → StandsPassing D.Watched D.Held.bytes served.old passing.old s
        → result ≡ Err (halts.Disk file) → file ≡ names.Log s.store.layout.active.number }
    // A merge that is open is told of what was moved, and else stays.
    ensures merging { KeepsLent served.old.engine.merging served.new.engine.merging }
    ensures untold { OnOk result (StaysUntold (D.told served.old.engine.disk) (D.told served.new.engine.disk)) }
    ensures steady { D.gives_steady served.old.engine.disk → D.gives_steady served.new.engine.disk }
    // Whatever the disk holds, it is answered what the move came to.
    ensures as_called { AnswersMove D.Watched D.Held.bytes passing.old (λ r. D.Reader.faults r)
        (at served.old.engine.disk served.old.engine.core served.old.engine.merging)
        (at served.new.engine.disk served.new.engine.core served.new.engine.merging) name result }
{
    let Some(going) = passing else {
        return Ok(Answer::Unknown { name });
    };
    if !going.is_named(name.as_slice()) {
        return Ok(Answer::Unknown { name });
    }
    let Some(batch) = going.batch.take() else {
        return Ok(Answer::Idle);
    };
    let mut reader = served.engine.reader()?;
    match served
        .engine
        .relocate(&going.pass, batch, &mut reader.looks)
    {
        Ok(count) => Ok(Answer::Moved {
            count: u64::from(count),
        }),
        Err(MoveFail::Full { batch, .. }) => {
            going.batch = Some(batch);
            Ok(Answer::Full)
        }
        Err(MoveFail::Exhausted { batch, counter }) => {
            going.batch = Some(batch);
            Ok(Answer::Exhausted { counter })
        }
        Err(MoveFail::NoMemory(_)) => Err(Halt::NoMemory),
        Err(MoveFail::Disk { name: file }) => Err(Halt::Disk { name: file }),
        Err(MoveFail::Read { name: file }) => Err(Halt::Read { name: file }),
        Err(
            MoveFail::Damaged {
                name: file,
                place,
                ..
            },
        ) => Err(Halt::Damaged { name: file, place }),
        Err(MoveFail::Halted { name: file }) => Err(Halt::Halted { name: file }),
    }
}

/// Ends what the name stands for, and nothing of it stays.
pub(super) fn end<D: Disk>(
    served: &mut Served<D>,
    planned: &mut Option<Planned<Base<D::Held, D::Reader>, D::Held, D::Writer>>,
    passing: &mut Option<Passing<Base<D::Held, D::Reader>, D::Held>>,
    name: Ident,
) -> Answer
    requires { CanHandIn D.Watched D.Writer.Writer served.old.engine.disk served.old.engine.merging planned.old }
    ensures makes { (s : State) → StandsWith D.Watched D.Writer.Writer D.Held.bytes served.old planned.old passing.old s
        → MakesStep D.Held.bytes (D.told served.new.engine.disk) served.new.engine.core served.new.opens.items s
        (drop_by s.store name (thing_of s.store name)) (Ok result) }
    ensures merges { (s : State) → StandsWith D.Watched D.Writer.Writer D.Held.bytes served.old planned.old passing.old s
        → MergesIn D.Writer.Writer D.Held.bytes served.new.engine.merging planned.new (drop_by s.store name (thing_of s.store name)).state }
    ensures passes { (s : State) → StandsWith D.Watched D.Writer.Writer D.Held.bytes served.old planned.old passing.old s
        → PassesIn D.Held.bytes served.new.engine.core served.new.engine.collecting passing.new
        (drop_by s.store name (thing_of s.store name)).state }
    ensures removes { (s : State) → StandsWith D.Watched D.Writer.Writer D.Held.bytes served.old planned.old passing.old s
        → RemovesIn served.new (drop_by s.store name (thing_of s.store name)).state }
    ensures carries { (s : State) → StandsWith D.Watched D.Writer.Writer D.Held.bytes served.old planned.old passing.old s
        → CarriesOut D.Watched IsStored Shown IsStopped served.old.engine.disk served.new.engine.disk s
        (state_by s (drop_by s.store name (thing_of s.store name))) (Ok result) }
    ensures sure { (s : State) → StandsWith D.Watched D.Writer.Writer D.Held.bytes served.old planned.old passing.old s
        → ReadSurely D.Reader.faults served.old → ReadSurely D.Reader.faults served.new }
    ensures disk { served.new.engine.disk ≡ served.old.engine.disk }
    ensures handed { CanHandIn D.Watched D.Writer.Writer served.new.engine.disk served.new.engine.merging planned.new }
{
    match take_pass(passing, name.as_slice()) {
        Some(pass) => {
            served.engine.end_pass(pass);
            Answer::Done
        }
        None => merge::end(served, planned, name),
    }
}
