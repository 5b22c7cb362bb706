//! Lines of merges.
ghost use Rattle.std.specs.Prelude.{◌≡◌, false, Err, IfOk, None, Ok, OnOk, Some};
ghost use Rattle.std.specs.Option.{ForSome, is_some, option_map_or};
ghost use Rattle.std.specs.Str.{bytes_eq};
ghost use Rattle.vl_disk.specs.Faults.{HasCause};
ghost use Rattle.vl_disk.specs.declared.name.Name.{Name};
ghost use Rattle.vl_compact.specs.Laid.{AreBoth};
ghost use Rattle.vl_compact.specs.Progress.{IsNew};
ghost use Rattle.vl_engine_laws.specs.MayStep.{Fits};
ghost use Rattle.vl_engine_laws.specs.Represents.{Represents};
ghost use Rattle.vl_engine_laws.specs.Shown.{Shown};
ghost use Rattle.vl_space.specs.Collecting.{Collects};
ghost use Rattle.vl_steps.specs.Merging.{FitsReaders, HasMerge, OpensMerge, plan_outcome};
ghost use Rattle.vl_steps.specs.Planning.{PlansWhere};
ghost use Rattle.vl_engine_laws.specs.Lent.{StandsOpen};
ghost use Rattle.vl_space.specs.Removing.{Removes};
ghost use Rattle.vl_engine_model.specs.Decides.{Decides, as_before, no_effects};
ghost use Rattle.vl_engine_model.specs.Store.Dispatch.{drop_by};
ghost use Rattle.vl_engine_model.specs.Store.Things.{thing_of};
ghost use Rattle.vl_engine_model.specs.declared.layout.Layout.{Layout};
ghost use Rattle.vl_model.specs.History.{History};
ghost use Rattle.vl_replay_laws.specs.Choosing.{chosen, line_for};
ghost use Rattle.vl_script_model.specs.Durable.{CarriesOut};
ghost use Rattle.vl_script_model.specs.Failing.{FailsAt, FailsBeside, HasTables, beside};
ghost use Rattle.vl_script_model.specs.Halts.{HaltsByDamage, HaltsByDisk, HaltsByRead, HaltsByReader, ReadsWell};
ghost use Rattle.vl_replay.specs.AsCalled.{AnswersPlan, can_merge};
ghost use Rattle.vl_replay.specs.Handed.{CanHandIn};
ghost use Rattle.vl_replay_laws.specs.Passing.{NamesNoPass};
ghost use Rattle.vl_replay_laws.specs.Replaying.{MakesStep, MergesIn, TakesPlanned, state_by};
ghost use Rattle.vl_replay.specs.Served.{ReadSurely, RemovesIn, StandsMerging};
ghost use Rattle.vl_script_model.specs.Sequential.{State, state_after, step_to};
ghost use Rattle.vl_script_model.specs.Stored.{IsStopped, IsStored};
ghost use Rattle.vl_script_model.specs.declared.fails.Halt.TheVariants as halts;
ghost use Rattle.vl_script.specs.declared.line.Line.TheVariants as lines;

use crate::replayer::Served;
use crate::tables::make_tables;
use vl_compact::Job;
use vl_disk::{Disk, HeldFile, NoMemory, Writer};
use vl_engine::{Engine, InstallFail};
use vl_replay_laws::{Choice, Planned};
use vl_script::{Answer, Ident};
use vl_script_model::Halt;
use vl_version::Base;

/// Whether the merge that waits has this name.
pub(super) fn is_planned<V, H: HeldFile, W: Writer>(
    planned: &Option<Planned<V, H, W>>,
    name: &[u8],
) -> bool
    ensures { result ≡ option_map_or (λ waiting. bytes_eq name.now waiting.name) planned.now false }
{
    match planned {
        Some(waiting) => waiting.is_named(name),
        None => false,
    }
}

/// The merge that waits, taken out, where it has this name.
fn take_planned<V, H: HeldFile, W: Writer>(
    planned: &mut Option<Planned<V, H, W>>,
    name: &[u8],
) -> Option<Job<V, H, W>>
    ensures { TakesPlanned name.now planned.old planned.new result }
{
    if !is_planned(planned, name) {
        return None;
    }
    match planned.take() {
        Some(Planned { job, .. }) => Some(job),
        None => None,
    }
}

/// Ends what the name stands for, unless it is a pass, and nothing of it stays.
pub(super) fn end<D: Disk>(
    served: &mut Served<D>,
    planned: &mut Option<Planned<Base<D::Held, D::Reader>, D::Held, D::Writer>>,
    name: Ident,
) -> Answer
    requires { CanHandIn D.Watched D.Writer.Writer served.old.engine.disk served.old.engine.merging planned.old }
    ensures makes { (s : State) → StandsMerging D.Watched D.Writer.Writer D.Held.bytes served.old planned.old s → NamesNoPass name s
        → MakesStep D.Held.bytes (D.told served.new.engine.disk) served.new.engine.core served.new.opens.items s
        (drop_by s.store name (thing_of s.store name)) (Ok result) }
    ensures merges { (s : State) → StandsMerging D.Watched D.Writer.Writer D.Held.bytes served.old planned.old s → NamesNoPass name s
        → MergesIn D.Writer.Writer D.Held.bytes served.new.engine.merging planned.new (drop_by s.store name (thing_of s.store name)).state }
    ensures removes { (s : State) → StandsMerging D.Watched D.Writer.Writer D.Held.bytes served.old planned.old s → NamesNoPass name s
        → RemovesIn served.old s.store → RemovesIn served.new (drop_by s.store name (thing_of s.store name)).state }
    ensures carries { (s : State) → StandsMerging D.Watched D.Writer.Writer D.Held.bytes served.old planned.old s → NamesNoPass name s
        → CarriesOut D.Watched IsStored Shown IsStopped served.old.engine.disk served.new.engine.disk s
        (state_by s (drop_by s.store name (thing_of s.store name))) (Ok result) }
    ensures sure { (s : State) → StandsMerging D.Watched D.Writer.Writer D.Held.bytes served.old planned.old s
        → ReadSurely D.Reader.faults served.old → ReadSurely D.Reader.faults served.new }
    ensures collecting { served.new.engine.collecting ≡ served.old.engine.collecting }
    ensures logs { served.new.engine.core.version.behind.logs ≡ served.old.engine.core.version.behind.logs }
    ensures disk { served.new.engine.disk ≡ served.old.engine.disk }
    ensures handed { CanHandIn D.Watched D.Writer.Writer served.new.engine.disk served.new.engine.merging planned.new }
{
    match take_planned(planned, name.as_slice()) {
        Some(job) => {
            served.engine.abandon(job);
            Answer::Done
        }
        None => served.end(name),
    }
}

/// Plans the merge of these tables, under this name, which is free, and makes its tables in files that the engine lends. It waits
/// then for its install.
/// Where it stops before it has all of them, it is abandoned.
pub(super) fn plan<D: Disk>(
    served: &mut Served<D>,
    planned: &mut Option<Planned<Base<D::Held, D::Reader>, D::Held, D::Writer>>,
    choice: Choice,
    name: Ident,
) -> Result<Answer, Halt>
    requires { CanHandIn D.Watched D.Writer.Writer served.old.engine.disk served.old.engine.merging planned.old }
    ensures makes { (s : State) → StandsMerging D.Watched D.Writer.Writer D.Held.bytes served.old planned.old s
        → thing_of s.store name ≡ None
        → MakesStep D.Held.bytes (D.told served.new.engine.disk) served.new.engine.core served.new.opens.items s
        (step_to s (line_for choice name)) result }
    ensures merges { (s : State) → StandsMerging D.Watched D.Writer.Writer D.Held.bytes served.old planned.old s
        → thing_of s.store name ≡ None
        → OnOk result (MergesIn D.Writer.Writer D.Held.bytes served.new.engine.merging planned.new
        (step_to s (line_for choice name)).state) }
    ensures carries { (s : State) → StandsMerging D.Watched D.Writer.Writer D.Held.bytes served.old planned.old s
        → thing_of s.store name ≡ None
        → CarriesOut D.Watched IsStored Shown IsStopped served.old.engine.disk served.new.engine.disk s
        (state_after s (line_for choice name)) result }
    ensures removes { (s : State) → StandsMerging D.Watched D.Writer.Writer D.Held.bytes served.old planned.old s
        → thing_of s.store name ≡ None → RemovesIn served.old s.store
        → OnOk result (RemovesIn served.new (step_to s (line_for choice name)).state) }
    // A read, or a write beside the disk, fails only where tables are merged. What it reads isn't damaged.
    ensures sound { (s : State) → StandsMerging D.Watched D.Writer.Writer D.Held.bytes served.old planned.old s
        → thing_of s.store name ≡ None
        → HaltsByRead result → HasTables s }
    ensures undamaged { (s : State) → StandsMerging D.Watched D.Writer.Writer D.Held.bytes served.old planned.old s
        → thing_of s.store name ≡ None
        → HaltsByDamage result → ⊥ }
    ensures fault { (s : State) → StandsMerging D.Watched D.Writer.Writer D.Held.bytes served.old planned.old s
        → HaltsByReader result
        → FailsBeside (D.gives_steady served.old.engine.disk) (beside D.Reader.faults D.Writer.faults) }
    ensures things { served.new.opens ≡ served.old.opens }
    ensures steady { D.gives_steady served.old.engine.disk → D.gives_steady served.new.engine.disk }
    ensures cause { HasCause (D.faults served.old.engine.disk) (D.faults served.new.engine.disk) (HaltsByDisk result) }
    ensures named { (s : State) (file : Name) → StandsMerging D.Watched D.Writer.Writer D.Held.bytes served.old planned.old s
        → thing_of s.store name ≡ None
        → result ≡ Err (halts.Disk file) → FailsAt served.old.engine.core.back.manifest.number (line_for choice name) s file }
    // Whatever the disk holds, it is idle only where there is no merge to plan, and halted by what reading for its merge met.
    ensures as_called { AnswersPlan D.Held.bytes (λ r. D.Reader.faults r) D.Writer.Writer
        (can_merge D.Held.size choice served.old.engine.core.version) served.old.engine.merging served.old.engine.core.version result }
    ensures collecting { served.new.engine.collecting ≡ served.old.engine.collecting }
    ensures logs { served.new.engine.core.version.behind.logs ≡ served.old.engine.core.version.behind.logs }
    ensures handed { OnOk result (CanHandIn D.Watched D.Writer.Writer served.new.engine.disk served.new.engine.merging planned.new) }
{
    if planned.is_some() {
        return Ok(Answer::Idle);
    }
    let Some(job) = choose(&mut served.engine, choice)? else {
        return Ok(Answer::Idle);
    };
    let mut job = job;
    match make_tables(served.alloc, &mut served.engine, &mut job) {
        Ok(None) => {
            let number = job.kept_count();
            *planned = Some(Planned { name, job });
            Ok(Answer::Number { number })
        }
        Ok(Some(counter)) => {
            served.engine.abandon(job);
            Ok(Answer::Exhausted { counter })
        }
        Err(halt) => {
            served.engine.abandon(job);
            Err(halt)
        }
    }
}

// Has the engine plan the merge of these tables.
fn choose<D: Disk>(
    engine: &mut Engine<D>,
    choice: Choice,
) -> Result<Option<Job<Base<D::Held, D::Reader>, D::Held, D::Writer>>, NoMemory>
    ensures stands { (h : History) (l : Layout) → StandsOpen D.Held.bytes engine.old.core engine.old.merging h l
        → Decides (StandsOpen D.Held.bytes engine.new.core engine.new.merging) h l (chosen choice l h) (as_before l l)
        (plan_outcome (chosen choice l h).answer result) no_effects }
    ensures represents { (h : History) (l : Layout) → Represents D.Held.bytes engine.old.core (D.told engine.old.disk) h l
        → StandsOpen D.Held.bytes engine.old.core engine.old.merging h l
        → Decides (Represents D.Held.bytes engine.new.core (D.told engine.new.disk)) h l (chosen choice l h) (as_before l l)
        (plan_outcome (chosen choice l h).answer result) no_effects }
    ensures fits { (h : History) (l : Layout) → StandsOpen D.Held.bytes engine.old.core engine.old.merging h l
        → Fits (D.told engine.old.disk) engine.old.core h l
        → Decides (Fits (D.told engine.new.disk) engine.new.core) h l (chosen choice l h) (as_before l l)
        (plan_outcome (chosen choice l h).answer result) no_effects }
    ensures removes { (h : History) (l : Layout) → StandsOpen D.Held.bytes engine.old.core engine.old.merging h l
        → Removes engine.old.core engine.old.removing l
        → Decides (λ _ l. Removes engine.new.core engine.new.removing l) h l (chosen choice l h) (as_before l l)
        (plan_outcome (chosen choice l h).answer result) no_effects }
    ensures job { (h : History) (l : Layout) → StandsOpen D.Held.bytes engine.old.core engine.old.merging h l
        → IfOk result (λ job. AreBoth (HasMerge D.Writer.Writer D.Held.bytes) job (chosen choice l h).answer) }
    ensures new { IfOk result (λ job. ForSome job IsNew) }
    ensures looks { (h : History) (l : Layout) → StandsOpen D.Held.bytes engine.old.core engine.old.merging h l
        → IfOk result (λ job. ForSome job (FitsReaders D.Held.bytes)) }
    // It is one of what the engine has; and it is planned exactly where none is open and there is one, whatever stands in the tables.
    ensures base { IfOk result (λ job. ForSome job (λ job. job.base.version ≡ engine.old.core.version)) }
    ensures there { PlansWhere (can_merge D.Held.size choice engine.old.core.version) engine.old.merging result }
    ensures merging { OpensMerge engine.old.merging engine.new.merging result }
    ensures core { engine.new.core ≡ engine.old.core }
    ensures disk { engine.new.disk ≡ engine.old.disk }
    ensures collecting { engine.new.collecting ≡ engine.old.collecting }
{
    match choice {
        Choice::Due => engine.plan(),
        Choice::LeadsInto(segment) => engine.drain(segment),
    }
}

/// Puts the tables of the merge of this name into the place of those that it merged. It has ended then, whatever is answered.
pub(super) fn install<D: Disk>(
    served: &mut Served<D>,
    planned: &mut Option<Planned<Base<D::Held, D::Reader>, D::Held, D::Writer>>,
    name: Ident,
) -> Result<Answer, Halt>
    requires { CanHandIn D.Watched D.Writer.Writer served.old.engine.disk served.old.engine.merging planned.old }
    ensures makes { (s : State) → StandsMerging D.Watched D.Writer.Writer D.Held.bytes served.old planned.old s
        → MakesStep D.Held.bytes (D.told served.new.engine.disk) served.new.engine.core served.new.opens.items s
        (step_to s (lines.Install name)) result }
    ensures merges { (s : State) → StandsMerging D.Watched D.Writer.Writer D.Held.bytes served.old planned.old s
        → OnOk result (MergesIn D.Writer.Writer D.Held.bytes served.new.engine.merging planned.new (step_to s (lines.Install name)).state) }
    ensures carries { (s : State) → StandsMerging D.Watched D.Writer.Writer D.Held.bytes served.old planned.old s
        → CarriesOut D.Watched IsStored Shown IsStopped served.old.engine.disk served.new.engine.disk s
        (state_after s (lines.Install name)) result }
    ensures sound { (s : State) → StandsMerging D.Watched D.Writer.Writer D.Held.bytes served.old planned.old s → HaltsByRead result → ⊥ }
    // It reads nothing.
    ensures reads_well { ReadsWell result }
    ensures things { served.new.opens ≡ served.old.opens }
    ensures steady { D.gives_steady served.old.engine.disk → D.gives_steady served.new.engine.disk }
    ensures cause { HasCause (D.faults served.old.engine.disk) (D.faults served.new.engine.disk) (HaltsByDisk result) }
    ensures named { (s : State) (file : Name) → StandsMerging D.Watched D.Writer.Writer D.Held.bytes served.old planned.old s
        → result ≡ Err (halts.Disk file) → FailsAt served.old.engine.core.back.manifest.number (lines.Install name) s file }
    ensures collects { (s : State) → StandsMerging D.Watched D.Writer.Writer D.Held.bytes served.old planned.old s
        → Collects served.old.engine.core served.old.engine.collecting s.store.layout
        → OnOk result (Collects served.new.engine.core served.new.engine.collecting (step_to s (lines.Install name)).state.layout) }
    ensures removes { (s : State) → StandsMerging D.Watched D.Writer.Writer D.Held.bytes served.old planned.old s
        → Collects served.old.engine.core served.old.engine.collecting s.store.layout → RemovesIn served.old s.store
        → OnOk result (RemovesIn served.new (step_to s (lines.Install name)).state) }
    ensures handed { OnOk result (CanHandIn D.Watched D.Writer.Writer served.new.engine.disk served.new.engine.merging planned.new) }
{
    let Some(job) = take_planned(planned, name.as_slice()) else {
        return Ok(Answer::Unknown { name });
    };
    match served.engine.install(job) {
        Ok(()) => Ok(Answer::Done),
        Err(InstallFail::Raced { key, .. }) => Ok(Answer::Raced { key }),
        Err(InstallFail::Exhausted(counter)) => Ok(Answer::Exhausted { counter }),
        Err(InstallFail::NoMemory(job)) => {
            served.engine.abandon(job);
            Err(Halt::NoMemory)
        }
        Err(InstallFail::Disk { name: file }) => Err(Halt::Disk { name: file }),
        Err(InstallFail::Halted { name: file }) => Err(Halt::Halted { name: file }),
    }
}
