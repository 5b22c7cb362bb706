//! A script's lines, one after the other.
ghost use Rattle.std.specs.Prelude.{◌≡◌, ◌||◌, Err, false, IfOk, None, Ok, OnOk, Some};
ghost use Rattle.std.specs.Option.{is_some, option_map, option_map_or};
ghost use Rattle.std.specs.Str.{bytes_eq};
ghost use Rattle.vl_disk.specs.Faults.{HasCause};
ghost use Rattle.vl_disk.specs.declared.name.Name.{Name};
ghost use Rattle.vl_script_model.specs.Asking.{AsksForRow};
ghost use Rattle.vl_engine_laws.specs.Shown.{Shown};
ghost use Rattle.vl_script_model.specs.Durable.{CarriesOut};
ghost use Rattle.vl_script_model.specs.Failing.{FailsAt, FailsBeside, ReadsTables, beside};
ghost use Rattle.vl_script_model.specs.Halts.{HaltsByDamage, HaltsByDisk, HaltsByRead, HaltsByReader};
ghost use Rattle.vl_replay.specs.AsCalled.{AnswersAsCalled, AnswersLine};
ghost use Rattle.vl_replay.specs.Handed.{CanHandIn};
ghost use Rattle.vl_replay_laws.specs.Passing.{PassesIn, TellsUsed, name_made};
ghost use Rattle.vl_replay_laws.specs.Replaying.{MakesStep, MergesIn};
ghost use Rattle.vl_replay.specs.Served.{IsUnfailing, RemovesIn, StandsFor, StandsWith, TakesLines, disk_of};
ghost use Rattle.vl_script_model.specs.Sequential.{IsPrinted, State, answer_to, state_after, step_to};
ghost use Rattle.vl_replay_laws.specs.Standing.{open_in};
ghost use Rattle.vl_script_model.specs.Stored.{IsStopped, IsStored};
ghost use Rattle.vl_script_model.specs.declared.fails.Halt.{Halt as Halts};
ghost use Rattle.vl_script_model.specs.declared.fails.Halt.TheVariants as halts;

use crate::replayer::collect::{batch, end, is_passing, move_batch, pick, stats};
use crate::replayer::merge::{install, is_planned, plan};
use crate::replayer::{Replayer, Served};
use std::alloc::AllocError;
use vl_disk::{Disk, HeldFile, Writer};
use vl_replay_laws::{Choice, Open, Passing, Planned, is_taken};
use vl_script::{Answer, Ident, Line};
use vl_script_model::Halt;
use vl_version::Base;

impl<D: Disk> Replayer<D> {
    /// Answers a line. A line that is given no answer is the last one: each line behind it is halted as it was.
    pub fn line(&mut self, line: Line) -> Result<Answer, Halt>
        requires rows { AsksForRow line }
        ensures answer { (s : State) → StandsFor D.Watched D.Writer.Writer D.Held.bytes self.old s
            → IfOk result (λ answer. IsPrinted answer (answer_to s line)) }
        ensures after { (s : State) → StandsFor D.Watched D.Writer.Writer D.Held.bytes self.old s
            → OnOk result (StandsFor D.Watched D.Writer.Writer D.Held.bytes self.new (state_after s line)) }

        // A halt stays: each line behind it is halted so too, and changes nothing.
        ensures halts { (halt : Halts) → result ≡ Err halt → self.new.halted ≡ Some halt }
        ensures goes_on { OnOk result (TakesLines self.new) }
        ensures stays_halted { (halt : Halts) → self.old.halted ≡ Some halt
            → (result ≡ Err halt) × (self.new ≡ self.old) }

        // Over a disk that holds the state: where there is an answer it holds the state behind the line, in which a commit has
        // made two calls and its log is longer by a frame, a rotation three for a new log, a flush five for a table and a
        // longer manifest, a plan or a drain one for each table, an install two for a longer manifest, and a sweep one for each
        // file that it removed. A move that moved something has made two, and the log that takes commits is longer by its frame.
        // However the line ends, a store may be opened on the disk again.
        ensures carries { TakesLines self.old → (s : State) → StandsFor D.Watched D.Writer.Writer D.Held.bytes self.old s
            → CarriesOut D.Watched IsStored Shown IsStopped (disk_of self.old) (disk_of self.new) s (state_after s line) result }

        // Whatever the disk holds, a line that reads is answered what the engine's call gave, and no other one meets damage or a read
        // that fails.
        ensures as_called { TakesLines self.old
            → AnswersAsCalled D.Watched D.Held.bytes (λ r. D.Reader.faults r) D.Writer.Writer self.old self.new line result }

        // What the store has isn't damaged. Only a line that reads tables, or goes on with a pass, asks a reader, which counts its
        // fault.
        ensures sound { TakesLines self.old → (s : State) → StandsFor D.Watched D.Writer.Writer D.Held.bytes self.old s
            → HaltsByRead result → ReadsTables line s }
        ensures undamaged { TakesLines self.old → (s : State) → StandsFor D.Watched D.Writer.Writer D.Held.bytes self.old s
            → HaltsByDamage result → ⊥ }
        ensures fault { TakesLines self.old → (s : State) → StandsFor D.Watched D.Writer.Writer D.Held.bytes self.old s
            → HaltsByReader result → FailsBeside (IsUnfailing D.Watched D.Reader.faults self.old.served)
            (beside D.Reader.faults D.Writer.faults) }
        // Where nothing is to fail beside the disk, nothing is behind it.
        ensures sure { TakesLines self.old → (s : State) → StandsFor D.Watched D.Writer.Writer D.Held.bytes self.old s
            → IsUnfailing D.Watched D.Reader.faults self.old.served
            → OnOk result (IsUnfailing D.Watched D.Reader.faults self.new.served) }
        ensures cause { TakesLines self.old
            → HasCause (D.faults (disk_of self.old)) (D.faults (disk_of self.new)) (HaltsByDisk result) }
        ensures named { (s : State) (name : Name) → TakesLines self.old → StandsFor D.Watched D.Writer.Writer D.Held.bytes self.old s
            → result ≡ Err (halts.Disk name) → FailsAt self.old.served.engine.core.back.manifest.number line s name }
    {
        if let Some(halt) = self.halted {
            return Err(halt);
        }
        match carry_out(&mut self.served, &mut self.planned, &mut self.passing, line) {
            Ok(answer) => Ok(answer),
            Err(halt) => {
                // No line is carried out any more, so what is open is dropped.
                self.planned = None;
                self.passing = None;
                self.halted = Some(halt);
                Err(halt)
            }
        }
    }

    /// The disk. What is open is ended: a merge that waits is abandoned, and a pass.
    pub fn close(self) -> D
        ensures { result ≡ disk_of self }
    {
        let Replayer {
            mut served,
            mut planned,
            mut passing,
            ..
        } = self;
        abandon_all(&mut served, &mut planned, &mut passing);
        served.engine.close()
    }
}

// Abandons the merge that waits, and ends the pass that is open.
fn abandon_all<D: Disk>(
    served: &mut Served<D>,
    planned: &mut Option<Planned<Base<D::Held, D::Reader>, D::Held, D::Writer>>,
    passing: &mut Option<Passing<Base<D::Held, D::Reader>, D::Held>>,
)
    requires { CanHandIn D.Watched D.Writer.Writer served.old.engine.disk served.old.engine.merging planned.old }
    ensures disk { served.new.engine.disk ≡ served.old.engine.disk }
    ensures planned { planned.new ≡ None }
    ensures passing { passing.new ≡ None }
{
    if let Some(Planned { job, .. }) = planned.take() {
        served.engine.abandon(job);
    }
    if let Some(Passing { pass, .. }) = passing.take() {
        served.engine.end_pass(pass);
    }
}

// The name that a line lets stand for something.
fn name_made(line: &Line) -> Option<&Ident>
    ensures { option_map (λ name. name.now) result ≡ name_made line.now }
{
    match line {
        Line::Begin { name }
        | Line::View { name }
        | Line::Plan { name }
        | Line::Drain { name, .. }
        | Line::Pick { name, .. } => Some(name),
        _ => None,
    }
}

// That name, where it stands for something already.
fn name_in_use<D: Disk>(
    served: &Served<D>,
    planned: &Option<Planned<Base<D::Held, D::Reader>, D::Held, D::Writer>>,
    passing: &Option<Passing<Base<D::Held, D::Reader>, D::Held>>,
    line: &Line,
) -> Result<Option<Ident>, AllocError>
    ensures used { (s : State) → StandsWith D.Watched D.Writer.Writer D.Held.bytes served.now planned.now passing.now s
        → IfOk result (TellsUsed s line.now) }
    ensures unnamed { name_made line.now ≡ None → result ≡ Ok None }
{
    let Some(name) = name_made(line) else {
        return Ok(None);
    };
    if !is_used(&served.opens, planned, passing, name.as_slice()) {
        return Ok(None);
    }
    Ok(Some(name.share()?))
}

// Whether a reader, the merge that waits or the pass that is open has this name.
fn is_used<H: HeldFile, R, V, W: Writer>(
    opens: &[Open<H, R>],
    planned: &Option<Planned<V, H, W>>,
    passing: &Option<Passing<V, H>>,
    name: &[u8],
) -> bool
    ensures { result ≡ (is_some (open_in opens.now name.now)
        || (option_map_or (λ waiting. bytes_eq name.now waiting.name) planned.now false
        || option_map_or (λ going. bytes_eq name.now going.name) passing.now false)) }
{
    is_taken(opens, name) || is_planned(planned, name) || is_passing(passing, name)
}

// Carries a line out, by what it asks for.
fn carry_out<D: Disk>(
    served: &mut Served<D>,
    planned: &mut Option<Planned<Base<D::Held, D::Reader>, D::Held, D::Writer>>,
    passing: &mut Option<Passing<Base<D::Held, D::Reader>, D::Held>>,
    line: Line,
) -> Result<Answer, Halt>
    requires rows { AsksForRow line }
    requires handed { CanHandIn D.Watched D.Writer.Writer served.old.engine.disk served.old.engine.merging planned.old }
    ensures makes { (s : State) → StandsWith D.Watched D.Writer.Writer D.Held.bytes served.old planned.old passing.old s
        → MakesStep D.Held.bytes (D.told served.new.engine.disk) served.new.engine.core served.new.opens.items s (step_to s line) result }
    ensures merges { (s : State) → StandsWith D.Watched D.Writer.Writer D.Held.bytes served.old planned.old passing.old s
        → OnOk result (MergesIn D.Writer.Writer D.Held.bytes served.new.engine.merging planned.new (step_to s line).state) }
    ensures passes { (s : State) → StandsWith D.Watched D.Writer.Writer D.Held.bytes served.old planned.old passing.old s
        → OnOk result (PassesIn D.Held.bytes served.new.engine.core served.new.engine.collecting passing.new (step_to s line).state) }
    ensures removes { (s : State) → StandsWith D.Watched D.Writer.Writer D.Held.bytes served.old planned.old passing.old s
        → OnOk result (RemovesIn served.new (step_to s line).state) }
    ensures carries { (s : State) → StandsWith D.Watched D.Writer.Writer D.Held.bytes served.old planned.old passing.old s
        → CarriesOut D.Watched IsStored Shown IsStopped served.old.engine.disk served.new.engine.disk s (state_after s line) result }
    ensures as_called { AnswersLine D.Watched D.Held.bytes (λ r. D.Reader.faults r) D.Writer.Writer served.old served.new passing.old
        line result }
    ensures sound { (s : State) → StandsWith D.Watched D.Writer.Writer D.Held.bytes served.old planned.old passing.old s
        → HaltsByRead result → ReadsTables line s }
    ensures undamaged { (s : State) → StandsWith D.Watched D.Writer.Writer D.Held.bytes served.old planned.old passing.old s
        → HaltsByDamage result → ⊥ }
    ensures fault { (s : State) → StandsWith D.Watched D.Writer.Writer D.Held.bytes served.old planned.old passing.old s
        → HaltsByReader result → FailsBeside (IsUnfailing D.Watched D.Reader.faults served.old)
        (beside D.Reader.faults D.Writer.faults) }
    ensures sure { (s : State) → StandsWith D.Watched D.Writer.Writer D.Held.bytes served.old planned.old passing.old s
        → IsUnfailing D.Watched D.Reader.faults served.old → OnOk result (IsUnfailing D.Watched D.Reader.faults served.new) }
    ensures cause { HasCause (D.faults served.old.engine.disk) (D.faults served.new.engine.disk) (HaltsByDisk result) }
    ensures named { (s : State) (name : Name) → StandsWith D.Watched D.Writer.Writer D.Held.bytes served.old planned.old passing.old s
        → result ≡ Err (halts.Disk name) → FailsAt served.old.engine.core.back.manifest.number line s name }
    ensures handed { OnOk result (CanHandIn D.Watched D.Writer.Writer served.new.engine.disk served.new.engine.merging planned.new) }
{
    if let Some(name) = name_in_use(served, planned, passing, &line)? {
        return Ok(Answer::Taken { name });
    }
    match line {
        Line::Begin { name } => served.begin(name),
        Line::View { name } => served.view(name),
        Line::Get { name, key } => served.read(name, key, false),
        Line::GetTagged { name, key } => served.read(name, key, true),
        Line::GetAt { name, key, number } => served.get_at(name, key, number),
        Line::Set { name, key, value } => served.write(name, key, Some((value, 0))),
        Line::SetTagged {
            name,
            key,
            value,
            tag,
        } => served.write(name, key, Some((value, tag))),
        Line::Delete { name, key } => served.write(name, key, None),
        Line::Scan {
            name,
            low,
            high,
            limit,
            way,
        } => served.scan(name, low, high, limit, way),
        Line::Commit { name } => served.commit(name),
        Line::Drop { name } => Ok(end(served, planned, passing, name)),
        Line::Rotate => served.rotate(),
        Line::Flush => served.flush(),
        Line::Keep { versions } => served.keep(versions),
        Line::Plan { name } => plan(served, planned, Choice::Due, name),
        Line::Drain { name, segment } => plan(served, planned, Choice::LeadsInto(segment), name),
        Line::Install { name } => install(served, planned, name),
        Line::Sweep => served.sweep(),
        Line::Stats => stats(served),
        Line::Pick { name, percent } => pick(served, passing, name, percent),
        Line::Batch { name } => batch(served, passing, name),
        Line::Move { name } => move_batch(served, passing, name),
    }
}
