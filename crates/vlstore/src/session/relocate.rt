ghost use Rattle.std.specs.Prelude.{◌≡◌, true, List, Some, is_some};
ghost use Rattle.vl_engine_laws.specs.Lasts.{Lasts};
ghost use Rattle.vl_engine_laws.specs.MoveFacts.{AreThere};
ghost use Rattle.vl_engine_laws.specs.Represents.{StandsFor};
ghost use Rattle.vl_steps.specs.Relocating.{IsDamaged, MoveNotes, batch_back, move_effects, move_outcome};
ghost use Rattle.vl_engine_model.specs.Decides.{Decides, Failed, as_before};
ghost use Rattle.vl_engine_model.specs.Relocation as layout;
ghost use Rattle.vl_engine_model.specs.Relocation.{Candidate};
ghost use Rattle.vl_engine_model.specs.Rulings.Relocate.{relocate_ruling};
ghost use Rattle.vl_engine_model.specs.declared.file_name.FileName.{FileName};
ghost use Rattle.vl_engine_model.specs.declared.layout.Layout.{Layout};
ghost use Rattle.vl_engine_model.specs.declared.lock_history.LockStep.{LockStep};
ghost use Rattle.vl_model.specs.History.{History};
ghost use Rattle.vlstore.specs.Counting.{IsMoveCounted};
ghost use Rattle.vlstore.specs.Entries.{done_by, move_done, relocate_entry};
ghost use Rattle.vlstore.specs.Handing.{HasLasted};
ghost use Rattle.vlstore.specs.Knowing.{GoesOn, KeepsOwnMerge, Stepped, WhereTold};
ghost use Rattle.vlstore.specs.Standing.{IsWhole, NeverFails, parts};

use super::Session;
use super::finish::finish;
use std::marker::Brand;
use std::snapshot::Snapshot;
use std::sync::Wait;
use vl_collect::{Batch, Pass};
use vl_disk::Disk;
use vl_engine::{Engine, MoveFail};
use vl_version::Base;

impl<D: Disk> Session<D> {
    /// Writes those records of a batch, which a pass of this session gave, that still count to the log that
    /// takes commits, in one synced frame, and answers how many these were. Readers see no change. `Full`,
    /// `Exhausted`, `NoMemory` and `Damaged` hand the batch back: behind `Full` call `rotate`, and try again.
    /// Behind all other answers it is used up. `Read { name }` (a look-up failed) and `Disk { name }` halt the
    /// store, with the same contents; `Halted { name }`: it is halted.
    pub fn relocate<R: Wait>(
        &mut self,
        rt: &R,
        pass: &Pass<Base<D::Held, D::Reader>, D::Held>,
        batch: Batch,
    ) -> Result<u32, MoveFail>
        requires lasts { WhereTold D.told self.old (HasLasted self.old D.Held.bytes pass.now.log) }
        requires there { WhereTold D.told self.old (AreThere D.Held.bytes pass.now.log batch) }
        ensures on { GoesOn self.old self.new }
        ensures merge { KeepsOwnMerge self.old self.new }
        ensures steps { self.old.tells ≡ true → (p : layout.Pass) → p.segment ≡ pass.now.log.number
            → Stepped (NeverFails D.faults D.Reader.faults D.Writer.faults) self.old self.new
            (λ l h. relocate_ruling l h p batch) (relocate_entry p batch) (move_outcome result) }
        ensures undamaged { self.old.tells ≡ true → IsDamaged result → ⊥ }
        ensures back { (back : List Candidate) → batch_back result ≡ Some back → back ≡ batch }
        // Over any disk, it fails only where that was counted.
        ensures cause { IsMoveCounted D.faults (λ r. D.Reader.faults r) result }
    {
        let segment = pass.segment();
        let moved = Snapshot::of(&batch);
        let asked = (segment, moved);
        let lock = &*self.lock;
        let mut turn = lock.take(rt, &mut self.token);
        let locked = turn.value();
        let answer = move_now(&mut locked.engine, pass, batch);
        let enters = has_moved(&answer);
        finish::<_, Brand, _, _, _>(lock, rt, turn, &asked, &answer, enters);
        answer
    }
}

// Moves what of a batch still counts, by look-ups that keep no block of before.
fn move_now<D: Disk>(
    engine: &mut Engine<D>,
    pass: &Pass<Base<D::Held, D::Reader>, D::Held>,
    batch: Batch,
) -> Result<u32, MoveFail>
    ensures whole { (h : History) (l : Layout) (p : layout.Pass)
        → IsWhole D.Held.bytes (parts (D.told engine.old.disk) engine.old.core engine.old.merging engine.old.collecting
        engine.old.removing) h l → p.segment ≡ pass.now.log.number → Lasts D.Held.bytes pass.now.log l
        → AreThere D.Held.bytes pass.now.log batch
        → Decides (IsWhole D.Held.bytes (parts (D.told engine.new.disk) engine.new.core engine.new.merging
        engine.new.collecting engine.new.removing)) h l (relocate_ruling l h p batch) (as_before l l) (move_outcome result)
        (move_effects result) }
    ensures cause { NeverFails D.faults D.Reader.faults D.Writer.faults
        → (name : FileName) → move_outcome result ≡ Failed name → ⊥ }
    ensures undamaged { (h : History) (l : Layout) → StandsFor D.Held.bytes engine.old.core h l
        → Lasts D.Held.bytes pass.now.log l → AreThere D.Held.bytes pass.now.log batch → IsDamaged result → ⊥ }
    ensures back { (back : List Candidate) → batch_back result ≡ Some back → back ≡ batch }
    ensures counted { IsMoveCounted D.faults (λ r. D.Reader.faults r) result }
    ensures merging { MoveNotes engine.old.core.back.epoch engine.old.merging engine.new.merging result }
{
    match engine.reader() {
        Ok(mut reader) => engine.relocate(pass, batch, &mut reader.looks),
        Err(_) => Err(MoveFail::NoMemory(batch)),
    }
}

// Whether the layout was changed.
fn has_moved(answer: &Result<u32, MoveFail>) -> bool
    ensures { (next : Layout) (failed : LockStep × Layout)
        → result ≡ is_some (done_by (move_done next) failed (move_outcome answer.now)) }
{
    match answer {
        Ok(count) => *count > 0,
        Err(fail) => matches!(fail, MoveFail::Read { .. } | MoveFail::Disk { .. }),
    }
}
