ghost use Rattle.std.specs.Prelude.{◌≡◌, true, IfOk};
ghost use Rattle.vl_space.specs.Collecting.{FitsLooks, IsPicked, pick_outcome};
ghost use Rattle.vl_engine_model.specs.Decides.{Answered};
ghost use Rattle.vl_engine_model.specs.Relocation as layout;
ghost use Rattle.vl_engine_model.specs.Rulings.EndPass.{end_pass_ruling};
ghost use Rattle.vl_engine_model.specs.Rulings.Pick.{PickAnswer, pick_ruling};
ghost use Rattle.vl_engine_model.specs.Rulings.Stats.{stats_ruling};
ghost use Rattle.vlstore.specs.Entries.{end_pass_entry, pick_entry};
ghost use Rattle.vlstore.specs.Knowing.{GoesOn, IsOwnPass, KeepsOwnMerge, Looked, Stepped, WhereTold};
ghost use Rattle.vlstore.specs.Lists.{layout_by};
ghost use Rattle.vlstore.specs.Standing.{NeverFails};

use super::Session;
use super::finish::finish;
use std::marker::Brand;
use std::sync::Wait;
use vl_collect::Pass;
use vl_disk::{Disk, NoMemory};
use vl_engine::PickFail;
use vl_engine_model::SegmentStat;
use vl_version::Base;

impl<D: Disk> Session<D> {
    /// What there is of each log that isn't retired, and how many bytes of it tables lead to, by rising
    /// numbers. `NoMemory`: try again.
    pub fn stats<R: Wait>(&mut self, rt: &R) -> Result<Vec<SegmentStat>, NoMemory>
        ensures on { GoesOn self.old self.new }
        ensures own { self.new.own ≡ self.old.own }
        ensures looks { self.old.tells ≡ true
            → Looked self.old self.new (λ l h. IfOk result (λ stats. stats.items ≡ (stats_ruling l h).answer)) }
    {
        let lock = &*self.lock;
        let mut turn = lock.take(rt, &mut self.token);
        let locked = turn.value();
        let answer = locked.engine.stats();
        finish::<_, Brand, _, _, _>(lock, rt, turn, &(), &answer, false);
        answer
    }

    /// Begins a pass of this session over the sealed log with the greatest share of garbage, of those that may
    /// be collected and of which at least so many per cent, 1 to 99, are garbage. It is open until this
    /// session's `end_pass`. What the pass itself does, `next`, goes on beside the lock. `InvalidRequest`:
    /// another percentage. `Rejected(n)`: a pass over log n is open, of this session or another. `NoRewrite`:
    /// no log is worth it. `NoMemory`: all is as before.
    pub fn pick<R: Wait>(
        &mut self,
        rt: &R,
        percent: u8,
    ) -> Result<Pass<Base<D::Held, D::Reader>, D::Held>, PickFail>
        ensures on { GoesOn self.old self.new }
        ensures merge { KeepsOwnMerge self.old self.new }
        ensures steps { self.old.tells ≡ true → (picked : PickAnswer)
            × Stepped (NeverFails D.faults D.Reader.faults D.Writer.faults) self.old self.new
            (λ l h. pick_ruling l h percent) (pick_entry percent) (pick_outcome picked result)
            × IfOk result (λ pass. IsPicked D.Held.bytes pass (layout_by self.new.origin self.new.seen) picked) }
        // It is the session's own, and look-ups by a reader that keeps no block yet are told.
        ensures own { self.old.tells ≡ true → IfOk result (λ pass. IsOwnPass self.new pass.log.number) }
        ensures looks { self.old.tells ≡ true → IfOk result (FitsLooks D.Held.bytes) }
    {
        let lock = &*self.lock;
        let mut turn = lock.take(rt, &mut self.token);
        let locked = turn.value();
        let answer = locked.engine.pick(percent);
        let enters = answer.is_ok();
        finish::<_, Brand, _, _, _>(lock, rt, turn, &percent, &answer, enters);
        answer
    }

    /// Ends a pass of this session, at any point of it. It wants no memory.
    pub fn end_pass<R: Wait>(&mut self, rt: &R, pass: Pass<Base<D::Held, D::Reader>, D::Held>)
        requires { WhereTold D.told self.old (IsOwnPass self.old pass.log.number) }
        ensures on { GoesOn self.old self.new }
        ensures merge { KeepsOwnMerge self.old self.new }
        ensures steps { self.old.tells ≡ true → (p : layout.Pass)
            → Stepped (NeverFails D.faults D.Reader.faults D.Writer.faults) self.old self.new
            (λ l h. end_pass_ruling l h p) end_pass_entry (Answered tt) }
    {
        let lock = &*self.lock;
        let mut turn = lock.take(rt, &mut self.token);
        let locked = turn.value();
        locked.engine.end_pass(pass);
        finish::<_, Brand, _, _, _>(lock, rt, turn, &(), &(), true);
    }
}
