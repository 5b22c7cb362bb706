ghost use Rattle.std.specs.Prelude.{◌≡◌, ◌<◌, ℕ, ◌↔◌, ◌⊎◌, ◌==◌, ◌||◌, nat_lt, None, Some, Err, IfErr, IfOk};
ghost use Rattle.vl_engine_laws.specs.MayStep.{Fits};
ghost use Rattle.vl_engine_laws.specs.Represents.{Represents, StandsFor};
ghost use Rattle.vl_space.specs.Collecting.{BeginsOver, BeginsPass, Collects, FitsLooks, IsPicked, LacksLog, Passes};
ghost use Rattle.vl_space.specs.Collecting.{pick_outcome};
ghost use Rattle.vl_engine_laws.specs.Lent.{StandsOpen};
ghost use Rattle.vl_space.specs.declared.fails.PickFail.TheVariants as fails;
ghost use Rattle.vl_engine_model.specs.Decides.{Decides, as_before, no_effects};
ghost use Rattle.vl_engine_model.specs.Relocation as layout;
ghost use Rattle.vl_engine_model.specs.Rulings.EndPass.{end_pass_ruling};
ghost use Rattle.vl_engine_model.specs.Rulings.Pick.{pick_ruling};
ghost use Rattle.vl_engine_model.specs.Rulings.Stats.{stats_ruling};
ghost use Rattle.vl_engine_model.specs.declared.layout.Layout.{Layout};
ghost use Rattle.vl_model.specs.History.{History};
ghost use Rattle.vl_space.specs.Pinning.{PinsPass, pass_pinned};
ghost use Rattle.vl_space.specs.Removing.{Removes};

use crate::{Engine, PickFail};
use std::alloc::AllocError;
use vl_collect::Pass;
use vl_disk::{Disk, NoMemory};
use vl_engine_model::SegmentStat;
use vl_space::{head_of, shared_log, tally_of};
use vl_version::Base;

impl<D: Disk> Engine<D> {
    /// What there is of each log that isn't retired, and how many bytes of it tables lead to, by rising numbers. No file is asked.
    /// Until the first pick, rotation, flush or install of a run it costs a look at the footer of each table, and then none.
    pub fn stats(&self) -> Result<Vec<SegmentStat>, NoMemory>
        ensures { (h : History) (l : Layout) → StandsFor D.Held.bytes self.now.core h l
            → Collects self.now.core self.now.collecting l → IfOk result (λ stats. stats.items ≡ (stats_ruling l h).answer) }
    {
        let active = (self.core.front.log.number, self.core.front.log.length);
        let stats = match &self.collecting.tally {
            Some(tally) => tally.stats(self.alloc, active)?,
            None => tally_of(self.alloc, &self.core)?.stats(self.alloc, active)?,
        };
        Ok(stats)
    }

    /// Begins a pass over the sealed log with the greatest share of garbage, of those that may be collected and have at least so
    /// many per cent of it, which is open from then on until it is given back to `end_pass`. What the pass itself does, `next`,
    /// goes on beside the engine's other calls. No file is asked.
    pub fn pick(&mut self, percent: u8) -> Result<Pass<Base<D::Held, D::Reader>, D::Held>, PickFail>
        // It is picked as the ruling has it.
        ensures stands { (h : History) (l : Layout) → StandsOpen D.Held.bytes self.old.core self.old.merging h l
            → Collects self.old.core self.old.collecting l
            → Decides (StandsOpen D.Held.bytes self.new.core self.new.merging) h l (pick_ruling l h percent) (as_before l l)
            (pick_outcome (pick_ruling l h percent).answer result) no_effects }
        ensures represents { (h : History) (l : Layout) → Represents D.Held.bytes self.old.core (D.told self.old.disk) h l
            → Collects self.old.core self.old.collecting l
            → Decides (Represents D.Held.bytes self.new.core (D.told self.new.disk)) h l (pick_ruling l h percent) (as_before l l)
            (pick_outcome (pick_ruling l h percent).answer result) no_effects }

        // What steps on files ask stays.
        ensures fits { (h : History) (l : Layout) → StandsFor D.Held.bytes self.old.core h l
            → Collects self.old.core self.old.collecting l → Fits (D.told self.old.disk) self.old.core h l
            → Decides (Fits (D.told self.new.disk) self.new.core) h l (pick_ruling l h percent) (as_before l l)
            (pick_outcome (pick_ruling l h percent).answer result) no_effects }

        // What is kept of live bytes stays, and the pass is the one that is open.
        ensures collects { (h : History) (l : Layout) → StandsFor D.Held.bytes self.old.core h l
            → Collects self.old.core self.old.collecting l
            → Decides (λ _ l. Collects self.new.core self.new.collecting l) h l (pick_ruling l h percent) (as_before l l)
            (pick_outcome (pick_ruling l h percent).answer result) no_effects }

        // What is kept of which files can go is what the layout has: its epoch is pinned.
        ensures removes { (h : History) (l : Layout) → StandsFor D.Held.bytes self.old.core h l
            → Collects self.old.core self.old.collecting l → Removes self.old.core self.old.removing l
            → Decides (λ _ l. Removes self.new.core self.new.removing l) h l (pick_ruling l h percent) (as_before l l)
            (pick_outcome (pick_ruling l h percent).answer result) no_effects }
        ensures stock { self.new.removing.stock ≡ self.old.removing.stock }
        ensures removing { PinsPass self.old.core.back.epoch self.old.removing self.new.removing result }

        // The pass does what the ruling's says, and has given nothing yet.
        ensures pass { (h : History) (l : Layout) → StandsFor D.Held.bytes self.old.core h l
            → Collects self.old.core self.old.collecting l
            → IfOk result (λ pass. IsPicked D.Held.bytes pass (pick_ruling l h percent).layout (pick_ruling l h percent).answer) }

        // A reader that keeps no block that doesn't stand, as `reader` gives, fits its sources: look-ups by it are told.
        ensures looks { (h : History) (l : Layout) → StandsFor D.Held.bytes self.old.core h l
            → IfOk result (FitsLooks D.Held.bytes) }

        // It goes over what the engine has now.
        ensures version { IfOk result (λ pass. pass.base.version ≡ self.old.core.version) }

        // Whatever the disk tells: a pass begins only where none is open, and the one that is open is named; and for no other number
        // the request is one that isn't valid.
        ensures invalid { result ≡ Err fails.InvalidRequest ↔ (percent ≡ 0) ⊎ (99 < percent) }
        ensures rejected { (segment : ℕ) → result ≡ Err (fails.Rejected segment) → self.old.collecting.passing ≡ Some segment }
        ensures open { IfOk result (λ _. self.old.collecting.passing ≡ None) }

        // In memory nothing else changes, and the disk isn't asked.
        ensures passing { Passes self.old.collecting.passing self.new.collecting.passing result }
        ensures core { self.new.core ≡ self.old.core }
        ensures disk { self.new.disk ≡ self.old.disk }
        ensures merging { self.new.merging ≡ self.old.merging }
    {
        if is_unfair(percent) {
            return Err(PickFail::InvalidRequest);
        }
        if let Some(segment) = self.collecting.passing {
            return Err(PickFail::Rejected(segment));
        }
        let Ok(()) = self.collecting.ready(self.alloc, &self.core) else {
            return Err(PickFail::NoMemory);
        };
        match self.collecting.best(percent, head_of(&self.core)) {
            None => Err(PickFail::NoRewrite),
            Some(number) => self.begin_pass(number),
        }
    }

    // Begins a pass over the log with this number.
    fn begin_pass(
        &mut self,
        number: u32,
    ) -> Result<Pass<Base<D::Held, D::Reader>, D::Held>, PickFail>
        ensures begins { IfOk result (BeginsOver D.Held.bytes self.old.core number) }
        ensures failed { IfErr result (LacksLog self.old.core number) }
        ensures collecting { BeginsPass self.old.collecting self.new.collecting number result }
        ensures removing { PinsPass self.old.core.back.epoch self.old.removing self.new.removing result }
        ensures core { self.new.core ≡ self.old.core }
        ensures disk { self.new.disk ≡ self.old.disk }
        ensures merging { self.new.merging ≡ self.old.merging }
    {
        // Which logs are sealed is known of the version, so it has that one.
        let Some(log) = self.core.version.log(number) else {
            return Err(PickFail::NoRewrite);
        };
        let Ok(log) = shared_log(log) else {
            return Err(PickFail::NoMemory);
        };
        let Ok(version) = self.core.version.share() else {
            return Err(PickFail::NoMemory);
        };
        self.collecting.passing = Some(number);
        self.removing.pins.pass = Some(self.core.back.epoch);
        Ok(Pass::new(Base::new(version), log))
    }

    /// Ends a pass. It wants no memory, and no file is asked.
    pub fn end_pass(&mut self, pass: Pass<Base<D::Held, D::Reader>, D::Held>)
        ensures stands { (h : History) (l : Layout) (p : layout.Pass) → StandsOpen D.Held.bytes self.old.core self.old.merging h l
            → StandsOpen D.Held.bytes self.new.core self.new.merging h (end_pass_ruling l h p).layout }
        ensures represents { (h : History) (l : Layout) (p : layout.Pass)
            → Represents D.Held.bytes self.old.core (D.told self.old.disk) h l
            → Represents D.Held.bytes self.new.core (D.told self.new.disk) h (end_pass_ruling l h p).layout }
        ensures fits { (h : History) (l : Layout) (p : layout.Pass) → Fits (D.told self.old.disk) self.old.core h l
            → Fits (D.told self.new.disk) self.new.core h (end_pass_ruling l h p).layout }
        ensures collects { (h : History) (l : Layout) (p : layout.Pass) → Collects self.old.core self.old.collecting l
            → Collects self.new.core self.new.collecting (end_pass_ruling l h p).layout }

        ensures removes { (h : History) (l : Layout) (p : layout.Pass) → Removes self.old.core self.old.removing l
            → Removes self.new.core self.new.removing (end_pass_ruling l h p).layout }
        ensures removing { self.new.removing ≡ pass_pinned None self.old.removing }

        // None is open then, and all else is as before.
        ensures collecting { self.new.collecting ≡ record self.old.collecting { passing = None } }
        ensures core { self.new.core ≡ self.old.core }
        ensures disk { self.new.disk ≡ self.old.disk }
        ensures merging { self.new.merging ≡ self.old.merging }
    {
        let _ = pass;
        self.collecting.passing = None;
        self.removing.pins.pass = None;
    }
}

// Whether no log may be asked for with so many per cent of garbage.
fn is_unfair(percent: u8) -> bool
    ensures { result ≡ ((percent == 0) || nat_lt 99 percent) }
{
    percent == 0 || percent > 99
}
