// Laws of tallies: each is the contract of a function that does nothing.
ghost use Rattle.std.specs.Prelude.{◌≡◌, ℕ, List, Some, [], ◌∷◌};
ghost use Rattle.std.specs.List.{filter};
ghost use Rattle.vl_model.specs.History.{History};
ghost use Rattle.vl_model.specs.Winners.{Logs};
ghost use Rattle.vl_engine_model.specs.Jobs.{Made};
ghost use Rattle.vl_engine_model.specs.Levels.{is_among};
ghost use Rattle.vl_engine_model.specs.Relocation.{Candidate, Pass};
ghost use Rattle.vl_engine_model.specs.Ruling.{Stepped};
ghost use Rattle.vl_engine_model.specs.Rulings.Abandon.{abandon_ruling};
ghost use Rattle.vl_engine_model.specs.Rulings.Begin.{begin_ruling};
ghost use Rattle.vl_engine_model.specs.Rulings.Commit.{Transaction, commit_ruling};
ghost use Rattle.vl_engine_model.specs.Rulings.Drain.{drain_ruling};
ghost use Rattle.vl_engine_model.specs.Rulings.EndPass.{end_pass_ruling};
ghost use Rattle.vl_engine_model.specs.Rulings.Flush.{flush_ruling, flushed, flushed_table};
ghost use Rattle.vl_engine_model.specs.Rulings.Forget.{forget_ruling};
ghost use Rattle.vl_engine_model.specs.Rulings.Fresh.{fresh_ruling};
ghost use Rattle.vl_engine_model.specs.Rulings.Install.{Installed, install_ruling, installed};
ghost use Rattle.vl_engine_model.specs.Rulings.Keep.{keep_ruling};
ghost use Rattle.vl_engine_model.specs.Rulings.Pick.{pick_ruling};
ghost use Rattle.vl_engine_model.specs.Rulings.Plan.{plan_ruling};
ghost use Rattle.vl_engine_model.specs.Rulings.Release.{release_ruling};
ghost use Rattle.vl_engine_model.specs.Rulings.Relocate.{relocate_ruling};
ghost use Rattle.vl_engine_model.specs.Rulings.Rotate.{rotate_ruling};
ghost use Rattle.vl_engine_model.specs.Rulings.Sweep.{sweep_ruling, sweep_to_ruling};
ghost use Rattle.vl_engine_model.specs.Rulings.View.{View};
ghost use Rattle.vl_engine_model.specs.Sources.{oldest, tables};
ghost use Rattle.vl_engine_model.specs.Tidy.{IsTidy};
ghost use Rattle.vl_engine_model.specs.declared.job.Job.{Job};
ghost use Rattle.vl_engine_model.specs.declared.job.OpenJob.{OpenJob};
ghost use Rattle.vl_engine_model.specs.declared.layout.Layout.{Layout};
ghost use Rattle.vl_engine_model.specs.declared.segment.Segment.{Segment};
ghost use Rattle.vl_stats.specs.Live.{IsSwitch};
ghost use Rattle.vl_stats.specs.Tallies.{IsTally, LeavesTally, Tallied};

/// A flush adds its table and drops none; an install adds the tables that were made, and drops its job's inputs.
pub fn switches_of_an_engine()
    ensures flush { (logs : Logs) (l : Layout) (h : History) (s : Segment) → IsTidy logs l h
        → IsSwitch (tables l) (flushed_table l s ∷ []) [] (tables (flushed l s)) }
    ensures install { (logs : Logs) (l : Layout) (h : History) (o : OpenJob) (made : Made) → IsTidy logs l h
        → l.job ≡ Some o
        → IsSwitch (tables l) made.tables (filter (is_among o.job.inputs) (tables l)) (tables (installed o.job made l)) }
{}

/// A tally is that of any layout with the same sealed logs and tables. So it stays when another call is made, and when a
/// rotation, a flush or an install isn't done.
pub fn other_calls_leave_a_tally()
    ensures same { (l x : Layout) (tally : Tallied) → x.frozen ≡ l.frozen → x.flushed ≡ l.flushed → x.levels ≡ l.levels
        → IsTally tally l → IsTally tally x }
    ensures begin { (l : Layout) (h : History) → LeavesTally l (begin_ruling l h) }
    ensures commit { (l : Layout) (h : History) (t : Transaction) → LeavesTally l (commit_ruling l h t) }
    ensures forget { (l : Layout) (h : History) (t : Transaction) → LeavesTally l (forget_ruling l h t) }
    ensures release { (l : Layout) (h : History) (v : View) → LeavesTally l (release_ruling l h v) }
    ensures rotate { (l : Layout) (h : History) → ((n : ℕ) → (rotate_ruling l h).answer ≡ Stepped n → ⊥)
        → LeavesTally l (rotate_ruling l h) }
    ensures flush { (l : Layout) (h : History) → ((n : ℕ) → (flush_ruling l h).answer ≡ Stepped n → ⊥)
        → LeavesTally l (flush_ruling l h) }
    ensures relocate { (l : Layout) (h : History) (pass : Pass) (batch : List Candidate)
        → LeavesTally l (relocate_ruling l h pass batch) }
    ensures plan { (l : Layout) (h : History) → LeavesTally l (plan_ruling l h) }
    ensures drain { (l : Layout) (h : History) (segment : ℕ) → LeavesTally l (drain_ruling l h segment) }
    ensures fresh { (l : Layout) (h : History) → LeavesTally l (fresh_ruling l h) }
    ensures abandon { (l : Layout) (h : History) (job : Job) (made : Made) → LeavesTally l (abandon_ruling l h job made) }
    ensures install { (l : Layout) (h : History) (job : Job) (made : Made)
        → ((install_ruling l h job made).answer ≡ Installed → ⊥) → LeavesTally l (install_ruling l h job made) }
    ensures pick { (l : Layout) (h : History) (percent : ℕ) → LeavesTally l (pick_ruling l h percent) }
    ensures end_pass { (l : Layout) (h : History) (pass : Pass) → LeavesTally l (end_pass_ruling l h pass) }
    ensures sweep { (l : Layout) (h : History) → LeavesTally l (sweep_ruling l h) }
    ensures sweep_to { (l : Layout) (h : History) (least : ℕ) → LeavesTally l (sweep_to_ruling l h least) }
    ensures keep { (l : Layout) (h : History) (v : ℕ) → LeavesTally l (keep_ruling l h v) }
{}
