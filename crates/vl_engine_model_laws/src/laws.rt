// Laws of what an engine keeps tidy: each is the contract of a function that does nothing.
ghost use Rattle.std.specs.Prelude.{IsTrue, Some, [], ◌≡◌, ◌≤◌, ◌<◌, ◌+◌, ◌++◌, ◌∷◌, ℕ, List, Option, true, length};
ghost use Rattle.std.specs.List.{AllByRecursion, filter};
ghost use Rattle.std.specs.FinMap.{from_sorted, is_sorted};
ghost use Rattle.vl_model.specs.Conflicts.{Named};
ghost use Rattle.vl_model.specs.History.{History, last_number, with_commit};
ghost use Rattle.vl_model.specs.Keys.{key_cmp};
ghost use Rattle.vl_model.specs.Winners.{Logs};
ghost use Rattle.vl_model.specs.declared.change.Change.{Change};
ghost use Rattle.vl_model.specs.declared.log_frame.Moved.{Moved};
ghost use Rattle.vl_model.specs.declared.entry.Entry.{Entry};
ghost use Rattle.vl_engine_model.specs.Garbage.{live_bytes, pointed_bytes};
ghost use Rattle.vl_engine_model.specs.Jobs.{Made, AreOutputs};
ghost use Rattle.vl_engine_model.specs.Levels.{is_among};
ghost use Rattle.vl_engine_model.specs.Logs.{LogRecord, memtable};
ghost use Rattle.vl_engine_model.specs.TidyLevels.{AreLevels};
ghost use Rattle.vl_engine_model.specs.OpenJobs.{IsOpenWell};
ghost use Rattle.vl_engine_model.specs.Ruling.{ended, logged};
ghost use Rattle.vl_engine_model.specs.Shown.{ArePlaced, IsOf, IsThere, ShowsLow};
ghost use Rattle.vl_engine_model.specs.Shows.{AreUpTo};
ghost use Rattle.vl_engine_model.specs.declared.file_name.FileName.{FileName};
ghost use Rattle.vl_engine_model.specs.declared.job.OpenJob.{OpenJob};
ghost use Rattle.vl_engine_model.specs.Relocation.{Pass, Candidate, moved_of, taken_from};
ghost use Rattle.vl_engine_model.specs.Rulings.Begin.{begun};
ghost use Rattle.vl_engine_model.specs.Rulings.Commit.{Transaction, commit_frame, commit_ruling};
ghost use Rattle.vl_engine_model.specs.Rulings.Drain.{drain_ruling};
ghost use Rattle.vl_engine_model.specs.Rulings.Flush.{flush_ruling, flushed, flushed_table};
ghost use Rattle.vl_engine_model.specs.Rulings.Fresh.{Drawn, drawn, fresh_ruling};
ghost use Rattle.vl_engine_model.specs.Rulings.Install.{install_ruling, installed};
ghost use Rattle.vl_engine_model.specs.Rulings.Keep.{keeping};
ghost use Rattle.vl_engine_model.specs.Rulings.Pick.{with_pass};
ghost use Rattle.vl_engine_model.specs.Rulings.Plan.{plan_ruling};
ghost use Rattle.vl_engine_model.specs.Rulings.Relocate.{moves_at, relocate_ruling, relocated};
ghost use Rattle.vl_engine_model.specs.Rulings.Rotate.{rotate_ruling, rotated};
ghost use Rattle.vl_engine_model.specs.Rulings.Sweep.{swept, without_files};
ghost use Rattle.vl_engine_model.specs.Sources.{oldest, sources, tables};
ghost use Rattle.vl_engine_model.specs.Stock.{HaveRisen, IsLoose, IsWellStocked};
ghost use Rattle.vl_engine_model.specs.declared.job.Job.{Job};
ghost use Rattle.vl_engine_model.specs.declared.job.Target.TheVariants.{Level, InPlace};
ghost use Rattle.vl_engine_model.specs.declared.layout.Layout.{Layout};
ghost use Rattle.vl_engine_model.specs.declared.segment.Segment.{Segment};
ghost use Rattle.vl_engine_model.specs.declared.table.Table.{Table};
ghost use Rattle.vl_engine_model_laws.specs.Asks.{AsksLevels, AsksStocked};
ghost use Rattle.vl_engine_model_laws.specs.Calls.{Call, ruling_on};
ghost use Rattle.vl_engine_model_laws.specs.Passes.{IsSettled, found_all};

/// Whatever a call answers, retired files are needed by nothing that a pin at or above their
/// retirement names, and each number was drawn once. So it is of a job, whose files have numbers that were
/// drawn for it: from its plan to its end, with or without its switch.
pub fn files_stay_tidy()
    ensures { (call : Call) (l : Layout) (h : History) → AsksStocked call l h → IsWellStocked l
        → IsWellStocked (ruling_on call l h).layout }
{}

/// There are seven levels, no table stands twice, ranges are true, and the tables of deeper levels lie
/// apart, whatever a call answers.
pub fn levels_stay_tidy()
    ensures { (call : Call) (l : Layout) (h : History) → AsksLevels call l h → IsWellStocked l → AreLevels l.levels
        → AreLevels (ruling_on call l h).layout.levels }
{}

/// What a sweep removes is needed by no source and no pin, whether others may still look or not.
pub fn a_sweep_removes_what_nothing_needs()
    ensures { (l : Layout) (least : Option ℕ) → IsWellStocked l → AllByRecursion (IsLoose l) (swept least l) }
{}

/// Behind a switch the live bytes of a segment are those before it, with the tables that it added
/// and without those that it dropped.
pub fn live_bytes_after_a_switch()
    ensures flush { (segment : ℕ) (l : Layout) (s : Segment) (level : List Table) (deeper : List (List Table)) → l.levels ≡ level ∷ deeper
        → live_bytes (tables (flushed l s)) segment ≡ pointed_bytes segment (flushed_table l s).points + live_bytes (tables l) segment }
    ensures level { (segment : ℕ) (l : Layout) (job : Job) (made : Made) (n : ℕ) → job.target ≡ Level n
        → n < length l.levels
        → live_bytes (tables (installed job made l)) segment + live_bytes (filter (is_among job.inputs) (tables l)) segment
        ≡ live_bytes made.tables segment + live_bytes (tables l) segment }
    ensures in_place { (segment : ℕ) (l : Layout) (job : Job) (made : Made) → job.target ≡ InPlace
        → length (filter (is_among job.inputs) (tables l)) ≡ 1
        → live_bytes (tables (installed job made l)) segment + live_bytes (filter (is_among job.inputs) (tables l)) segment
        ≡ live_bytes made.tables segment + live_bytes (tables l) segment }
{}

/// A batch and what is found behind it are all that a pass finds, in order, each once.
pub fn batches_are_all_found_records()
    ensures { (base : List Entry) (segment count bytes : ℕ) (rs : List LogRecord) →
        (taken_from base segment count bytes rs).0 ++ found_all base segment (taken_from base segment count bytes rs).1
        ≡ found_all base segment rs }
{}

/// Right behind a relocation none of its batch wins exactly from inside the segment, however old the
/// batch is.
pub fn a_moved_batch_wins_no_more()
    ensures { (segment last : ℕ) (l : Layout) (batch : List Candidate)
        → AllByRecursion (λ (c : Candidate). c.moved.version ≤ last) batch
        → AllByRecursion (IsSettled segment (sources (relocated l (moved_of (sources l) segment last batch)))) batch }
{}

/// What is so of an open job is so of it beside whatever else is done.
pub fn an_open_job_stays_open_well()
    ensures begin { (l : Layout) (h : History) (job : Job) (moved : List Named) (ticket : ℕ)
        → IsOpenWell l h job moved
        → IsOpenWell (begun l ticket (last_number h)) h job moved }
    ensures end { (l : Layout) (h : History) (job : Job) (moved : List Named) (ticket : ℕ)
        → IsOpenWell l h job moved
        → IsOpenWell (ended ticket l) h job moved }
    ensures commit { (l : Layout) (h : History) (job : Job) (moved : List Named) (ticket : ℕ)
        (writes : List (List ℕ × Change)) → IsOpenWell l h job moved
        → IsOpenWell (logged (commit_frame h writes) (ended ticket l)) (with_commit h (from_sorted writes)) job moved }
    ensures rotate { (l : Layout) (h : History) (job : Job) (moved : List Named)
        → IsOpenWell l h job moved → IsOpenWell (rotated l) h job moved }
    ensures flush { (l : Layout) (h : History) (job : Job) (moved : List Named) (s : Segment) (level : List Table)
        (deeper : List (List Table))
        → oldest l.frozen ≡ Some s → l.levels ≡ level ∷ deeper → IsOpenWell l h job moved
        → IsOpenWell (flushed l s) h job moved }
    ensures relocate { (l : Layout) (h : History) (job : Job) (moved : List Named) (records : List Moved) → IsOpenWell l h job moved
        → IsOpenWell (relocated l records) h job (moves_at (l.epoch + 1) records ++ moved) }
    ensures fresh { (l : Layout) (h : History) (job : Job) (moved : List Named)
        → IsOpenWell l h job moved → IsOpenWell (drawn l) h job moved }
    ensures pick { (l : Layout) (h : History) (job : Job) (moved : List Named) (segment : ℕ)
        → IsOpenWell l h job moved
        → IsOpenWell (with_pass segment l) h job moved }
    ensures sweep { (l : Layout) (h : History) (job : Job) (moved : List Named) (gone : List FileName)
        → IsOpenWell l h job moved
        → IsOpenWell (without_files gone l) h job moved }
    ensures keep { (l : Layout) (h : History) (job : Job) (moved : List Named) (v : ℕ)
        → l.since ≤ last_number h → IsOpenWell l h job moved
        → IsOpenWell (keeping v h l) h job moved }
{}

/// Whatever an install answers, and however much later than its plan it comes, what is left shows the
/// history from where it could be read before.
pub fn an_install_shows_what_was_shown()
    ensures { (logs : Logs) (l : Layout) (h : History) (o : OpenJob) (made : Made) → l.job ≡ Some o
        → AreOutputs o.job made
        → IsOpenWell l h o.job o.moved → ShowsLow logs l h
        → ShowsLow logs (install_ruling l h o.job made).layout (install_ruling l h o.job made).history }
{}

/// Each key is shown from the least number at which it can be read, whatever a call answers.
pub fn shown_from_low_stays()
    ensures commit { (logs : Logs) (l : Layout) (h : History) (t : Transaction)
        → IsTrue (is_sorted key_cmp t.writes)
        → AreUpTo (last_number h) (sources l) → ShowsLow logs l h
        → ShowsLow logs (commit_ruling l h t).layout (commit_ruling l h t).history }
    ensures rotate { (logs : Logs) (l : Layout) (h : History) → ShowsLow logs l h
        → ShowsLow logs (rotate_ruling l h).layout (rotate_ruling l h).history }
    ensures flush { (logs : Logs) (l : Layout) (h : History) (level : List Table) (deeper : List (List Table)) → l.levels ≡ level ∷ deeper
        → ((s : Segment) → oldest l.frozen ≡ Some s → ArePlaced logs (memtable s)) → ShowsLow logs l h
        → ShowsLow logs (flush_ruling l h).layout (flush_ruling l h).history }
    ensures relocate { (logs : Logs) (l : Layout) (h : History) (pass : Pass) (batch : List Candidate)
        → AllByRecursion (IsThere logs pass.segment) batch
        → ShowsLow logs l h
        → ShowsLow logs (relocate_ruling l h pass batch).layout (relocate_ruling l h pass batch).history }
    ensures end { (logs : Logs) (l : Layout) (h : History) (ticket : ℕ) → ShowsLow logs l h
        → ShowsLow logs (ended ticket l) h }
    ensures begin { (logs : Logs) (l : Layout) (h : History) (ticket : ℕ) → ShowsLow logs l h
        → ShowsLow logs (begun l ticket (last_number h)) h }
    ensures keep { (logs : Logs) (l : Layout) (h : History) (v : ℕ) → ShowsLow logs l h
        → ShowsLow logs (keeping v h l) h }
{}

/// The numbers that may still be given don't fall, and what a call draws is the least of them: so no
/// number is drawn twice.
pub fn numbers_are_drawn_once()
    ensures each { (call : Call) (l : Layout) (h : History) → HaveRisen l (ruling_on call l h).layout }
    ensures rotated { (l : Layout)
        → ((rotated l).active.number ≡ l.next_log) × ((rotated l).next_log ≡ l.next_log + 1) }
    ensures flushed { (l : Layout) (s : Segment)
        → ((flushed_table l s).number ≡ l.next_table) × ((flushed l s).next_table ≡ l.next_table + 1) }
    ensures drawn { (l : Layout) (h : History) (n : ℕ) → (fresh_ruling l h).answer ≡ Drawn n
        → (n ≡ l.next_table) × ((fresh_ruling l h).layout.next_table ≡ l.next_table + 1) }
{}

/// A job is open well once it is planned.
pub fn a_planned_job_is_open_well()
    ensures plan { (l : Layout) (h : History) (job : Job) → AreLevels l.levels → IsWellStocked l → 1 ≤ l.keep
        → AllByRecursion (λ (t : Table). AllByRecursion (IsOf h) t.entries) (tables l)
        → (plan_ruling l h).answer ≡ Some job → IsOpenWell (plan_ruling l h).layout h job [] }
    ensures drain { (l : Layout) (h : History) (segment : ℕ) (job : Job) → AreLevels l.levels
        → IsWellStocked l → 1 ≤ l.keep
        → AllByRecursion (λ (t : Table). AllByRecursion (IsOf h) t.entries) (tables l)
        → (drain_ruling l h segment).answer ≡ Some job → IsOpenWell (drain_ruling l h segment).layout h job [] }
{}
