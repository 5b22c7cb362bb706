// Laws of the definitions: each is the contract of a function that does nothing.
ghost use Rattle.std.specs.Prelude.{IsTrue, ◌≡◌, ◌≤◌, ◌<◌, ◌++◌, ◌∷◌, [], ℕ, List, Some, false};
ghost use Rattle.std.specs.FinMap.{entries, is_sorted};
ghost use Rattle.std.specs.List.{AllZip, AllByRecursion};
ghost use Rattle.vl_model.specs.Entries.{in_order};
ghost use Rattle.vl_model.specs.History.{History, contents_at, last_number, value_at};
ghost use Rattle.vl_model.specs.Keys.{Stored, key_cmp};
ghost use Rattle.vl_model.specs.Winners.{Logs, resolved};
ghost use Rattle.vl_model.specs.declared.entry.Entry.{Entry};
ghost use Rattle.vl_engine_model.specs.AtAnswer.{Beginning, at_answer};
ghost use Rattle.vl_engine_model.specs.Garbage.{far_bytes, pointed_bytes, best_of, is_better as is_better_than};
ghost use Rattle.vl_engine_model.specs.Logs.{frame_entries, frame_records, logged_entries, memtable, records};
ghost use Rattle.vl_engine_model.specs.Ruling.{logged};
ghost use Rattle.vl_engine_model.specs.Tidy.{IsTrueLog};
ghost use Rattle.vl_model.specs.declared.log_frame.LogFrame.{LogFrame};
ghost use Rattle.vl_engine_model.specs.Merging.{Sourced, inputs_of};
ghost use Rattle.vl_model.specs.Versions.{low};
ghost use Rattle.vl_engine_model.specs.Relocation.{Pass, Candidate};
ghost use Rattle.vl_engine_model.specs.Rulings.Commit.{Transaction, commit_ruling};
ghost use Rattle.vl_engine_model.specs.Rulings.Flush.{flush_ruling};
ghost use Rattle.vl_engine_model.specs.Rulings.Relocate.{relocate_ruling};
ghost use Rattle.vl_engine_model.specs.Rulings.Rotate.{rotate_ruling};
ghost use Rattle.vl_engine_model.specs.Shows.{Shows, StandsFor, AreUpTo};
ghost use Rattle.vl_engine_model.specs.Sources.{sources, oldest};
ghost use Rattle.vl_model.specs.Cutting.{joined, points_of, blocks};
ghost use Rattle.vl_model.specs.Conflicts.{first_conflict};
ghost use Rattle.vl_model.specs.Reads.{Read};
ghost use Rattle.vl_engine_model.specs.Store.Commits.{AreProper, Commits, at_answer_in, conflict_in, history_in, low_in, rows_in, value_in};
ghost use Rattle.vl_engine_model.specs.Tables.{cut_into_tables};
ghost use Rattle.vl_engine_model.specs.declared.layout.Layout.{Layout};
ghost use Rattle.vl_engine_model.specs.declared.segment.Segment.{Segment};
ghost use Rattle.vl_engine_model.specs.declared.segment.SegmentStat.{SegmentStat};
ghost use Rattle.vl_engine_model.specs.declared.table.Table.{Table};
ghost use Rattle.vl_engine_model.specs.Shown.{ArePlaced, AreOf, Fits, of_key, Gathers, ShowsRuled, IsThere};
ghost use Rattle.vl_engine_model.specs.Marks.{Marked, AreJustified, all_of, kept_of, marked_inputs, marked_outside, marks, plain};

/// Where each entry stands for the one in whose place it is, the same is shown: as after a flush,
/// or in other logs.
pub fn shown_by_what_stands_for_it()
    ensures { (logs others : Logs) (es fs : List Entry) (h : History) (from : List ℕ → ℕ) (to : ℕ)
        → AllZip (StandsFor logs others) es fs
        → Shows logs es h from to → Shows others fs h from to }
{}

/// What is shown hangs on each key's own entries, and not on their order but for those of one
/// version.
pub fn shown_key_by_key()
    ensures own { (logs : Logs) (es fs : List Entry) (h : History) (from : List ℕ → ℕ) (to : ℕ)
        → ((key : List ℕ) → of_key key fs ≡ of_key key es)
        → Shows logs es h from to → Shows logs fs h from to }
    ensures order { (logs : Logs) (front es back : List Entry) (h : History) (from : List ℕ → ℕ) (to : ℕ)
        → Shows logs (front ++ es ++ back) h from to
        → Shows logs (front ++ in_order es ++ back) h from to }
    ensures gathered { (logs : Logs) (es some fs : List Entry) (h : History) (from : List ℕ → ℕ) (to : ℕ)
        → ((key : List ℕ) → Gathers key es some fs) → Shows logs es h from to → Shows logs fs h from to }
{}

/// Two entries of one key and version lead to one value, and neither is a deletion.
pub fn one_version_leads_to_one_value()
    ensures { (logs : Logs) (xs ys zs : List Entry) (e f : Entry) (h : History) (from : List ℕ → ℕ) (to : ℕ)
        → Shows logs (xs ++ e ∷ ys ++ f ∷ zs) h from to
        → f.key ≡ e.key → f.version ≡ e.version
        → (value : Stored) × (resolved logs e.key e.body ≡ Some (Some value)) × (resolved logs f.key f.body ≡ Some (Some value)) }
{}

/// Whatever a commit answers, the layout that it leaves shows the history that it leaves.
pub fn shown_after_a_commit()
    ensures { (logs : Logs) (from : List ℕ → ℕ) (l : Layout) (h : History) (t : Transaction)
        → IsTrue (is_sorted key_cmp t.writes) → AreUpTo (last_number h) (sources l)
        → ((key : List ℕ) → from key ≤ last_number h)
        → Shows logs (sources l) h from (last_number h)
        → ShowsRuled logs from (commit_ruling l h t) }
{}

/// So it is after a rotation.
pub fn shown_after_a_rotation()
    ensures { (logs : Logs) (from : List ℕ → ℕ) (l : Layout) (h : History)
        → Shows logs (sources l) h from (last_number h) → ShowsRuled logs from (rotate_ruling l h) }
{}

/// So it is after a flush, where the values that it places far are found in the logs.
pub fn shown_after_a_flush()
    ensures { (logs : Logs) (from : List ℕ → ℕ) (l : Layout) (h : History) (level : List Table) (deeper : List (List Table))
        → l.levels ≡ level ∷ deeper
        → ((s : Segment) → oldest l.frozen ≡ Some s → ArePlaced logs (memtable s))
        → Shows logs (sources l) h from (last_number h) → ShowsRuled logs from (flush_ruling l h) }
{}

/// So it is after a relocation of a batch whose records stand in the logs.
pub fn shown_after_a_relocation()
    ensures { (logs : Logs) (from : List ℕ → ℕ) (l : Layout) (h : History) (pass : Pass) (batch : List Candidate)
        → AllByRecursion (IsThere logs pass.segment) batch
        → Shows logs (sources l) h from (last_number h)
        → ShowsRuled logs from (relocate_ruling l h pass batch) }
{}

/// What a merge leaves of the sources shows the same from low on, at the floor, v and since that there
/// are when it is put in place: where it keeps at least as many versions as are kept then, or its floor
/// isn't above since.
pub fn shown_after_a_merge()
    ensures at_once { (logs : Logs) (keep : ℕ) (ss : List Sourced) (floor : ℕ) (h : History) (since to : ℕ)
        → 1 ≤ keep → AreOf h (inputs_of ss) → Shows logs (plain ss) h (low h floor keep since) to
        → Shows logs (kept_of (marks keep ss floor)) h (low h floor keep since) to }
    ensures later { (logs : Logs) (ms : List Marked) (keep floor : ℕ) (h : History) (now v since to : ℕ)
        → 1 ≤ keep → floor ≤ now → Fits keep floor v since → AreOf h (marked_inputs ms)
        → AreJustified keep (marked_inputs ms) (marked_outside ms) floor [] ms
        → Shows logs (all_of ms) h (low h now v since) to → Shows logs (kept_of ms) h (low h now v since) to }
{}

/// What a table's footer says of a segment is the sum of the lengths of all records there that its
/// entries lead to.
pub fn points_are_sums()
    ensures { (segment : ℕ) (es : List Entry)
        → pointed_bytes segment (points_of es) ≡ far_bytes segment es }
{}

/// Of segments in which there is something none has a greater share of garbage than the best, or
/// the same and a lesser number.
pub fn best_has_the_greatest_share()
    ensures { (xs : List SegmentStat) (x : SegmentStat)
        → AllByRecursion (λ (y : SegmentStat). 0 < y.bytes) xs → best_of xs ≡ Some x
        → AllByRecursion (λ (y : SegmentStat). is_better_than y x ≡ false) xs }
{}

/// Blocks hold all entries of their table, and tables all of their merge, in order.
pub fn cutting_keeps_all_entries()
    ensures blocks { (format : ℕ) (es : List Entry) → joined (blocks format es) ≡ es }
    ensures tables { (es : List Entry) → joined (cut_into_tables es) ≡ es }
{}

/// A frame more, of a commit or a relocation, stands where its log ended before: its records lie there,
/// and their entries lead there.
pub fn a_frame_stands_at_its_logs_end()
    ensures records { (l : Layout) (f : LogFrame) → IsTrueLog l.active
        → records (logged f l).active ≡ records l.active ++ frame_records l.active.format l.active.length f }
    ensures entries { (l : Layout) (f : LogFrame) → IsTrueLog l.active
        → logged_entries l.active.format l.active.number 16 (logged f l).active.frames
        ≡ frame_entries l.active.format l.active.number l.active.length f ++ logged_entries l.active.format
        l.active.number 16 l.active.frames }
{}

/// Plain lists of commits give the values, rows, least numbers and conflicts of the history that they
/// are, and what a read at an older number is answered.
pub fn plain_commits_are_the_history()
    ensures values { (p : Commits) (n : ℕ) (key : List ℕ) → AreProper p → value_in p n key ≡ value_at (history_in p) n key }
    ensures rows { (p : Commits) (n : ℕ) → AreProper p → rows_in p n ≡ entries (contents_at (history_in p) n) }
    ensures low { (p : Commits) (floor keep since : ℕ) (key : List ℕ) → AreProper p
        → low_in p floor keep since key ≡ low (history_in p) floor keep since key }
    ensures past { (p : Commits) (b : Beginning) (number : ℕ) (key : List ℕ) (n : ℕ) → AreProper p
        → at_answer_in p b number key n ≡ at_answer (history_in p) b number key n }
    ensures conflicts { (p : Commits) (n : ℕ) (reads : List Read) → AreProper p
        → conflict_in p n reads ≡ first_conflict (history_in p) n reads }
{}
