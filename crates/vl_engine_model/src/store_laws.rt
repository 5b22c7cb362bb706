// Laws of the store as a script sees it: each is the contract of a function that does nothing.
ghost use Rattle.std.specs.Prelude.{◌≡◌, ℕ};
ghost use Rattle.vl_engine_model.specs.Rulings.Commit.{Transaction, commit_ruling};
ghost use Rattle.vl_engine_model.specs.Store.Commits.{AreProper, history_in};
ghost use Rattle.vl_engine_model.specs.Store.Dispatch.{new_store, step_of};
ghost use Rattle.vl_engine_model.specs.Store.Lines.{Line};
ghost use Rattle.vl_engine_model.specs.Store.Proper.{IsProper};
ghost use Rattle.vl_engine_model.specs.Store.Reading.{ruled};
ghost use Rattle.vl_engine_model.specs.Store.Things.{State};

/// A new store's lists rise, and no name stands for two things there; so it is behind each line.
pub fn lines_leave_a_store_proper()
    ensures new { (room : ℕ) → IsProper (new_store room) }
    ensures line { (s : State) (line : Line) → IsProper s → IsProper (step_of s line).state }
{}

/// A line that commits is answered as a commit is ruled over the history that the store's lists are.
pub fn a_script_commits_as_ruled()
    ensures { (s : State) (t : Transaction) → AreProper s.commits → ruled s t ≡ commit_ruling s.layout (history_in s.commits) t }
{}
