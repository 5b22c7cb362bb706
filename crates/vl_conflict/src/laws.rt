// Laws of what is remembered: each is the contract of a function that does nothing.
ghost use Rattle.std.specs.Prelude.{◌≡◌, ◌≤◌, ◌+◌, ℕ, List, []};
ghost use Rattle.std.specs.FinMap.{entries};
ghost use Rattle.vl_model.specs.Keys.{Writes};
ghost use Rattle.vl_model.specs.History.{History, last_number, with_commit};
ghost use Rattle.vl_model.specs.Conflicts.{Named};
ghost use Rattle.vl_conflict.specs.Recent.{Remembers, noted_all};

/// From the last number on there is nothing to remember.
pub fn nothing_is_remembered_at_first()
    ensures { (h : History) (floor : ℕ) → last_number h ≤ floor → Remembers floor h [] }
{}

/// After each key of the next commit was noted with its number, what is kept stands for the history with that commit.
pub fn commits_are_remembered()
    ensures { (floor : ℕ) (h : History) (named : List Named) (writes : Writes) → Remembers floor h named
        → Remembers floor (with_commit h writes) (noted_all (last_number h + 1) (entries writes) named) }
{}

/// What stands for a history from a floor on does so from a higher floor on.
pub fn floor_may_rise()
    ensures { (floor higher : ℕ) (h : History) (named : List Named) → Remembers floor h named → floor ≤ higher
        → Remembers higher h named }
{}
