// What an engine tells of what can still be read: each is the contract of a function that does nothing.
ghost use Rattle.std.specs.Prelude.{◌≡◌, ◌<◌, ◌≤◌, ℕ, List};
ghost use Rattle.vl_model.specs.History.{History, last_number};
ghost use Rattle.vl_model.specs.Versions.{low};
ghost use Rattle.vl_engine_model.specs.Jobs.{Made};
ghost use Rattle.vl_engine_model.specs.Merging.{needless};
ghost use Rattle.vl_engine_model.specs.Rulings.Install.{Installed, install_ruling};
ghost use Rattle.vl_engine_model.specs.Rulings.Keep.{Kept, keep_ruling};
ghost use Rattle.vl_engine_model.specs.declared.job.Job.{Job};
ghost use Rattle.vl_engine_model.specs.declared.layout.Layout.{Layout};
ghost use Rattle.vl_engine_model_laws.specs.Asks.{IsNoInstall, IsNoKeep};
ghost use Rattle.vl_engine_model_laws.specs.Calls.{Call, ruling_on};
ghost use Rattle.vl_engine_model_laws.specs.Kept.{FloorRises, IsRaisedBy, LeavesGone, LeavesKept, LowRises};
ghost use Rattle.vl_engine_model_laws.specs.Script.{behind_the_merge};

/// What is told of the greatest version of a deletion that was dropped for good is raised by an install
/// that is answered, to the greatest one that its job dropped as needless, if that is greater; an install
/// that is refused leaves it, and so does every other call.
pub fn an_install_tells_what_it_dropped()
    ensures install { (l : Layout) (h : History) (job : Job) (made : Made)
        → (install_ruling l h job made).answer ≡ Installed
        → IsRaisedBy (needless job) l.gone (install_ruling l h job made).layout.gone }
    ensures refused { (l : Layout) (h : History) (job : Job) (made : Made)
        → ((install_ruling l h job made).answer ≡ Installed → ⊥)
        → LeavesGone l (install_ruling l h job made) }
    ensures others { (call : Call) (l : Layout) (h : History) → IsNoInstall call
        → LeavesGone l (ruling_on call l h) }
{}

/// A key is set by the first commit and deleted by the second, and two others are set: behind a merge of
/// all four tables 2 is told.
pub fn a_dropped_deletion_is_told()
    ensures { behind_the_merge.layout.gone ≡ 2 }
{}

/// A key can be read from the floor on where one version of each is kept; and from no number above the
/// floor, however many are kept.
pub fn each_key_is_read_from_the_floor_at_most()
    ensures one { (h : History) (floor : ℕ) (since : ℕ) (key : List ℕ) → low h floor 1 since key ≡ floor }
    ensures more { (h : History) (floor : ℕ) (keep : ℕ) (since : ℕ) (key : List ℕ)
        → low h floor keep since key ≤ floor }
{}

/// Where a number of kept versions is taken it is kept, and raising it tells the last commit's number;
/// lowering it leaves what was told. A number that is refused changes nothing.
pub fn raising_what_is_kept_tells_the_last_number()
    ensures taken { (l : Layout) (h : History) (v : ℕ) → (keep_ruling l h v).answer ≡ Kept
        → (keep_ruling l h v).layout.keep ≡ v }
    ensures raised { (l : Layout) (h : History) (v : ℕ) → (keep_ruling l h v).answer ≡ Kept → l.keep < v
        → (keep_ruling l h v).layout.since ≡ last_number h }
    ensures lowered { (l : Layout) (h : History) (v : ℕ) → (keep_ruling l h v).answer ≡ Kept → v ≤ l.keep
        → (keep_ruling l h v).layout.since ≡ l.since }
    ensures refused { (l : Layout) (h : History) (v : ℕ) → ((keep_ruling l h v).answer ≡ Kept → ⊥)
        → (keep_ruling l h v).layout ≡ l }
{}

/// No other call changes how many versions are kept, or the number that was told when that was raised.
pub fn other_calls_leave_what_is_kept()
    ensures { (call : Call) (l : Layout) (h : History) → IsNoKeep call → LeavesKept l (ruling_on call l h) }
{}

/// The floor, which is the least number at which something live reads, or the last number, never falls.
pub fn the_floor_never_falls()
    ensures { (call : Call) (l : Layout) (h : History) → FloorRises l h (ruling_on call l h) }
{}

/// The least number at which a key can be read never falls: what can't be read any more is never read again.
pub fn what_was_dropped_is_not_read_again()
    ensures { (call : Call) (l : Layout) (h : History) → LowRises l h (ruling_on call l h) }
{}
