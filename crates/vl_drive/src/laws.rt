// Laws of clients' turns: each is the contract of a function that does nothing.
ghost use Rattle.std.specs.Prelude.{[], ◌≡◌, ◌≢◌, ◌≤◌, ◌<◌, ◌+◌, ◌*◌, ◌∷◌, ◌++◌, ◌||◌, ◌^◌, ℕ, Bool, false, true, List};
ghost use Rattle.std.specs.Prelude.{None, Some, length};
ghost use Rattle.std.specs.List.{AllByRecursion, AllZip};
ghost use Rattle.std.specs.Ordering.{eq_by_cmp};
ghost use Rattle.vl_drive.specs.Accounts.{account_key, balance_bytes, balance_of};
ghost use Rattle.vl_drive.specs.Clients.{AreDriven, count_all};
ghost use Rattle.vl_drive.specs.Driven.{IsClosed, IsDriven};
ghost use Rattle.vl_drive.specs.Knowing.{GoesOn, Knows};
ghost use Rattle.vl_drive.specs.Modest.{AreModest};
ghost use Rattle.vl_drive.specs.Numbers.{transfer_of};
ghost use Rattle.vl_drive.specs.Players.{IsCauseOfOne, is_fault};
ghost use Rattle.vl_drive.specs.Steps.{AreBy, Origin, count_by, history_by, is_aside, is_end, is_ended, is_put, layout_by};
ghost use Rattle.vl_drive.specs.Turns.{AreTurns, EndsTurn, InTurn, is_crossed};
ghost use Rattle.vl_drive.specs.declared.trouble.Cause.{Cause};
ghost use Rattle.vl_drive.specs.declared.transfer.Transfer.{Transfer};
ghost use Rattle.vl_engine_model.specs.LockHistory.{HasOpen, entries_by, nothing_open};
ghost use Rattle.vl_engine_model.specs.Rulings.Begin.{TooMany, begin_ruling};
ghost use Rattle.vl_engine_model.specs.Rulings.Commit.{At, Conflict, Exhausted, Nothing, Transaction, commit_ruling};
ghost use Rattle.vl_engine_model.specs.declared.layout.Layout.{Layout};
ghost use Rattle.vl_engine_model.specs.declared.lock_history.LockEntry.{LockEntry};
ghost use Rattle.vl_engine_model.specs.declared.lock_history.LockStep.{LockStep};
ghost use Rattle.vl_engine_model.specs.declared.lock_history.LockStep.TheVariants.{Begun};
ghost use Rattle.vl_model.specs.Conflicts.{Named, first_conflict};
ghost use Rattle.vl_model.specs.History.{History, last_number, value_at};
ghost use Rattle.vl_model.specs.Keys.{key_cmp};
ghost use Rattle.vl_model.specs.Limits.{max_commit_number};
ghost use Rattle.vl_model.specs.Reads.{Read, is_read};
ghost use Rattle.vl_model.specs.declared.counter.Counter.TheVariants.{Commit as CommitNumber};
ghost use mathlib.Core.List.{IsPrefix};

/// What the shops know when all turns were taken, over the closed list: the first commit in front of all turns,
/// commits, conflicts, number and total.
pub fn a_closed_list_is_driven()
    ensures { (o : Origin) (clients seed txns : ℕ) (vs : List Knows) (list : List LockEntry)
        → length vs ≡ clients + 1 → AreDriven seed txns vs → IsClosed o vs list
        → IsDriven o clients txns seed (count_all is_put vs) (count_all is_ended vs) list }
{}

/// A turn that was begun goes on while the session neither begins nor ends anything.
pub fn a_turn_goes_on()
    ensures begun { (o : Origin) (session ticket : ℕ) (list : List LockEntry) (e : LockEntry) → e.session ≡ session
        → e.step ≡ Begun ticket (last_number (history_by o list)) → InTurn o session ticket list [] (list ++ e ∷ []) }
    ensures more { (o : Origin) (session ticket : ℕ) (earlier since list more : List LockEntry)
        → InTurn o session ticket earlier since list → AreBy is_aside session more
        → InTurn o session ticket earlier (since ++ more) (list ++ more) }
    // What stood at its beginning stands there in the history behind it.
    ensures values { (o : Origin) (session ticket : ℕ) (earlier since list : List LockEntry) (key : List ℕ)
        → InTurn o session ticket earlier since list
        → value_at (history_by o list) (last_number (history_by o earlier)) key
        ≡ value_at (history_by o earlier) (last_number (history_by o earlier)) key }
{}

/// Where a turn read its two accounts, the first conflict tells whether a commit since its beginning names one of them.
pub fn a_conflict_is_a_crossing()
    ensures none { (o : Origin) (t : Transfer) (session ticket : ℕ) (earlier since list : List LockEntry)
        (reads : List Read) → InTurn o session ticket earlier since list
        → ((key : List ℕ) → is_read reads key
        ≡ (eq_by_cmp key_cmp key (account_key t.from) || eq_by_cmp key_cmp key (account_key t.to)))
        → first_conflict (history_by o list) (last_number (history_by o earlier)) reads ≡ None
        → is_crossed t since ≡ false }
    ensures some { (o : Origin) (t : Transfer) (session ticket : ℕ) (earlier since list : List LockEntry)
        (reads : List Read) (named : Named) → InTurn o session ticket earlier since list
        → ((key : List ℕ) → is_read reads key
        ≡ (eq_by_cmp key_cmp key (account_key t.from) || eq_by_cmp key_cmp key (account_key t.to)))
        → first_conflict (history_by o list) (last_number (history_by o earlier)) reads ≡ Some named
        → is_crossed t since ≡ true }
{}

/// What a commit's ruling answers hangs on the first conflict.
pub fn a_commit_is_ruled_by_its_conflict()
    ensures at { (l : Layout) (h : History) (t : Transaction) (number : ℕ) → At number ≡ (commit_ruling l h t).answer
        → (number ≡ last_number h + 1) × (first_conflict h t.number t.reads ≡ None) }
    ensures conflict { (l : Layout) (h : History) (t : Transaction) (key : List ℕ) (number : ℕ)
        → Conflict key number ≡ (commit_ruling l h t).answer → first_conflict h t.number t.reads ≡ Some (key, number) }
    ensures nothing { (l : Layout) (h : History) (t : Transaction) → Nothing ≡ (commit_ruling l h t).answer
        → t.writes ≡ [] }
{}

/// Turns of a longer list: where the session ended nothing in what is added, and where it ends one more turn.
pub fn turns_go_on()
    ensures none { (o : Origin) (transfers : ℕ → Transfer) (session : ℕ) (list : List LockEntry)
        → count_by is_end session list ≡ 0 → AreTurns o transfers session list }
    ensures more { (o : Origin) (transfers : ℕ → Transfer) (session : ℕ) (list more : List LockEntry)
        → AreTurns o transfers session list → count_by is_end session more ≡ 0
        → AreTurns o transfers session (list ++ more) }
    ensures ended { (o : Origin) (transfers : ℕ → Transfer) (session : ℕ) (list : List LockEntry) (e : LockEntry)
        → AreTurns o transfers session list → e.session ≡ session
        → EndsTurn o (transfers (count_by is_end session list + 1)) list e → AreTurns o transfers session (list ++ e ∷ []) }
{}

/// Steps of a session are counted part by part.
pub fn steps_are_counted()
    ensures parts { (kind : LockStep → Bool) (session : ℕ) (list more : List LockEntry)
        → count_by kind session (list ++ more) ≡ count_by kind session list + count_by kind session more }
    ensures aside { (session : ℕ) (list : List LockEntry) → AreBy is_aside session list → count_by is_end session list ≡ 0 }
    // What others added has none of the session's.
    ensures others { (kind : LockStep → Bool) (session : ℕ) (list more : List LockEntry)
        → entries_by session (list ++ more) ≡ entries_by session list → AreBy kind session more }
{}

/// A transfer goes from one of 64 accounts to another one.
pub fn a_transfer_has_two_accounts()
    ensures { (x : ℕ) → ((transfer_of x).from < 64) × ((transfer_of x).to < 64)
        × ((transfer_of x).from ≢ (transfer_of x).to) }
{}

/// A balance is read as it was written.
pub fn a_balance_is_read_as_written()
    ensures { (balance : ℕ) → balance < 2 ^ 64 → balance_of (balance_bytes balance) ≡ balance }
{}

/// Over shops that are sure no drive stops for a fault.
pub fn sure_shops_meet_no_fault()
    ensures { (vs ws : List Knows) (why : Cause) → AllZip GoesOn vs ws → AllByRecursion (λ (v : Knows). v.sure ≡ true) vs
        → IsCauseOfOne why vs ws → is_fault why ≡ false }
{}

/// Over the closed list of up to 64 modest shops no begin is refused for what lives, at no place of it; and no commit
/// for want of a number, where the numbers reach for all of their commits.
pub fn no_call_of_modest_shops_stops()
    ensures begins { (o : Origin) (turns : ℕ) (vs : List Knows) (list before : List LockEntry) → IsClosed o vs list
        → AreModest turns vs → IsPrefix before list → HasOpen nothing_open o.layout → length vs ≤ 64
        → (begin_ruling (layout_by o before) (history_by o before)).answer ≢ TooMany }
    ensures commits { (o : Origin) (turns : ℕ) (vs : List Knows) (list before : List LockEntry) → IsClosed o vs list
        → AreModest turns vs → IsPrefix before list → o.number + length vs * (turns + 1) < max_commit_number
        → (txn : Transaction) → (commit_ruling (layout_by o before) (history_by o before) txn).answer ≢ Exhausted CommitNumber }
{}
