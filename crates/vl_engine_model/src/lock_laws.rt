// Laws of steps under the commit lock: each is the contract of a function that does nothing.
ghost use Rattle.std.specs.Prelude.{◌≡◌, ◌+◌, ◌++◌, ◌∷◌, [], ℕ, List, None, Some, length};
ghost use Rattle.std.specs.FinMap.{from_sorted};
ghost use Rattle.vl_model.specs.History.{Extends, Past, last_number, with_commit};
ghost use Rattle.vl_model.specs.declared.change.Change.{Change};
ghost use Rattle.vl_engine_model.specs.LockHistory.{HasOpen, IsLegal, IsLegalFrom, IsOpen, OpenThings, entries_by};
ghost use Rattle.vl_engine_model.specs.LockHistory.{history_of, last_from, last_layout, nothing_open, number_of, open_job};
ghost use Rattle.vl_engine_model.specs.LockHistory.{open_pass, open_things, open_tickets, put_after, things_after};
ghost use Rattle.vl_engine_model.specs.declared.job.Job.{Job};
ghost use Rattle.vl_engine_model.specs.declared.layout.Layout.{Layout};
ghost use Rattle.vl_engine_model.specs.declared.lock_history.LockEntry.{LockEntry};
ghost use Rattle.vl_engine_model.specs.declared.lock_history.LockStep.TheVariants.{Planned, Picked, Put};

/// Lawful steps behind lawful ones are lawful, as is each first part of lawful ones; what is open behind
/// all of them, their last layout and their history are those of the first part, gone on.
pub fn steps_go_on()
    ensures more { (last : ℕ) (o : OpenThings) (es more : List LockEntry)
        → IsLegalFrom last o es → IsLegalFrom (last_from last es) (open_things o es) more → IsLegalFrom last o (es ++ more) }
    ensures first { (last : ℕ) (o : OpenThings) (es later : List LockEntry) → IsLegalFrom last o (es ++ later) → IsLegalFrom last o es }
    ensures things { (o : OpenThings) (es more : List LockEntry) → open_things o (es ++ more) ≡ open_things (open_things o es) more }
    ensures layout { (l : Layout) (es more : List LockEntry) → last_layout l (es ++ more) ≡ last_layout (last_layout l es) more }
    ensures history { (base : Past) (number : ℕ) (es more : List LockEntry)
        → Extends (history_of base number es) (history_of base number (es ++ more)) }
{}

/// A step's history is the one before it, and for a commit its writes behind that; and the last number is
/// that of the last commit.
pub fn a_commit_alone_adds_to_the_history()
    ensures same { (base : Past) (number : ℕ) (es : List LockEntry) (e : LockEntry) → put_after e.step [] ≡ []
        → history_of base number (es ++ e ∷ []) ≡ history_of base number es }
    ensures put { (base : Past) (number : ℕ) (es : List LockEntry) (session ticket at : ℕ) (writes : List (List ℕ × Change)) (l : Layout)
        → history_of base number (es ++ record { session = session; step = Put ticket at writes; layout = l } ∷ []) ≡
        with_commit (history_of base number es) (from_sorted writes) }
    ensures last { (base : Past) (number : ℕ) (es : List LockEntry) → IsLegal number es
        → last_number (history_of base number es) ≡ last_from number es }
{}

/// Just what is open by lawful steps lives, and is open, in the layout behind the last of them.
pub fn what_is_open_stands_in_the_layout()
    ensures has { (last : ℕ) (o : OpenThings) (l : Layout) (es : List LockEntry) → HasOpen o l → IsLegalFrom last o es
        → HasOpen (open_things o es) (last_layout l es) }
    ensures as_many { (o : OpenThings) (l : Layout) → HasOpen o l → length l.live ≡ length o.tickets }
    ensures planned { (last : ℕ) (o : OpenThings) (e : LockEntry) (es : List LockEntry) → IsLegalFrom last o (e ∷ es) → e.step ≡ Planned
        → (job : Job) × ((things_after e o).job ≡ Some (e.session, job)) }
    ensures picked { (last : ℕ) (o : OpenThings) (e : LockEntry) (es : List LockEntry) → IsLegalFrom last o (e ∷ es) → e.step ≡ Picked
        → (segment : ℕ) × ((things_after e o).pass ≡ Some (e.session, segment)) }
{}

/// What a session's own steps opened and didn't end is open by all steps, and the session's.
pub fn own_things_are_open()
    ensures ticket { (last session ticket number : ℕ) (es : List LockEntry) → IsLegal last es
        → number_of ticket (open_tickets [] (entries_by session es)) ≡ Some number
        → (number_of ticket (open_things nothing_open es).tickets ≡ Some number)
        × IsOpen session ticket (open_things nothing_open es).tickets }
    ensures job { (last session : ℕ) (job : Job) (es : List LockEntry) → IsLegal last es
        → open_job None (entries_by session es) ≡ Some (session, job) → (open_things nothing_open es).job ≡ Some (session, job) }
    ensures pass { (last session segment : ℕ) (es : List LockEntry) → IsLegal last es
        → open_pass None (entries_by session es) ≡ Some (session, segment) → (open_things nothing_open es).pass ≡ Some (session, segment) }
{}
