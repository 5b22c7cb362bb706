// Laws of leases: each is the contract of a function that does nothing.
ghost use Rattle.std.specs.Prelude.{◌≡◌, ◌≢◌, ◌≤◌, ℕ, List, Some};
ghost use Rattle.vl_drive.specs.Knowing.{Knows};
ghost use Rattle.vl_drive.specs.Steps.{Origin, history_by};
ghost use Rattle.vl_engine_model.specs.declared.lock_history.LockEntry.{LockEntry};
ghost use Rattle.vl_model.specs.History.{Extends, History, last_number, value_at};
ghost use Rattle.vl_sequence.specs.Leases.{AreRising, AreUpTo, OnlyLeases, leases, number_in};
ghost use Rattle.vl_sequence.specs.Takings.{IsLeased, IsOnlyLeased, first_value, last_value};
ghost use mathlib.Core.List.{IsPrefix};

/// Where only sequences write the key, the leases of a history don't meet and rise, and none passes the key's value.
pub fn leases_rise()
    ensures rise { (h : History) (key : List ℕ) (n : ℕ) → number_in (value_at h h.first key) ≡ Some n
        → OnlyLeases key (value_at h h.first key) h.commits → AreRising n (leases h key) }
    ensures below { (h : History) (key : List ℕ) (n : ℕ) → number_in (value_at h h.first key) ≡ Some n
        → OnlyLeases key (value_at h h.first key) h.commits
        → (m : ℕ) × (number_in (value_at h (last_number h) key) ≡ Some m) × (n ≤ m) × AreUpTo m (leases h key) }
{}

/// A store was stopped and opened again: the image had the history that was acknowledged, and maybe some commits more, and the later
/// history begins with what the image had. Then there is a number which no lease before the stop passes, and below which none is leased
/// behind the opening.
pub fn leases_are_apart_over_openings()
    ensures { (h image later : History) (key : List ℕ) (n : ℕ) → Extends h image
        → value_at later later.first key ≡ value_at image (last_number image) key
        → number_in (value_at h h.first key) ≡ Some n
        → OnlyLeases key (value_at image image.first key) image.commits
        → OnlyLeases key (value_at later later.first key) later.commits
        → (m : ℕ) × AreUpTo m (leases h key) × AreRising m (leases later key) }
{}

/// Of sessions whose steps stand in one list, as those of a closed store do, no two give the same number.
pub fn no_number_is_given_twice()
    ensures { (o : Origin) (list : List LockEntry) (key : List ℕ) (v w : Knows) (n : ℕ) → v.origin ≡ o → w.origin ≡ o
        → IsPrefix v.seen list → IsPrefix w.seen list → v.session ≢ w.session → IsOnlyLeased o key list
        → IsLeased v key n → IsLeased w key n → ⊥ }
{}

/// A store was stopped and opened again: the image had the history that was acknowledged, and maybe some commits more, and the later store
/// began with the image's value of the key. Then no session of the later store gives a number that a session of the earlier one gave.
pub fn no_number_is_given_again_behind_an_opening()
    ensures { (o later : Origin) (list more : List LockEntry) (image : History) (key : List ℕ) (v w : Knows) (n : ℕ) → v.origin ≡ o
        → IsPrefix v.seen list → IsOnlyLeased o key list → Extends (history_by o list) image
        → OnlyLeases key (value_at image image.first key) image.commits → w.origin ≡ later → IsPrefix w.seen more
        → IsOnlyLeased later key more → first_value later key ≡ value_at image (last_number image) key
        → IsLeased v key n → IsLeased w key n → ⊥ }
{}

/// The key's number never falls, so a later sequence of the same session leases from the value on that the earlier one saw last, or above
/// it.
pub fn a_later_lease_is_above()
    ensures { (o : Origin) (key : List ℕ) (earlier before : List LockEntry) (m n : ℕ) → IsPrefix earlier before
        → IsOnlyLeased o key before → number_in (last_value o key earlier) ≡ Some m
        → number_in (last_value o key before) ≡ Some n → m ≤ n }
{}
