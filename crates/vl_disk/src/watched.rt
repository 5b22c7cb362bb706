ghost use Rattle.std.specs.Prelude.{ℕ, Bool, Option};
ghost use Rattle.vl_disk.specs.declared.name.Name.{Name};
ghost use Rattle.vl_disk.specs.DiskState.{DiskState};
ghost use Rattle.vl_disk.specs.Spare.{Spare};

/// What contracts see of a disk.
pub trait Watched {
    /// What it holds. A disk that doesn't tell it claims nothing of its bytes.
    ghost told: { Self → Option DiskState };

    /// The moment, as a number that never falls.
    ghost moment: { Self → ℕ };

    /// What it was at some moment from that one on, during a call or between two. A crash at such a moment leaves
    /// what `MayLeave` allows.
    ghost states_since: { Self → ℕ → DiskState → Type 0 };

    /// How many changing calls were asked for: create, append, sync, cut and remove, failed ones too.
    ghost calls: { Self → ℕ };

    /// How often it has failed. The count never falls.
    ghost faults: { Self → ℕ };

    /// The room that `ready` made, by name.
    ghost spare: { Self → Name → Spare };

    /// Whether a changing call that fails leaves what a read gives of each file, and which files stand, as they are.
    ghost fails_cleanly: { Bool };

    /// Of its calls just the changing ones past so many fail, or none. A disk that doesn't tell when it fails claims
    /// nothing.
    ghost fails_past: { Self → Option ℕ → Type 0 };

    /// Whatever it gives that reads the files that it shares, or writes those that it lends, never fails. A disk that can't
    /// tell claims nothing.
    ghost gives_steady: { Self → Type 0 };
}
