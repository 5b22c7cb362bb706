// Laws of memtables: each is the contract of a function that does nothing.
ghost use Rattle.std.specs.Prelude.{◌≡◌, ◌≤◌, ◌<◌, ◌+◌, ◌^◌, ℕ, true, List, [], ◌∷◌, length, sum};
ghost use Rattle.std.specs.List.{AllByRecursion};
ghost use Rattle.vl_memtable.specs.Lengths.{lengths_with, doubles};
ghost use Rattle.vl_memtable.specs.Rows.{after_runs_of_one};

/// Each run keeps at least twice the entries of the next newer one.
pub fn runs_double()
    ensures { (n : ℕ) (lengths : List ℕ) → doubles lengths ≡ true
        → doubles (lengths_with n lengths) ≡ true }
{}

/// How long the runs are after seven, eight and nine commits of one write each, the newest first.
pub fn lengths_after_commits_of_one()
    ensures seven { after_runs_of_one 7 ≡ 1 ∷ 2 ∷ 4 ∷ [] }
    ensures eight { after_runs_of_one 8 ≡ 8 ∷ [] }
    ensures nine { after_runs_of_one 9 ≡ 1 ∷ 8 ∷ [] }
{}

/// Where none is empty and each has at least twice the entries of the next newer one, there are at most
/// a logarithm of runs.
pub fn runs_are_few()
    ensures { (lengths : List ℕ) → doubles lengths ≡ true → AllByRecursion (λ n. 0 < n) lengths
        → 2 ^ length lengths ≤ sum lengths + 1 }
{}
