ghost use Rattle.std.specs.Prelude.{◌≡◌, ◌+◌, ◌++◌, ◌<◌, ◌≤◌, [], List, IfOk, IfSome, IsErr, MatchResult, OnErr};
ghost use Rattle.std.specs.Prelude.{Option, Some, length, take, ℕ};
ghost use Rattle.vl_disk.specs.Faults.{HasCause};
ghost use Rattle.vl_io.specs.Source.{HandsOver};

use vl_disk::Failed;

/// An input that gives its bytes in order, some in each call.
pub trait Source {
    /// The bytes that are left to give, where they are told; `None` claims nothing.
    ghost left: { Self → Option (List ℕ) };

    /// What was left when it was last asked for bytes; where it was never asked, some bytes that end with what is
    /// left. `None` claims nothing.
    ghost asked: { Self → Option (List ℕ) };

    /// The most bytes that it still gives, so that a loop over it ends.
    ghost budget: { Self → ℕ };

    /// How many of its calls failed. At 2^64 - 1 it stands still, and counts as risen.
    ghost faults: { Self → ℕ };

    /// Writes the next bytes to the front of `out`, and says how many. Zero is the end of the input.
    /// What `out` holds behind them, and after `Failed`, is not said.
    fn next(&mut self, out: &mut [u8]) -> Result<usize, Failed>
        requires room { 0 < length out.old }

        ensures within { IfOk result (λ n. n ≤ length out.old) }
        ensures given { IfOk result (λ n. HandsOver (left self.old) (left self.new) (take n out.new)) }
        ensures end { IfOk result (λ n. n ≡ 0 → IfSome (left self.old) (λ rest. rest ≡ [])) }
        ensures kept { OnErr result (left self.new ≡ left self.old) }

        // Failed or not, it was asked.
        ensures asked { asked self.new ≡ left self.old }

        ensures spends { MatchResult result
            (λ n. budget self.new + n ≤ budget self.old)
            (λ _. budget self.new ≤ budget self.old) }

        ensures cause { HasCause (faults self.old) (faults self.new) (IsErr result) };

    /// What was left when it was last asked is what it gave then and what is left.
    ghost since_asked: { (source : Self) (rest : List ℕ) → left source ≡ Some rest
        → (given : List ℕ) × (asked source ≡ Some (given ++ rest)) };
}
