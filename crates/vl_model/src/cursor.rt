ghost use Rattle.std.specs.Prelude.{◌≡◌, ◌≤◌, ℕ, Bool, List, Option, IfOk, IfErr, OnErr, MatchResult};
ghost use Rattle.vl_model.specs.declared.entry.Entry.{Entry};
ghost use Rattle.vl_model.specs.Cursors.{Gives, IsCounted, IsReached, Keeps, Spends};

use crate::Entry;

/// Entries, given one after the other.
pub trait Cursor {
    type Fault;

    /// What reads for it. Many cursors share one reader; those over memory alone have `()`.
    type Reader;

    /// The entries that are left to give, where they are told; `None` claims nothing.
    ghost left: { Self → Option (List Entry) };

    /// The most entries that it still gives, so that a loop over it ends.
    ghost budget: { Self → ℕ };

    /// How often reading has failed. At 2^64 - 1 it stands still, and counts as risen.
    ghost faults: { Self.Reader → ℕ };

    /// Whether a fault says that reading failed, and not something else as want of memory.
    ghost is_read_fault: { Self.Fault → Bool };

    /// What a fault of it may be.
    ghost may_fail: { Self → Self.Fault → Type 0 };

    /// What it goes over before the first entry of a kind, or before its end where none of that kind is left, was read whole.
    /// What is in memory alone always is.
    ghost stands_to: { Self → (Entry → Bool) → Type 0 };

    /// The next entry; `None` where none is left. After a fault the same ones are left.
    fn next(&mut self, reader: &mut Self::Reader) -> Result<Option<Entry>, Self::Fault>
        ensures given { IfOk result (λ next. Gives (left self.old) (left self.new) next) }
        ensures kept { OnErr result (Keeps (left self.old) (left self.new)) }
        ensures spends { MatchResult result (Spends (budget self.old) (budget self.new))
            (λ _. budget self.new ≤ budget self.old) }

        // Of faults, one that says that reading failed is counted, and nothing else is.
        ensures cause { MatchResult result (λ _. faults reader.new ≡ faults reader.old)
            (λ fault. IsCounted (is_read_fault fault) (faults reader.old) (faults reader.new)) }
        ensures may_fail { IfErr result (λ fault. may_fail self.old fault) }

        // What may fail afterwards might have failed before.
        ensures keeps { (fault : Self.Fault) → may_fail self.new fault → may_fail self.old fault }

        // It gives no entry, and no end, behind something that it passed over unread.
        ensures reaches { (is_met : Entry → Bool) → IfOk result (λ next. IsReached is_met next → stands_to self.old is_met) }
        ensures back { (is_met : Entry → Bool) → stands_to self.new is_met → stands_to self.old is_met };
}
