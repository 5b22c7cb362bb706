ghost use Rattle.std.specs.Prelude.{◌≡◌, ℕ, Bool, List, IfOk, IfErr, MatchResult};
ghost use Rattle.vl_model.specs.Winners.{exact};
ghost use Rattle.vl_model.specs.Cursors.{IsCounted};
ghost use Rattle.vl_merge.specs.Marked.{Marked, all_of, is_first_outside, outside_of};
ghost use Rattle.vl_model.specs.Merging.{has_older};

use vl_model::Entry;

/// Sources of entries, from the newest on, some of them tables that have numbers. They are asked with a reader, which may
/// keep what it read, as the last block.
pub trait Sources {
    type Reader;

    type Fault;

    /// These are the entries of all sources, the newest source first, each with whether one of the tables of some numbers
    /// has it. Sources that don't tell their entries have none.
    ghost has: { Self → List ℕ → List Marked → Type 0 };

    /// What the reader keeps is of these sources. Only then are their answers told, and their faults.
    ghost fits: { Self → Self.Reader → Type 0 };

    /// How often reading has failed. At 2^64 - 1 it stands still, and counts as risen.
    ghost faults: { Self.Reader → ℕ };

    /// Whether a fault says that reading failed, and not something else as want of memory.
    ghost is_read_fault: { Self.Fault → Bool };

    /// What a fault of theirs may be.
    ghost may_fail: { Self → Self.Fault → Type 0 };

    /// The entry of a key and version in the first source that has one.
    fn exact(
        &self,
        reader: &mut Self::Reader,
        key: &[u8],
        version: u64,
    ) -> Result<Option<Entry>, Self::Fault>
        ensures found { (inputs : List ℕ) (ms : List Marked) → fits self.now reader.old → has self.now inputs ms
            → IfOk result (λ found. found ≡ exact (all_of ms) key.now version) }
        ensures fits { fits self.now reader.old → fits self.now reader.new }
        ensures cause { MatchResult result (λ _. faults reader.new ≡ faults reader.old)
            (λ fault. IsCounted (is_read_fault fault) (faults reader.old) (faults reader.new)) }
        ensures may_fail { fits self.now reader.old → IfErr result (λ fault. may_fail self.now fault) };

    /// Whether a source other than these tables has the key at a lower version.
    fn older(
        &self,
        reader: &mut Self::Reader,
        inputs: &[u32],
        key: &[u8],
        version: u64,
    ) -> Result<bool, Self::Fault>
        ensures found { (ms : List Marked) → fits self.now reader.old → has self.now inputs.now ms
            → IfOk result (λ found. found ≡ has_older (outside_of ms) key.now version) }
        ensures fits { fits self.now reader.old → fits self.now reader.new }
        ensures cause { MatchResult result (λ _. faults reader.new ≡ faults reader.old)
            (λ fault. IsCounted (is_read_fault fault) (faults reader.old) (faults reader.new)) }
        ensures may_fail { fits self.now reader.old → IfErr result (λ fault. may_fail self.now fault) };

    /// Whether the first source that has the key and version is none of these tables. Where none has it the answer is no.
    fn shadowed(
        &self,
        reader: &mut Self::Reader,
        inputs: &[u32],
        key: &[u8],
        version: u64,
    ) -> Result<bool, Self::Fault>
        ensures found { (ms : List Marked) → fits self.now reader.old → has self.now inputs.now ms
            → IfOk result (λ found. found ≡ is_first_outside ms key.now version) }
        ensures fits { fits self.now reader.old → fits self.now reader.new }
        ensures cause { MatchResult result (λ _. faults reader.new ≡ faults reader.old)
            (λ fault. IsCounted (is_read_fault fault) (faults reader.old) (faults reader.new)) }
        ensures may_fail { fits self.now reader.old → IfErr result (λ fault. may_fail self.now fault) };
}
