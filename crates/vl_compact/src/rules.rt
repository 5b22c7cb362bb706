//! What a merge does with an entry that doesn't come again.

ghost use Rattle.std.specs.Prelude.{◌≡◌, ◌+◌, ◌&&◌, ◌==◌, nat_le, if◌then◌else◌, IfErr, IfOk, MatchResult, OnOk};
ghost use Rattle.vl_compact.specs.Keeps.{AreRulesOf, fate_of};
ghost use Rattle.vl_compact.specs.Walking.{is_old, is_spent};
ghost use Rattle.vl_engine_model.specs.declared.job.Job as laid;
ghost use Rattle.vl_model.specs.Cursors.{IsCounted};
ghost use Rattle.vl_model.specs.Entries.{is_gone};

use crate::last::Last;
use std::alloc::AllocError;
use vl_disk::ReadFault;
use vl_merge::Sources;
use vl_model::{Body, Entry};

/// What becomes of an entry.
#[derive(Clone, Copy)]
pub enum Fate {
    Kept,
    Dropped,
    // It is dropped as a deletion that nothing outside the inputs needs, and for no other reason.
    Needless,
}

/// By what a merge keeps an entry: the numbers of its inputs, the floor, and how many versions are kept.
#[derive(Drop)]
pub struct Rules {
    pub inputs: Vec<u32>,
    pub floor: u64,
    pub keep: u8,
}

impl Rules {
    /// What becomes of an entry of whose key so many versions up to the floor came before.
    pub fn fate<V: Sources<Fault = ReadFault>>(
        &self,
        base: &V,
        looks: &mut V::Reader,
        seen: u64,
        entry: &Entry,
    ) -> Result<Fate, ReadFault>
        ensures fate { (j : laid.Job) → AreRulesOf self.now j → V.has base.now j.inputs j.base → V.fits base.now looks.old
            → IfOk result (λ fate. fate ≡ fate_of j seen entry.now) }
        ensures fits { V.fits base.now looks.old → V.fits base.now looks.new }
        ensures cause { MatchResult result (λ _. V.faults looks.new ≡ V.faults looks.old)
            (λ fault. IsCounted (V.is_read_fault fault) (V.faults looks.old) (V.faults looks.new)) }
        ensures may_fail { V.fits base.now looks.old → IfErr result (λ fault. V.may_fail base.now fault) }
    {
        if self.is_old(seen, entry) {
            return Ok(Fate::Dropped);
        }
        if base.shadowed(looks, &self.inputs, entry.key.as_slice(), entry.version)? {
            return Ok(Fate::Dropped);
        }
        if self.is_spent(base, looks, entry)? {
            return Ok(Fate::Needless);
        }
        Ok(Fate::Kept)
    }

    // Whether it is a deletion that nothing outside the inputs needs.
    #[tactic(auto, using(crate::proofs::Fates::not_spent, crate::proofs::Fates::spent_by))]
    fn is_spent<V: Sources<Fault = ReadFault>>(
        &self,
        base: &V,
        looks: &mut V::Reader,
        entry: &Entry,
    ) -> Result<bool, ReadFault>
        ensures spent { (j : laid.Job) → AreRulesOf self.now j → V.has base.now j.inputs j.base → V.fits base.now looks.old
            → IfOk result (λ spent. spent ≡ is_spent j entry.now) }
        ensures fits { V.fits base.now looks.old → V.fits base.now looks.new }
        ensures cause { MatchResult result (λ _. V.faults looks.new ≡ V.faults looks.old)
            (λ fault. IsCounted (V.is_read_fault fault) (V.faults looks.old) (V.faults looks.new)) }
        ensures may_fail { V.fits base.now looks.old → IfErr result (λ fault. V.may_fail base.now fault) }
    {
        if !self.may_be_spent(entry) {
            return Ok(false);
        }
        let older = base.older(looks, &self.inputs, entry.key.as_slice(), entry.version)?;
        Ok(!older)
    }

    // Whether so many newer versions up to the floor came that it isn't kept.
    fn is_old(&self, seen: u64, entry: &Entry) -> bool
        ensures { result ≡ (nat_le entry.now.version self.now.floor && nat_le self.now.keep seen) }
    {
        entry.version <= self.floor && self.keep as u64 <= seen
    }

    // Whether it is needless where nothing outside the inputs has its key at a lower version.
    fn may_be_spent(&self, entry: &Entry) -> bool
        ensures { result ≡ ((self.now.keep == 1) && (is_gone entry.now.body && nat_le entry.now.version self.now.floor)) }
    {
        self.keep == 1 && matches!(entry.body, Body::Gone) && entry.version <= self.floor
    }

    /// Where it is once the entry came. Want of memory is the answer too where so many versions can't be counted.
    pub fn last_of(&self, seen: u64, entry: &Entry) -> Result<Last, AllocError>
        ensures key { IfOk result (λ last. last.key ≡ entry.now.key) }
        ensures version { IfOk result (λ last. last.version ≡ entry.now.version) }
        ensures seen { IfOk result (λ last. last.seen ≡ seen + (if nat_le entry.now.version self.now.floor then 1 else 0)) }
    {
        Ok(Last {
            key: entry.key.share()?,
            version: entry.version,
            seen: self.counted(seen, entry)?,
        })
    }

    // So many versions, and one more where this one is up to the floor.
    fn counted(&self, seen: u64, entry: &Entry) -> Result<u64, AllocError>
        ensures { IfOk result (λ n. n ≡ seen + (if nat_le entry.now.version self.now.floor then 1 else 0)) }
    {
        if entry.version > self.floor {
            return Ok(seen);
        }
        match seen.checked_add(1) {
            Some(more) => Ok(more),
            None => Err(AllocError),
        }
    }
}
