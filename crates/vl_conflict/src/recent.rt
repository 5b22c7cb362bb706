ghost use Rattle.std.specs.Prelude.{◌≡◌, ◌≤◌, ◌+◌, [], OnOk, OnErr, IfOk, map};
ghost use Rattle.std.specs.Box.{boxed_slice_items};
ghost use Rattle.std.specs.List.{filter};
ghost use Rattle.std.specs.FinMap.{put};
ghost use Rattle.vl_model.specs.Keys.{key_cmp};
ghost use Rattle.vl_conflict.specs.Notes.{is_above_floor, IsShallow};
ghost use Rattle.vl_conflict.specs.Recent.{first_newer_than, IsFirstConflict, StillRemembers};

use crate::last_commit_map::LastCommitMap;
use crate::search::{first_of_keys, first_of_spans, lesser};
use std::alloc::{AllocError, Global};
use std::boxed::BoxedSlice;
use std::collections::BTreeSet;
use std::marker::Model;
use vl_model::{Key, Span};

/// The keys that commits above a floor named, each with the number of the last that did.
#[derive(Drop)]
pub struct Recent {
    notes: LastCommitMap,
}

impl Model for Recent {
    ghost use Rattle.std.specs.Prelude.{◌≡◌, true};
    ghost use Rattle.std.specs.FinMap.{is_sorted};
    ghost use Rattle.vl_model.specs.Keys.{key_cmp};
    ghost use Rattle.vl_conflict.specs.Notes.{Kept, IsShallow};

    ghost Value = { Kept };

    ghost view = { λ a. a.notes };

    ghost invariant = { λ a. (is_sorted key_cmp a.notes.named ≡ true) × IsShallow a.notes };
}

impl Recent {
    pub fn new(alloc: Global) -> Self
        ensures { result.named ≡ [] }
    {
        Recent {
            notes: LastCommitMap::new(alloc),
        }
    }

    /// Of the keys that were read, or lie in an interval that was, the least that a commit above the
    /// number named, with the last that did.
    pub fn check(
        &self,
        number: u64,
        keys: &BTreeSet<BoxedSlice<u8>>,
        spans: &[Span],
    ) -> Result<Option<(Key, u64)>, AllocError>
        ensures first { IfOk result (λ found.
            found ≡ first_newer_than number (map boxed_slice_items keys.now.keys) spans.now self.now.named) }
        ensures conflict { IfOk result (IsFirstConflict self.now.named number (map boxed_slice_items keys.now.keys) spans.now) }
        ensures shallow { IsShallow self.now }
    {
        let of_keys = first_of_keys(&self.notes, number, keys);
        let of_spans = first_of_spans(&self.notes, number, spans);
        match lesser(of_keys, of_spans) {
            Some((key, last)) => Ok(Some((key.share()?, last))),
            None => Ok(None),
        }
    }

    /// Makes room for so many more keys.
    pub fn reserve(&mut self, keys: usize) -> Result<(), AllocError>
        ensures named { self.new.named ≡ self.old.named }
        ensures room { OnOk result (keys ≤ self.new.room) }
        ensures err { OnErr result (self.new ≡ self.old) }
    {
        self.notes.reserve(keys)
    }

    /// Notes a key that a commit names, for which there is room.
    pub fn note(&mut self, key: Key, number: u64)
        requires { 1 ≤ self.old.room }
        ensures named { self.new.named ≡ put key_cmp key number self.old.named }
        ensures room { self.old.room ≤ self.new.room + 1 }
        ensures shallow { IsShallow self.new }
    {
        self.notes.insert(key, number);
    }

    /// Forgets what no one can ask whose number is at or above the floor.
    pub fn prune(&mut self, floor: u64)
        ensures named { self.new.named ≡ filter (is_above_floor floor) self.old.named }
        ensures remembers { StillRemembers floor self.old.named self.new.named }
        ensures room { self.old.room ≤ self.new.room }
        ensures shallow { IsShallow self.new }
    {
        self.notes.retain_above(floor);
    }
}
