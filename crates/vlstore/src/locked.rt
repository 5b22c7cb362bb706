//! What lies under the lock: an engine, with what it was when its store was made.
ghost use Rattle.std.specs.Prelude.{◌≡◌};

use crate::mark::Mark;
use std::collections::LinkedList;
use vl_disk::Disk;
use vl_engine::Engine;
use vl_engine_model::{Layout, LockEntry};
use vl_model::{Change, Key};
use vl_turn::Standing;

/// What an engine was when its store was made: what was known of the versions of each key up to the last commit, that
/// commit's number, and the layout. No value of it is made.
pub struct Origin {
    pub base: LinkedList<(u64, LinkedList<(Key, Change)>)>,
    pub number: u64,
    pub layout: Layout,
}

/// The engine, and what it was when its store was made.
#[derive(Drop)]
pub struct Locked<D: Disk> {
    pub(crate) engine: Engine<D>,
    pub(crate) origin: Mark,
}

impl<D: Disk> Standing for Locked<D> {
    type Entry = LockEntry;

    ghost use Rattle.std.specs.Prelude.{◌≡◌, is_some};
    ghost use Rattle.vlstore.specs.Standing.{NeverFails, Stands, parts};

    ghost by = { λ entry. entry.session };

    ghost stands = { λ first now list. (now.origin.me.0 ≡ first.origin.me.0)
        × Stands D.Held.bytes (NeverFails D.faults D.Reader.faults D.Writer.faults) first.origin.me.0
        (is_some (D.told first.engine.disk)) list
        (parts (D.told now.engine.disk) now.engine.core now.engine.merging now.engine.collecting now.engine.removing) };
}
