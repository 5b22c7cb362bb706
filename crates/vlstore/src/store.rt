//! A store: a lock round an engine, and its sessions.

mod beginning;
mod close;
mod open;

use crate::locked::Locked;
use std::alloc::Global;
use std::marker::Model;
use std::sync::Arc;
use vl_disk::Disk;
use vl_turn::{Token, TurnLock};

/// A store for several threads. Each of them has a session, by which it makes the engine's calls.
#[derive(Drop)]
pub struct Store<D: Disk> {
    pub(crate) lock: Arc<TurnLock<Locked<D>>, Global>,
    // The token that numbered the sessions.
    pub(crate) root: Token<Locked<D>>,
}

impl<D: Disk> Model for Store<D> {
    ghost use Rattle.std.specs.Arc.{arc_value};
    ghost use Rattle.std.specs.Prelude.{is_some, []};
    ghost use Rattle.vlstore.specs.Knowing.{IsStore, Knows};
    ghost use Rattle.vl_turn.specs.Locks.{lock_name, lock_start};
    ghost use Rattle.vl_turn.specs.Views.{next_of};

    ghost Value = { Knows };

    // In place of a session's number it has how many there are.
    ghost view = { λ s. record {
      store = lock_name (arc_value s.lock);
      origin = (lock_start (arc_value s.lock)).origin.me.0;
      tells = is_some (D.told (lock_start (arc_value s.lock)).engine.disk);
      session = next_of s.root.me.0.made;
      seen = s.root.me.0.seen;
      own = [];
    } };

    ghost invariant = { λ s. IsStore (lock_name (arc_value s.lock)) (lock_start (arc_value s.lock)) s.root };
}
