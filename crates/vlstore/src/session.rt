//! A session: the calls of an engine, each made under the lock.

mod begin;
mod collect;
mod commit;
mod end;
mod finish;
mod flush;
mod fresh;
mod install;
mod meet;
mod merge;
mod number;
mod plan;
mod relocate;
mod rotate;
mod sweep;

use crate::locked::Locked;
use std::alloc::Global;
use std::marker::Model;
use std::sync::Arc;
use vl_disk::Disk;
use vl_turn::{Token, TurnLock};

/// One thread's part of a store. What it began goes back to it, and to no other session.
#[derive(Drop)]
pub struct Session<D: Disk> {
    pub(crate) lock: Arc<TurnLock<Locked<D>>, Global>,
    pub(crate) token: Token<Locked<D>>,
}

impl<D: Disk> Model for Session<D> {
    ghost use Rattle.std.specs.Arc.{arc_value};
    ghost use Rattle.std.specs.Prelude.{is_some};
    ghost use Rattle.vlstore.specs.Knowing.{IsSession, Knows, own_in, session_in};
    ghost use Rattle.vl_turn.specs.Locks.{lock_name, lock_start};

    ghost Value = { Knows };

    ghost view = { λ s. record {
      store = lock_name (arc_value s.lock);
      origin = (lock_start (arc_value s.lock)).origin.me.0;
      tells = is_some (D.told (lock_start (arc_value s.lock)).engine.disk);
      session = session_in s.token.me.0.owns;
      seen = s.token.me.0.seen;
      own = own_in s.token.me.0.owns;
    } };

    ghost invariant = { λ s. IsSession (lock_name (arc_value s.lock)) (lock_start (arc_value s.lock)) s.token };
}
