ghost use Rattle.vlstore.specs.Standing.{NeverFails, parts};
ghost use Rattle.std.specs.Prelude.{◌≡◌, ◌++◌, IfErr, IfOk, length};
ghost use Rattle.vlstore.specs.Stores.{AreAt, AreMet, AreOf, Closed, Left, owns_of};
ghost use Rattle.vl_turn.specs.Locks.{lock_name, lock_start};
ghost use Rattle.vl_turn.specs.Tokens.{IsTokenOf};

use super::Store;
use crate::locked::Locked;
use crate::session::Session;
use std::sync::{Arc, Wait};
use vl_disk::Disk;
use vl_engine::Engine;
use vl_turn::{Token, TurnLock};

impl<D: Disk + Drop> Store<D> {
    /// The engine, which stands for all that its sessions did. All that were made are handed in, so that nobody
    /// else has a share of the lock; where somebody has, it waits for ever. To leave a store whose sessions
    /// were dropped, `into_engine` asks nothing.
    pub fn close<R: Wait>(self, rt: &R, sessions: Vec<Session<D>>) -> Engine<D>
        requires sessions { AreOf self sessions.items }
        requires all { length sessions.items ≡ self.session }
        ensures { Closed D.Held.bytes (NeverFails D.faults D.Reader.faults D.Writer.faults) self self.session sessions.items
            (parts (D.told result.disk) result.core result.merging result.collecting result.removing) }
    {
        let Store { lock, mut root } = self;
        meet_all(&lock, &mut root, sessions);
        match Arc::into_inner(lock) {
            Some(lock) => {
                let Locked { engine, origin: _ } = lock.close(rt, root);
                engine
            }
            None => {
                for _ in rt.forever() {}
                unreachable!()
            }
        }
    }
}

impl<D: Disk + Drop> Store<D> {
    /// The engine, where no session of the store is left: each was dropped. Else the store comes back as it was. It
    /// asks for no sessions, and says nothing of what each of them knew, as `close` does.
    pub fn into_engine<R: Wait>(self, rt: &R) -> Result<Engine<D>, Store<D>>
        ensures engine { IfOk result (λ engine. Left D.Held.bytes (NeverFails D.faults D.Reader.faults D.Writer.faults) self
            (parts (D.told engine.disk) engine.core engine.merging engine.collecting engine.removing)) }
        ensures back { IfErr result (λ store. store ≡ self) }
    {
        let Store { lock, root } = self;
        match Arc::try_unwrap(lock) {
            Ok(lock) => {
                let Locked { engine, origin: _ } = lock.close(rt, root);
                Ok(engine)
            }
            Err(lock) => Err(Store { lock, root }),
        }
    }
}

// Makes the tokens of some sessions one with the token that numbered them.
fn meet_all<D: Disk + Drop>(
    lock: &TurnLock<Locked<D>>,
    root: &mut Token<Locked<D>>,
    sessions: Vec<Session<D>>,
)
    requires root { IsTokenOf (lock_name lock.now) (lock_start lock.now) root.old }
    requires sessions { AreAt (lock_name lock.now) sessions.items }
    ensures root { IsTokenOf (lock_name lock.now) (lock_start lock.now) root.new }
    ensures made { root.new.me.0.made ≡ root.old.me.0.made }
    ensures met { AreMet root.new.me.0.seen root.new.me.0.owns sessions.items }
    ensures owns { root.new.me.0.owns ≡ root.old.me.0.owns ++ owns_of sessions.items }
{
    for session in sessions {
        let Session { lock: _, token } = session;
        lock.meet(root, token);
    }
}
