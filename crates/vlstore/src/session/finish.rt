ghost use Rattle.std.specs.Prelude.{◌≡◌, if◌then◌else◌, is_some};
ghost use Rattle.vlstore.specs.Standing.{NeverFails, Stands, parts};
ghost use Rattle.vl_turn.specs.Entries.{with_entry};
ghost use Rattle.vl_turn.specs.Locks.{lock_name, lock_start};
ghost use Rattle.vl_turn.specs.Steps.{MayEnter};
ghost use Rattle.vl_turn.specs.Tokens.{HasTurn, IsTokenOf};
ghost use Rattle.vl_turn.specs.Views.{entered, gave};

use crate::locked::Locked;
use std::sync::Wait;
use vl_disk::Disk;
use vl_engine_model::LockEntry;
use vl_turn::{Says, Turn, TurnLock};

/// Gives the turn back after a call of the engine. What was asked and answered is for the entry alone.
pub fn finish<D: Disk, W: Says<LockEntry>, R: Wait, Q, A>(
    lock: &TurnLock<Locked<D>>,
    rt: &R,
    turn: Turn<'_, Locked<D>>,
    asked: &Q,
    answer: &A,
    enters: bool,
)
    requires token { HasTurn (lock_name lock.now) (lock_start lock.now) turn.token.now }
    requires entry { MayEnter (λ (e : _). e.session) turn.token.now.me.0 W.entry (if enters then 1 else 0) }
    requires origin { turn.value.origin.me.0 ≡ (lock_start lock.now).origin.me.0 }
    requires stands { Stands D.Held.bytes (NeverFails D.faults D.Reader.faults D.Writer.faults)
        (lock_start lock.now).origin.me.0 (is_some (D.told (lock_start lock.now).engine.disk))
        (with_entry turn.token.now.me.0.seen W.entry)
        (parts (D.told turn.value.engine.disk) turn.value.engine.core turn.value.engine.merging turn.value.engine.collecting
        turn.value.engine.removing) }
    ensures token { IsTokenOf (lock_name lock.now) (lock_start lock.now) turn.exit.1.0.now }
    ensures entered { turn.exit.1.0.now.me.0 ≡ gave (entered turn.entry.token.now.me.0 W.entry) }
{
    let _ = asked;
    let _ = answer;
    let Turn { value, token } = turn;
    lock.give::<W, R>(rt, Turn { value, token }, enters);
}
