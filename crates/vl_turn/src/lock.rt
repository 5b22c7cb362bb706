// The calls on a lock, each made of atomic steps.
ghost use Rattle.std.specs.Prelude.{◌≡◌, ◌⊎◌, [], Some, IsOk, IfOk, IfErr, if◌then◌else◌};
ghost use mathlib.Core.List.{IsPrefix};
ghost use Rattle.vl_turn.specs.Views.{IsRoot, root, filled, entered, gave, copied, counted, disowned, dealt, joined, looked};
ghost use Rattle.vl_turn.specs.Entries.{with_entry};
ghost use Rattle.vl_turn.specs.Steps.{MayEnter};
ghost use Rattle.vl_turn.specs.Tokens.{IsTokenOf, MayJoin, HasTurn, IsEmpty, IsWhole, Begins, Ends};
ghost use Rattle.vl_turn.specs.Fails.{refused};

use crate::fails::LockFail;
use crate::raw::RawLock;
use crate::rule::Token;
use crate::turn::Turn;
use crate::view::{Says, Standing};
use std::alloc::{AllocError, Global};
use std::sync::Wait;

/// A lock round a value that stands for a list of entries.
#[derive(Drop)]
pub struct TurnLock<T: Standing> {
    raw: RawLock<T>,
}

impl<T: Standing> TurnLock<T> {
    ghost use Rattle.vl_turn.specs.Locks.{lock_name, lock_start};

    /// A lock round a value that stands for no entry yet. The token is the one that numbers sessions.
    pub fn new(alloc: Global, value: T) -> Result<(TurnLock<T>, Token<T>), LockFail<T>>
        requires { T.stands value value [] }
        ensures start { IfOk result (λ r. lock_start r.0 ≡ value) }
        ensures token { IfOk result (λ r. IsTokenOf (lock_name r.0) value r.1) }
        ensures root { IfOk result (λ r. r.1.me.0 ≡ filled (root value)) }
        ensures err { IfErr result (λ e. refused e ≡ value) }
    {
        match TurnLock::empty(alloc, &value) {
            Ok((lock, mut token)) => {
                lock.fill(&mut token, value);
                Ok((lock, token))
            }
            Err(_) => Err(LockFail::NoMemory(value)),
        }
    }

    /// A lock for this value, which `fill` puts in. Until then its token has the turn.
    pub fn empty(alloc: Global, value: &T) -> Result<(TurnLock<T>, Token<T>), AllocError>
        ensures start { IfOk result (λ r. lock_start r.0 ≡ value.now) }
        ensures token { IfOk result (λ r. IsEmpty (lock_name r.0) value.now r.1) }
        ensures root { IfOk result (λ r. r.1.me.0 ≡ root value.now) }
    {
        let (raw, token) = RawLock::empty(alloc, value)?;
        Ok((TurnLock { raw }, token))
    }

    /// Fills an empty lock, and gives the turn up.
    pub fn fill(&self, token: &mut Token<T>, value: T)
        requires token { IsEmpty (lock_name self.now) (lock_start self.now) token.old }
        requires stands { T.stands (lock_start self.now) value token.old.me.0.seen }
        ensures token { IsTokenOf (lock_name self.now) (lock_start self.now) token.new }
        ensures filled { token.new.me.0 ≡ filled token.old.me.0 }
    {
        self.raw.open(token);
        self.raw.move_back(token, value);
        self.raw.give(token);
        self.raw.wake();
    }

    /// Ends an empty lock. What its token has seen is then the whole list.
    pub fn discard(self, token: Token<T>)
        requires { IsEmpty (lock_name self) (lock_start self) token }
        ensures { IsWhole T.by token.me.0.seen token.me.0 }
    {
        let TurnLock { raw } = self;
        raw.free(token);
    }

    /// Waits for the turn. The token has then seen the whole list, for which the value stands.
    pub fn take<'a, R: Wait>(&'a self, rt: &R, token: &'a mut Token<T>) -> Turn<'a, T>
        requires { IsTokenOf (lock_name self.now) (lock_start self.now) token.old }
        ensures same_reference { result.token.ghost_name ≡ token.entry.ghost_name }
        ensures token { HasTurn (lock_name self.now) (lock_start self.now) result.token.now }
        ensures begins { Begins T.stands T.by (lock_start self.now) token.old.me.0 result.token.now.me.0 result.value }
    {
        let value = self.wait_and_take(rt, token);
        Turn { value, token }
    }

    /// Gives the turn back, with the value. It stands for one entry more exactly where `enters`.
    pub fn give<'a, W: Says<T::Entry>, R: Wait>(&'a self, rt: &R, turn: Turn<'a, T>, enters: bool)
        requires token { HasTurn (lock_name self.now) (lock_start self.now) turn.token.now }
        requires entry { MayEnter T.by turn.token.now.me.0 W.entry (if enters then 1 else 0) }
        requires stands { T.stands (lock_start self.now) turn.value (with_entry turn.token.now.me.0.seen W.entry) }

        // Of the token that the turn had, once it is given back.
        ensures token { IsTokenOf (lock_name self.now) (lock_start self.now) turn.exit.1.0.now }
        ensures entered { turn.exit.1.0.now.me.0 ≡ gave (entered turn.entry.token.now.me.0 W.entry) }
    {
        let Turn { value, token } = turn;
        self.raw.enter::<W>(token, enters);
        self.raw.move_back(token, value);
        self.raw.give(token);
        self.raw.wake();
    }

    /// A token of a new session, which has the next number and no entries yet. It has seen what
    /// `from` has. Only the token with which the lock was made numbers sessions.
    pub fn seat(&self, from: &mut Token<T>) -> Result<Token<T>, AllocError>
        requires here { from.old.table_id ≡ lock_name self.now }
        requires start { from.old.me.0.start ≡ Some (lock_start self.now) }
        requires root { IsRoot from.old.me.0 }
        ensures ok { IsOk result }
        ensures here { from.new.table_id ≡ from.old.table_id }
        ensures counted { from.new.me ≡ (disowned (counted from.old.me.0), from.old.me.1) }
        ensures token { IfOk result (λ t. IsTokenOf (lock_name self.now) (lock_start self.now) t) }
        ensures session { IfOk result (λ t. t.me.0 ≡ dealt (counted from.old.me.0)) }
    {
        self.raw.number(from);
        Ok(self.raw.split_sessions(from))
    }

    /// A note: a token without a session, which has seen what `from` has.
    pub fn split(&self, from: &mut Token<T>) -> Result<Token<T>, AllocError>
        requires { IsTokenOf (lock_name self.now) (lock_start self.now) from.old }
        ensures ok { IsOk result }
        ensures here { from.new.table_id ≡ from.old.table_id }
        ensures same { from.new.me ≡ from.old.me }
        ensures token { IfOk result (λ t. IsTokenOf (lock_name self.now) (lock_start self.now) t) }
        ensures note { IfOk result (λ t. t.me.0 ≡ copied from.old.me.0) }
    {
        Ok(self.raw.split(from))
    }

    /// Makes two tokens one. It has the sessions of both, and the longer of what they had seen: what
    /// either had seen is known to begin it. Where `note` is the token that numbers sessions, nobody
    /// numbers any more.
    pub fn meet(&self, mine: &mut Token<T>, note: Token<T>)
        requires mine { IsTokenOf (lock_name self.now) (lock_start self.now) mine.old }
        requires note { MayJoin (lock_name self.now) note }
        ensures token { IsTokenOf (lock_name self.now) (lock_start self.now) mine.new }
        ensures met { mine.new.me.0 ≡ looked (joined mine.old.me.0 note.me.0) }

        // It is the longer one.
        ensures one { (mine.new.me.0.seen ≡ mine.old.me.0.seen) ⊎ (mine.new.me.0.seen ≡ note.me.0.seen) }
        ensures mine { IsPrefix mine.old.me.0.seen mine.new.me.0.seen }
        ensures note { IsPrefix note.me.0.seen mine.new.me.0.seen }
    {
        self.raw.join(mine, note);
        self.raw.load(mine);
    }

    /// Waits for the turn for the last time. The value then stands for the whole list.
    pub fn close<R: Wait>(self, rt: &R, mut last: Token<T>) -> T
        requires { IsTokenOf (lock_name self) (lock_start self) last }
        ensures { Ends T.stands T.by (lock_start self) last.me.0 result }
    {
        let value = self.wait_and_take(rt, &mut last);
        self.raw.close(&mut last);
        self.discard(last);
        value
    }

    // Waits until the turn was free, and takes the value out.
    fn wait_and_take<R: Wait>(&self, rt: &R, token: &mut Token<T>) -> T
        requires { IsTokenOf (lock_name self.now) (lock_start self.now) token.old }
        ensures token { HasTurn (lock_name self.now) (lock_start self.now) token.new }
        ensures begins { Begins T.stands T.by (lock_start self.now) token.old.me.0 token.new.me.0 result }
    {
        for _ in rt.forever() {
            if self.raw.take(token) {
                return self.raw.move_out(token);
            }
            self.raw.park(rt);
        }
        unreachable!()
    }
}
