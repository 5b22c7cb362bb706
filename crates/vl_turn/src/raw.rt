// Three words and a slot, and one method for each kind of atomic step on them. Tokens are the seats
// of `atomic_table`, and what a token knows is its view. A step on a word owes that it keeps the rule
// whatever the other threads did before it, and only such a step changes what a token knows.
ghost use Rattle.std.specs.Prelude.{◌≡◌, ◌∷◌, true, false, [], Some, None, IfOk, if◌then◌else◌};
ghost use Rattle.std.specs.Bool.{OnTrue, OnFalse};
ghost use mathlib.Core.List.{IsPrefix};
ghost use Rattle.vl_turn.specs.Views.{IsRoot, root, entered, gave, opened, closing, looked, copied, joined, counted, disowned, dealt};
ghost use Rattle.vl_turn.specs.Steps.{HoldsValue, IsTaken, MayEnter};
ghost use Rattle.vl_turn.specs.Tokens.{IsTokenOf, MayJoin, HasTurn, IsEmpty, IsWhole};

use crate::plays::{Both, Close, Copied, Dealt, Enter, Give, Load, Number, Open, Take};
use crate::rule::{Law, Token};
use crate::view::{Says, Standing, View};
use atomic_table::Table;
use std::alloc::{AllocError, Global};
use std::snapshot::Snapshot;
use std::sync::Wait;

// The word that counts the entries.
const ENTRIES: usize = 0;
// The word that is 1 while a token has the turn, and else 0.
const TURN: usize = 1;
// The word that counts the sessions.
const SESSIONS: usize = 2;
// The slot, in which the value is while nobody has the turn.
const VALUE: usize = 0;

/// The words and the slot of a lock.
#[derive(Drop)]
pub(crate) struct RawLock<T: Standing> {
    table: Table<Option<T>, View<T, T::Entry>, Snapshot<T>, Law, Global>,
    ghost sized: { (table.shared.table_id.words ≡ 3) × (table.shared.table_id.slots ≡ 1) },
}

fn amount(enters: bool) -> u64
    ensures { result ≡ if enters then 1 else 0 }
{
    if enters { 1 } else { 0 }
}

impl<T: Standing> RawLock<T> {
    ghost use Rattle.vl_turn.specs.Locks.{raw_name, raw_start};

    /// Makes words and a slot with nothing in it. The token has the turn.
    pub(crate) fn empty(alloc: Global, value: &T) -> Result<(RawLock<T>, Token<T>), AllocError>
        ensures start { IfOk result (λ r. raw_start r.0 ≡ value.now) }
        ensures token { IfOk result (λ r. IsEmpty (raw_name r.0) value.now r.1) }
        ensures root { IfOk result (λ r. r.1.me.0 ≡ root value.now) }
    {
        let start = Snapshot::of(value);
        let (table, token) = Table::vacant(alloc, &[0, 1, 0], 1, &start)?;
        Ok((RawLock { table }, token))
    }

    /// Take: writes 1 into the word of the turn. If it was 0, the token has the turn, and the slot.
    pub(crate) fn take(&self, token: &mut Token<T>) -> bool
        requires { IsTokenOf (raw_name self.now) (raw_start self.now) token.old }
        ensures here { token.new.table_id ≡ token.old.table_id }
        ensures taken { OnTrue result (IsTaken T.stands T.by token.old.me token.new.me) }
        ensures held { OnFalse result (token.new.me ≡ token.old.me) }
    {
        self.table.shared.swap::<Take>(token, TURN, 1) == 0
    }

    /// Move: takes the value out of the slot that the token holds.
    pub(crate) fn move_out(&self, token: &mut Token<T>) -> T
        requires here { token.old.table_id ≡ raw_name self.now }
        requires filled { (value : T) × (token.old.me.1 ≡ (0, Some value) ∷ []) }
        ensures here { token.new.table_id ≡ token.old.table_id }
        ensures value { token.old.me.1 ≡ (0, Some result) ∷ [] }
        ensures slot { token.new.me ≡ (token.old.me.0, (0, None) ∷ []) }
    {
        match self.table.shared.exchange(token, VALUE, None) {
            Some(value) => value,
            None => unreachable!(),
        }
    }

    /// Move: puts a value back into it.
    pub(crate) fn move_back(&self, token: &mut Token<T>, value: T)
        requires here { token.old.table_id ≡ raw_name self.now }
        requires empty { token.old.me.1 ≡ (0, None) ∷ [] }
        ensures here { token.new.table_id ≡ token.old.table_id }
        ensures slot { token.new.me ≡ (token.old.me.0, (0, Some value) ∷ []) }
    {
        match self.table.shared.exchange(token, VALUE, Some(value)) {
            None => {}
            Some(_) => unreachable!(),
        }
    }

    /// Enter: adds 1 to the count of entries for the entry that `W` says, or 0 for none.
    pub(crate) fn enter<W: Says<T::Entry>>(&self, token: &mut Token<T>, enters: bool)
        requires here { token.old.table_id ≡ raw_name self.now }
        requires turn { token.old.me.0.holds ≡ true }
        requires entry { MayEnter T.by token.old.me.0 W.entry (if enters then 1 else 0) }
        ensures here { token.new.table_id ≡ token.old.table_id }
        ensures entered { token.new.me ≡ (entered token.old.me.0 W.entry, token.old.me.1) }
    {
        self.table
            .shared
            .fetch_add::<Enter<W>>(token, ENTRIES, amount(enters));
    }

    /// Give: writes 0 into the word of the turn, and the slot goes home.
    pub(crate) fn give(&self, token: &mut Token<T>)
        requires here { token.old.table_id ≡ raw_name self.now }
        requires from { token.old.me.0.start ≡ Some (raw_start self.now) }
        requires turn { (token.old.me.0.holds ≡ true) × (token.old.me.0.closed ≡ false) }
        requires value { HoldsValue T.stands (raw_start self.now) token.old.me }
        ensures here { token.new.table_id ≡ token.old.table_id }
        ensures gave { token.new.me ≡ (gave token.old.me.0, []) }
    {
        self.table.shared.store::<Give>(token, TURN, 0);
    }

    /// Load: reads the count of entries, and knows then that what was joined begins what was seen.
    pub(crate) fn load(&self, token: &mut Token<T>)
        requires { token.old.table_id ≡ raw_name self.now }
        ensures here { token.new.table_id ≡ token.old.table_id }
        ensures looked { token.new.me ≡ (looked token.old.me.0, token.old.me.1) }
        ensures lagging { IsPrefix token.old.me.0.lagging token.old.me.0.seen }
    {
        self.table.shared.load::<Load>(token, ENTRIES);
    }

    /// Number: adds 1 to the count of sessions. The token has the new session for now.
    pub(crate) fn number(&self, token: &mut Token<T>)
        requires here { token.old.table_id ≡ raw_name self.now }
        requires root { IsRoot token.old.me.0 }
        ensures here { token.new.table_id ≡ token.old.table_id }
        ensures counted { token.new.me ≡ (counted token.old.me.0, token.old.me.1) }
    {
        self.table.shared.fetch_add::<Number>(token, SESSIONS, 1);
    }

    /// Split: a new token, which has seen the same and has no session.
    pub(crate) fn split(&self, token: &mut Token<T>) -> Token<T>
        requires { token.old.table_id ≡ raw_name self.now }
        ensures here { token.new.table_id ≡ token.old.table_id }
        ensures there { result.table_id ≡ token.old.table_id }
        ensures same { token.new.me ≡ token.old.me }
        ensures new { result.me ≡ (copied token.old.me.0, []) }
    {
        self.table.shared.split_seat::<Copied>(token)
    }

    /// Split: a new token, which has seen the same and gets the sessions.
    pub(crate) fn split_sessions(&self, token: &mut Token<T>) -> Token<T>
        requires { token.old.table_id ≡ raw_name self.now }
        ensures here { token.new.table_id ≡ token.old.table_id }
        ensures there { result.table_id ≡ token.old.table_id }
        ensures left { token.new.me ≡ (disowned token.old.me.0, token.old.me.1) }
        ensures new { result.me ≡ (dealt token.old.me.0, []) }
    {
        self.table.shared.split_seat::<Dealt>(token)
    }

    /// Join: one token of two, with the longer of what they had seen, and the sessions of both.
    pub(crate) fn join(&self, stay: &mut Token<T>, gone: Token<T>)
        requires stay { IsTokenOf (raw_name self.now) (raw_start self.now) stay.old }
        requires gone { MayJoin (raw_name self.now) gone }
        ensures here { stay.new.table_id ≡ stay.old.table_id }
        ensures joined { stay.new.me ≡ (joined stay.old.me.0 gone.me.0, stay.old.me.1) }
    {
        self.table.shared.join_seat::<Both>(stay, gone);
    }

    /// Park: sleeps while the word of the turn is 1. It may also return for no reason.
    pub(crate) fn park<R: Wait>(&self, rt: &R) {
        self.table.shared.park(rt, TURN, 1);
    }

    /// Wake: ends the sleep of one thread, if one sleeps.
    pub(crate) fn wake(&self) {
        self.table.shared.wake_one(TURN);
    }

    /// Open: the token has the turn, and takes the slot with nothing in it.
    pub(crate) fn open(&self, token: &mut Token<T>)
        requires { IsEmpty (raw_name self.now) (raw_start self.now) token.old }
        ensures here { token.new.table_id ≡ token.old.table_id }
        ensures opened { token.new.me ≡ (opened token.old.me.0, (0, None) ∷ []) }
    {
        self.table.shared.store::<Open>(token, TURN, 1);
    }

    /// Close: the slot goes home with nothing in it, and the token keeps the turn.
    pub(crate) fn close(&self, token: &mut Token<T>)
        requires { HasTurn (raw_name self.now) (raw_start self.now) token.old }
        ensures here { token.new.table_id ≡ token.old.table_id }
        ensures closed { token.new.me ≡ (closing token.old.me.0, []) }
    {
        self.table.shared.store::<Close>(token, TURN, 1);
    }

    /// Frees the words and the slot, with nothing in it.
    pub(crate) fn free(self, token: Token<T>)
        requires { IsEmpty (raw_name self) (raw_start self) token }
        ensures { IsWhole T.by token.me.0.seen token.me.0 }
    {
        let RawLock { table } = self;
        let mut closed = table.close_with(token);
        match closed.take(VALUE) {
            None => {}
            Some(_) => unreachable!(),
        }
        closed.free();
    }
}
