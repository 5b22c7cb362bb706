ghost use Rattle.std.specs.Prelude.{◌≡◌, ◌≤◌, ◌⊎◌, Bool, OnOk, OnErr, IfOk, IfErr, MatchResult};
ghost use Rattle.vl_model.specs.Cursors.{Gives, IsCounted, IsReached, Keeps, Spends};
ghost use Rattle.vl_model.specs.declared.entry.Entry.{Entry};
ghost use Rattle.vl_merge.specs.ReadAhead.{IsKnown};
ghost use Rattle.vl_merge.specs.Standing.{BothStand, IsUpward, StandsAt, StandsIn};
ghost use Rattle.vl_merge.specs.Trees.{MayFailIn, tree_left, tree_budget, half_left, half_budget, two_left, two_budget};

use crate::lookahead::{Lookahead, takes_older};
use vl_model::{Cursor, Entry, Way};

// Sources to be merged: one, or newer ones and older ones, each half with its next entry where that is
// known.
#[derive(Drop)]
pub enum Tree<C> {
    Nothing,
    Source(C),
    Two(Box<Tree<C>>, Lookahead, Box<Tree<C>>, Lookahead),
}

impl<C: Cursor + Drop> Tree<C> {
    // The next entry of all sources.
    #[cycle(next)]
    pub fn next(&mut self, way: Way, reader: &mut C::Reader) -> Result<Option<Entry>, C::Fault>
        ensures given { IfOk result (λ next. Gives (tree_left (λ c. C.left c) way self.old)
            (tree_left (λ c. C.left c) way self.new) next) }
        ensures kept { OnErr result (Keeps (tree_left (λ c. C.left c) way self.old)
            (tree_left (λ c. C.left c) way self.new)) }
        ensures spends { MatchResult result
            (Spends (tree_budget (λ c. C.budget c) self.old) (tree_budget (λ c. C.budget c) self.new))
            (λ _. tree_budget (λ c. C.budget c) self.new ≤ tree_budget (λ c. C.budget c) self.old) }
        ensures cause { MatchResult result (λ _. C.faults reader.new ≡ C.faults reader.old)
            (λ fault. IsCounted (C.is_read_fault fault) (C.faults reader.old) (C.faults reader.new)) }
        ensures may_fail { IfErr result (λ fault. MayFailIn (λ c f. C.may_fail c f) self.old fault) }
        ensures keeps { (fault : C.Fault) → MayFailIn (λ c f. C.may_fail c f) self.new fault
            → MayFailIn (λ c f. C.may_fail c f) self.old fault }
        ensures reaches { (is_met : Entry → Bool) → IsUpward way is_met
            → IfOk result (λ next. IsReached is_met next → StandsIn (λ c f. C.stands_to c f) is_met self.old) }
        ensures back { (is_met : Entry → Bool) → IsUpward way is_met
            → StandsIn (λ c f. C.stands_to c f) is_met self.new → StandsIn (λ c f. C.stands_to c f) is_met self.old }
    {
        match self {
            Tree::Nothing => Ok(None),
            Tree::Source(cursor) => cursor.next(reader),
            Tree::Two(newer, first, older, second) => {
                next_of_two(newer, first, older, second, way, reader)
            }
        }
    }
}

// The next entry of a newer and an older half.
#[cycle(next)]
fn next_of_two<C: Cursor + Drop>(
    newer: &mut Tree<C>,
    first: &mut Lookahead,
    older: &mut Tree<C>,
    second: &mut Lookahead,
    way: Way,
    reader: &mut C::Reader,
) -> Result<Option<Entry>, C::Fault>
    ensures given { IfOk result (λ next. Gives
        (two_left (λ c. C.left c) way newer.old first.old older.old second.old)
        (two_left (λ c. C.left c) way newer.new first.new older.new second.new) next) }
    ensures kept { OnErr result (Keeps
        (two_left (λ c. C.left c) way newer.old first.old older.old second.old)
        (two_left (λ c. C.left c) way newer.new first.new older.new second.new)) }
    ensures spends { MatchResult result
        (Spends (two_budget (λ c. C.budget c) newer.old first.old older.old second.old)
        (two_budget (λ c. C.budget c) newer.new first.new older.new second.new))
        (λ _. two_budget (λ c. C.budget c) newer.new first.new older.new second.new
        ≤ two_budget (λ c. C.budget c) newer.old first.old older.old second.old) }
    ensures cause { MatchResult result (λ _. C.faults reader.new ≡ C.faults reader.old)
        (λ fault. IsCounted (C.is_read_fault fault) (C.faults reader.old) (C.faults reader.new)) }
    ensures may_fail { IfErr result (λ fault. MayFailIn (λ c f. C.may_fail c f) newer.old fault
        ⊎ MayFailIn (λ c f. C.may_fail c f) older.old fault) }
    ensures keeps_newer { (fault : C.Fault) → MayFailIn (λ c f. C.may_fail c f) newer.new fault
        → MayFailIn (λ c f. C.may_fail c f) newer.old fault }
    ensures keeps_older { (fault : C.Fault) → MayFailIn (λ c f. C.may_fail c f) older.new fault
        → MayFailIn (λ c f. C.may_fail c f) older.old fault }
    ensures reaches { (is_met : Entry → Bool) → IsUpward way is_met → IfOk result (λ next. IsReached is_met next
        → BothStand (λ c f. C.stands_to c f) is_met newer.old first.old older.old second.old) }
    ensures back { (is_met : Entry → Bool) → IsUpward way is_met
        → BothStand (λ c f. C.stands_to c f) is_met newer.new first.new older.new second.new
        → BothStand (λ c f. C.stands_to c f) is_met newer.old first.old older.old second.old }
{
    look(newer, first, way, reader)?;
    look(older, second, way, reader)?;
    if takes_older(way, first, second) {
        Ok(second.take())
    } else {
        Ok(first.take())
    }
}

// Reads a half's next entry where it isn't known.
#[cycle(next)]
fn look<C: Cursor + Drop>(
    half: &mut Tree<C>,
    head: &mut Lookahead,
    way: Way,
    reader: &mut C::Reader,
) -> Result<(), C::Fault>
    ensures kept { Keeps (half_left (λ c. C.left c) way head.old half.old)
        (half_left (λ c. C.left c) way head.new half.new) }
    ensures read { OnOk result (IsKnown head.new) }
    ensures spends { half_budget (λ c. C.budget c) head.new half.new
        ≤ half_budget (λ c. C.budget c) head.old half.old }
    ensures cause { MatchResult result (λ _. C.faults reader.new ≡ C.faults reader.old)
        (λ fault. IsCounted (C.is_read_fault fault) (C.faults reader.old) (C.faults reader.new)) }
    ensures may_fail { IfErr result (λ fault. MayFailIn (λ c f. C.may_fail c f) half.old fault) }
    ensures keeps { (fault : C.Fault) → MayFailIn (λ c f. C.may_fail c f) half.new fault
        → MayFailIn (λ c f. C.may_fail c f) half.old fault }
    ensures back { (is_met : Entry → Bool) → IsUpward way is_met
        → StandsAt is_met head.new (StandsIn (λ c f. C.stands_to c f) is_met half.new)
        → StandsAt is_met head.old (StandsIn (λ c f. C.stands_to c f) is_met half.old) }
{
    if let Lookahead::Unread = head {
        *head = match half.next(way, reader)? {
            Some(entry) => Lookahead::Next(entry),
            None => Lookahead::End,
        };
    }
    Ok(())
}
