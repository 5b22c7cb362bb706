ghost use Rattle.std.specs.Prelude.{◌≡◌, ◌≤◌, ◌⊎◌, Bool, List, Some, OnErr, IfOk, IfErr, IfSome, MatchResult};
ghost use Rattle.std.specs.Option.{option_map};
ghost use Rattle.vl_model.specs.Cursors.{Gives, IsCounted, IsReached, Keeps, Spends};
ghost use Rattle.vl_model.specs.declared.entry.Entry.{Entry};
ghost use Rattle.vl_model.specs.declared.way.Way.{Way};
ghost use Rattle.vl_model.specs.Merging.{IsAlong};
ghost use Rattle.vl_merge.specs.Standing.{InWay, IsMetBy, is_beyond};
ghost use Rattle.vl_merge.specs.Held.{visible_left, held_budget};
ghost use Rattle.vl_merge.specs.Visible.{visible};
ghost use Rattle.vl_merge.specs.declared.hides.Hides.TheVariants.{Gone};

use crate::held::{only_shown, pass};
use crate::{Hides, Merge};
use vl_model::{Cursor, Entry};

/// Of the entries of a merge each key's winner at a number, deletions passed over, as the merge goes.
#[derive(Drop)]
pub struct Visible<C> {
    merge: Merge<C>,
    number: u64,
    hides: Hides,
    // Of the entries of a key that is being read the winner so far.
    held: Option<Entry>,
}

impl<C: Cursor + Drop> Cursor for Visible<C> {
    type Fault = C::Fault;

    type Reader = C::Reader;

    ghost left = { λ v. visible_left v.hides v.number v.held (⟦<Merge<C> as Cursor>⟧.left v.merge) };

    ghost budget = { λ v. held_budget v.held (⟦<Merge<C> as Cursor>⟧.budget v.merge) };

    ghost faults = { λ r. C.faults r };

    ghost is_read_fault = { λ f. C.is_read_fault f };

    ghost may_fail = { λ v f. ⟦<Merge<C> as Cursor>⟧.may_fail v.merge f };

    ghost stands_to = { λ v f. IsMetBy f v.held ⊎ ⟦<Merge<C> as Cursor>⟧.stands_to v.merge f };

    fn next(&mut self, reader: &mut C::Reader) -> Result<Option<Entry>, C::Fault>
        // What each cursor promises.
        ensures given { IfOk result (λ next. Gives
            (visible_left self.old.hides self.old.number self.old.held (⟦<Merge<C> as Cursor>⟧.left self.old.merge))
            (visible_left self.new.hides self.new.number self.new.held (⟦<Merge<C> as Cursor>⟧.left self.new.merge)) next) }
        ensures kept { OnErr result (Keeps
            (visible_left self.old.hides self.old.number self.old.held (⟦<Merge<C> as Cursor>⟧.left self.old.merge))
            (visible_left self.new.hides self.new.number self.new.held (⟦<Merge<C> as Cursor>⟧.left self.new.merge))) }
        ensures spends { MatchResult result (Spends (held_budget self.old.held (⟦<Merge<C> as Cursor>⟧.budget self.old.merge))
            (held_budget self.new.held (⟦<Merge<C> as Cursor>⟧.budget self.new.merge)))
            (λ _. held_budget self.new.held (⟦<Merge<C> as Cursor>⟧.budget self.new.merge)
            ≤ held_budget self.old.held (⟦<Merge<C> as Cursor>⟧.budget self.old.merge)) }
        ensures cause { MatchResult result (λ _. C.faults reader.new ≡ C.faults reader.old)
            (λ fault. IsCounted (C.is_read_fault fault) (C.faults reader.old) (C.faults reader.new)) }
        ensures may_fail { IfErr result (λ fault. ⟦<Merge<C> as Cursor>⟧.may_fail self.old.merge fault) }
        ensures keeps { (fault : C.Fault) → ⟦<Merge<C> as Cursor>⟧.may_fail self.new.merge fault
            → ⟦<Merge<C> as Cursor>⟧.may_fail self.old.merge fault }
        ensures reaches { (is_met : Entry → Bool) → IfOk result (λ next. IsReached is_met next
            → IsMetBy is_met self.old.held ⊎ ⟦<Merge<C> as Cursor>⟧.stands_to self.old.merge is_met) }
        ensures back { (is_met : Entry → Bool)
            → IsMetBy is_met self.new.held ⊎ ⟦<Merge<C> as Cursor>⟧.stands_to self.new.merge is_met
            → IsMetBy is_met self.old.held ⊎ ⟦<Merge<C> as Cursor>⟧.stands_to self.old.merge is_met }

        // Where what is left goes along a way, a winner is given only once all was read whole up to a key behind it.
        ensures passes { (way : Way) → InWay way self.old.held (⟦<Merge<C> as Cursor>⟧.left self.old.merge)
            → IfOk result (λ next. InWay way self.new.held (⟦<Merge<C> as Cursor>⟧.left self.new.merge)
            × IfSome next (λ w. IsMetBy (is_beyond way w.key) self.old.held
            ⊎ ⟦<Merge<C> as Cursor>⟧.stands_to self.old.merge (is_beyond way w.key))) }
    {
        next_visible(
            &mut self.merge,
            &mut self.held,
            self.number,
            self.hides,
            reader,
        )
    }
}

impl<C: Cursor + Drop> Visible<C> {
    /// What is visible of a merge's entries at a number: of each key its winner, but no deletion.
    pub fn new(merge: Merge<C>, number: u64) -> Self
        ensures left { ⟦<Visible<C> as Cursor>⟧.left result
            ≡ option_map (visible Gone number) (⟦<Merge<C> as Cursor>⟧.left merge) }
        ensures budget { ⟦<Visible<C> as Cursor>⟧.budget result ≡ ⟦<Merge<C> as Cursor>⟧.budget merge }
        ensures may_fail { (fault : C.Fault) → ⟦<Visible<C> as Cursor>⟧.may_fail result fault
            → ⟦<Merge<C> as Cursor>⟧.may_fail merge fault }
        ensures stands { (is_met : Entry → Bool) → ⟦<Visible<C> as Cursor>⟧.stands_to result is_met
            → ⟦<Merge<C> as Cursor>⟧.stands_to merge is_met }
        ensures in_way { (way : Way) (es : List Entry) → ⟦<Merge<C> as Cursor>⟧.left merge ≡ Some es → IsAlong way es
            → InWay way result.held (⟦<Merge<C> as Cursor>⟧.left result.merge) }
    {
        Self::with(merge, number, Hides::Gone)
    }

    /// The winners of a merge's entries at a number, but those that are hidden.
    pub fn with(merge: Merge<C>, number: u64, hides: Hides) -> Self
        ensures left { ⟦<Visible<C> as Cursor>⟧.left result
            ≡ option_map (visible hides number) (⟦<Merge<C> as Cursor>⟧.left merge) }
        ensures budget { ⟦<Visible<C> as Cursor>⟧.budget result ≡ ⟦<Merge<C> as Cursor>⟧.budget merge }
        ensures may_fail { (fault : C.Fault) → ⟦<Visible<C> as Cursor>⟧.may_fail result fault
            → ⟦<Merge<C> as Cursor>⟧.may_fail merge fault }
        ensures stands { (is_met : Entry → Bool) → ⟦<Visible<C> as Cursor>⟧.stands_to result is_met
            → ⟦<Merge<C> as Cursor>⟧.stands_to merge is_met }
        ensures in_way { (way : Way) (es : List Entry) → ⟦<Merge<C> as Cursor>⟧.left merge ≡ Some es → IsAlong way es
            → InWay way result.held (⟦<Merge<C> as Cursor>⟧.left result.merge) }
    {
        merge.keys_stand_together();
        Visible {
            merge,
            number,
            hides,
            held: None,
        }
    }
}

// The next winner that isn't hidden.
fn next_visible<M: Cursor>(
    merge: &mut M,
    held: &mut Option<Entry>,
    number: u64,
    hides: Hides,
    reader: &mut M::Reader,
) -> Result<Option<Entry>, M::Fault>
    ensures given { IfOk result (λ next. Gives (visible_left hides number held.old (M.left merge.old))
        (visible_left hides number held.new (M.left merge.new)) next) }
    ensures kept { OnErr result (Keeps (visible_left hides number held.old (M.left merge.old))
        (visible_left hides number held.new (M.left merge.new))) }
    ensures spends { MatchResult result
        (Spends (held_budget held.old (M.budget merge.old)) (held_budget held.new (M.budget merge.new)))
        (λ _. held_budget held.new (M.budget merge.new) ≤ held_budget held.old (M.budget merge.old)) }
    ensures cause { MatchResult result (λ _. M.faults reader.new ≡ M.faults reader.old)
        (λ fault. IsCounted (M.is_read_fault fault) (M.faults reader.old) (M.faults reader.new)) }
    ensures may_fail { IfErr result (λ fault. M.may_fail merge.old fault) }
    ensures keeps { (fault : M.Fault) → M.may_fail merge.new fault → M.may_fail merge.old fault }
    ensures reaches { (is_met : Entry → Bool) → IfOk result (λ next. IsReached is_met next
        → IsMetBy is_met held.old ⊎ M.stands_to merge.old is_met) }
    ensures back { (is_met : Entry → Bool) → IsMetBy is_met held.new ⊎ M.stands_to merge.new is_met
        → IsMetBy is_met held.old ⊎ M.stands_to merge.old is_met }
    ensures passes { (way : Way) → InWay way held.old (M.left merge.old) → IfOk result (λ next. InWay way held.new (M.left merge.new)
        × IfSome next (λ w. IsMetBy (is_beyond way w.key) held.old ⊎ M.stands_to merge.old (is_beyond way w.key))) }
{
    while let Some(entry) = merge.next(reader)? {
        let winner = pass(held, entry, number, hides);
        if winner.is_some() {
            return Ok(winner);
        }
    }
    Ok(only_shown(held.take(), hides))
}
