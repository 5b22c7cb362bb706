ghost use Rattle.std.specs.Prelude.{◌≡◌, true, Bool, map, IfOk};
ghost use Rattle.vl_model.specs.declared.entry.Entry.{Entry};
ghost use Rattle.std.specs.List.{AllByRecursion, sum_by};
ghost use Rattle.std.specs.Option.{ForSome};
ghost use Rattle.vl_merge.specs.Grouped.{is_grouped};
ghost use Rattle.vl_merge.specs.MergeOf.{OneMayFail, merge_of};
ghost use Rattle.vl_merge.specs.Standing.{IsUpward, StandsIn};
ghost use Rattle.vl_merge.specs.Trees.{MayFailIn, tree_left, tree_budget};

use crate::build::build_tree;
use crate::tree::Tree;
use std::alloc::AllocError;
use vl_model::{Cursor, Entry, Way};

/// The entries of several cursors in one. Of those of one key and version the one of the newest source
/// comes first.
#[derive(Drop)]
pub struct Merge<C> {
    sources: Tree<C>,
    way: Way,
}

impl<C: Cursor + Drop> Cursor for Merge<C> {
    type Fault = C::Fault;

    type Reader = C::Reader;

    ghost left = { λ m. tree_left (λ c. C.left c) m.way m.sources };

    ghost budget = { λ m. tree_budget (λ c. C.budget c) m.sources };

    ghost faults = { λ r. C.faults r };

    ghost is_read_fault = { λ f. C.is_read_fault f };

    ghost may_fail = { λ m f. MayFailIn (λ c f. C.may_fail c f) m.sources f };

    ghost stands_to = { λ m f. IsUpward m.way f → StandsIn (λ c f. C.stands_to c f) f m.sources };

    fn next(&mut self, reader: &mut C::Reader) -> Result<Option<Entry>, C::Fault> {
        self.sources.next(self.way, reader)
    }
}

impl<C: Cursor + Drop> Merge<C> {
    /// The entries of these cursors in one, the newest source first. It may want memory.
    pub fn new(sources: Vec<C>, way: Way) -> Result<Self, AllocError>
        ensures left { IfOk result (λ merge.
            ⟦<Merge<C> as Cursor>⟧.left merge ≡ merge_of way (map (λ c. C.left c) sources.items)) }
        ensures budget { IfOk result (λ merge.
            ⟦<Merge<C> as Cursor>⟧.budget merge ≡ sum_by (λ c. C.budget c) sources.items) }

        // Its fault is one of its sources'.
        ensures may_fail { IfOk result (λ merge. (fault : C.Fault)
            → ⟦<Merge<C> as Cursor>⟧.may_fail merge fault → OneMayFail (λ c f. C.may_fail c f) sources.items fault) }

        // What it goes over stands where that of each source does, up to its first entry of a kind that comes behind others.
        ensures stands { IfOk result (λ merge. (is_met : Entry → Bool) → IsUpward way is_met
            → ⟦<Merge<C> as Cursor>⟧.stands_to merge is_met → AllByRecursion (λ c. C.stands_to c is_met) sources.items) }
    {
        Ok(Merge {
            sources: build_tree(sources)?,
            way,
        })
    }

    /// In what is left the entries of each key stand together.
    pub fn keys_stand_together(&self)
        ensures { ForSome (⟦<Merge<C> as Cursor>⟧.left self.now) (λ es. is_grouped es ≡ true) }
    {}
}
