// Laws of merged entries: each is the contract of a function that does nothing.
ghost use Rattle.std.specs.Prelude.{◌≡◌, ◌++◌, ◌∷◌, ℕ, true, List, map, Some, length};
ghost use Rattle.std.specs.List.{AllByRecursion, flat_map};
ghost use Rattle.std.specs.Ordering.{is_gt};
ghost use Rattle.vl_model.specs.Winners.{winner, exact};
ghost use Rattle.vl_model.specs.declared.entry.Entry.{Entry};
ghost use Rattle.vl_model.specs.declared.way.Way.{Way};
ghost use Rattle.vl_model.specs.Merging.{merged, IsFirst, IsAlong};
ghost use Rattle.vl_model.specs.Order.{way_cmp};
ghost use Rattle.vl_merge.specs.MergeOf.{merge_of};

/// Merged entries are all of them, as the way goes.
pub fn merged_goes_along()
    ensures along { (way : Way) (es : List Entry) → IsAlong way (merged way es) }
    ensures all { (way : Way) (es : List Entry) → length (merged way es) ≡ length es }
{}

/// To merge entries changes no winner and no exact look-up.
pub fn merged_has_the_same_winners()
    ensures winners { (way : Way) (es : List Entry) (key : List ℕ) (number : ℕ)
        → winner (merged way es) key number ≡ winner es key number }
    ensures exact { (way : Way) (es : List Entry) (key : List ℕ) (version : ℕ)
        → exact (merged way es) key version ≡ exact es key version }
{}

/// An entry before all of newer sources, and not behind any other, is the first of the merged ones.
pub fn merged_one_at_a_time()
    ensures { (way : Way) (newer : List Entry) (e : Entry) (rest : List Entry)
        → AllByRecursion (λ f. is_gt (way_cmp way f e) ≡ true) newer → IsFirst way e rest
        → merged way (newer ++ e ∷ rest) ≡ e ∷ merged way (newer ++ rest) }
{}

/// A merge of sources that are told, each as the way goes, gives the merged entries of all.
pub fn merge_of_told_sources()
    ensures { (way : Way) (sources : List (List Entry)) → AllByRecursion (IsAlong way) sources
        → merge_of way (map Some sources) ≡ Some (merged way (flat_map (λ es. es) sources)) }
{}
