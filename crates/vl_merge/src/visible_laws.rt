// Laws of what is visible: each is the contract of a function that does nothing.
ghost use Rattle.std.specs.Prelude.{◌≡◌, ℕ, List};
ghost use Rattle.std.specs.List.{filter};
ghost use Rattle.std.specs.Ordering.{eq_by_cmp};
ghost use Rattle.vl_model.specs.Keys.{key_cmp};
ghost use Rattle.vl_model.specs.Winners.{winner};
ghost use Rattle.vl_model.specs.declared.entry.Entry.{Entry};
ghost use Rattle.vl_model.specs.declared.way.Way.{Way};
ghost use Rattle.vl_model.specs.Merging.{merged, IsAlong};
ghost use Rattle.vl_merge.specs.declared.hides.Hides.{Hides};
ghost use Rattle.vl_merge.specs.Visible.{shown, visible};

/// Of sources end to end, the newest first, merged either way: of each key its winner at the number is
/// visible, and nothing else, but a deletion isn't; and what is visible goes along the way.
pub fn visible_entries_are_the_winners()
    ensures winners { (hides : Hides) (way : Way) (es : List Entry) (key : List ℕ) (number : ℕ)
        → filter (λ (e : Entry). eq_by_cmp key_cmp key e.key) (visible hides number (merged way es))
        ≡ shown hides (winner es key number) }
    ensures along { (hides : Hides) (way : Way) (es : List Entry) (number : ℕ)
        → IsAlong way (visible hides number (merged way es)) }
{}
