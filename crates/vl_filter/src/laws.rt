// Laws of filters: each is the contract of a function that does nothing.
ghost use Rattle.std.specs.Prelude.{◌≡◌, ◌<◌, ◌*◌, ◌^◌, ◌∷◌, [], ℕ, true, false, List, length, map, replicate};
ghost use Rattle.std.specs.List.{AllByRecursion};
ghost use Rattle.vl_filter.specs.Bits.{is_set};
ghost use Rattle.vl_filter.specs.Filters.{SpellsFilter, byte_count, filter_body, filter_bytes, is_marked, may_hold};
ghost use Rattle.vl_filter.specs.Places.{hashes_of};

/// The filter of some keys has a bit at 1 exactly where it is at one of the seven places of one of them, and its body spells
/// it where their number fits.
pub fn filters_have_the_bits_of_their_keys()
    ensures bits { (keys : List (List ℕ)) (p : ℕ)
        → is_set (filter_bytes keys) p ≡ is_marked (8 * byte_count (length keys)) (map hashes_of keys) p }
    ensures spelled { (keys : List (List ℕ)) → 8 * byte_count (length keys) < 2 ^ 32
        → SpellsFilter (filter_body keys) (filter_bytes keys) }
{}

/// A filter may hold every key that it was built of.
pub fn built_filters_hold_their_keys()
    ensures { (keys : List (List ℕ)) → AllByRecursion (λ key. may_hold (filter_bytes keys) key ≡ true) keys }
{}

/// A filter whose bits are all 0 holds no key.
pub fn filters_of_zeros_hold_no_key()
    ensures { (count : ℕ) (key : List ℕ) → may_hold (replicate count 0) key ≡ false }
{}

/// A body is read as the filter that it spells, and as no other.
pub fn filters_are_read_in_one_way()
    ensures { (body bytes others : List ℕ) → SpellsFilter body bytes → SpellsFilter body others → bytes ≡ others }
{}

/// The filter of the one key `616263`.
pub fn a_worked_filter()
    ensures { filter_body ((97 ∷ 98 ∷ 99 ∷ []) ∷ [])
        ≡ 0 ∷ 0 ∷ 0 ∷ 64 ∷ 0x00 ∷ 0x20 ∷ 0x08 ∷ 0x02 ∷ 0x00 ∷ 0x04 ∷ 0x41 ∷ 0x10 ∷ [] }
{}
