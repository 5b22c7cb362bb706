// Laws of the definitions: each is the contract of a function that does nothing.
ghost use Rattle.std.specs.Prelude.{[], ◌≡◌, ◌≤◌, ◌+◌, ◌++◌, ℕ, true, List, None, IsTrue};
ghost use Rattle.std.specs.List.{filter};
ghost use Rattle.std.specs.FinMap.{get, find, is_sorted};
ghost use Rattle.std.specs.Ordering.{eq_by_cmp};
ghost use Rattle.vl_model.specs.Conflicts.{overwritten, is_overwritten, passing, first_conflict};
ghost use Rattle.vl_model.specs.Entries.{in_order};
ghost use Rattle.vl_model.specs.Formats.{log_format, manifest_format, table_format};
ghost use Rattle.vl_model.specs.Keys.{Pairs, Writes, key_cmp};
ghost use Rattle.vl_model.specs.Placement.{placed, is_placed, IsLogged};
ghost use Rattle.vl_model.specs.Reads.{Read, IsExplained};
ghost use Rattle.vl_model.specs.Winners.{winner, newest_of};
ghost use Rattle.vl_model.specs.declared.entry.Entry.{Entry};
ghost use Rattle.vl_model.specs.Limits.{max_key_bytes, max_value_bytes, max_inline_bytes, max_transaction_keys};
ghost use Rattle.vl_model.specs.Limits.{max_transaction_bytes, max_live, min_room, max_room, max_level};
ghost use Rattle.vl_model.specs.Limits.{max_batch_records, max_batch_bytes, max_commit_number, max_file_number};
ghost use Rattle.vl_model.specs.Limits.{max_epoch, max_sessions};
ghost use Rattle.vl_model.specs.declared.formats.TheConstants.{LOG_FORMAT, MANIFEST_FORMAT, TABLE_FORMAT};
ghost use Rattle.vl_model.specs.declared.limits.TheConstants.{MAX_KEY_BYTES, MAX_VALUE_BYTES};
ghost use Rattle.vl_model.specs.declared.limits.TheConstants.{MAX_VALUE_BYTES_BEFORE_TAGS, MAX_INLINE_BYTES};
ghost use Rattle.vl_model.specs.declared.limits.TheConstants.{MAX_TRANSACTION_KEYS, MAX_TRANSACTION_BYTES, MAX_LIVE};
ghost use Rattle.vl_model.specs.declared.limits.TheConstants.{MIN_ROOM, MAX_ROOM, MAX_LEVEL, MAX_BATCH_RECORDS};
ghost use Rattle.vl_model.specs.declared.limits.TheConstants.{MAX_BATCH_BYTES, MAX_COMMIT_NUMBER, MAX_FILE_NUMBER};
ghost use Rattle.vl_model.specs.declared.limits.TheConstants.{MAX_EPOCH, MAX_SESSIONS};
ghost use Rattle.vl_model.specs.History.{standing_at, History, past_value, Extends, last_naming, value_at};
ghost use Rattle.vl_model.specs.History.{contents_at, last_number, with_commit, value_left};

/// The contents at a number have, at each key, the value that stands there at that number.
pub fn contents_agree_with_values()
    ensures { (h : History) (n : ℕ) (key : List ℕ) → get (contents_at h n) key ≡ value_at h n key }
{}

/// Up to the first number there is no commit, and what stands is the base.
pub fn value_without_commits()
    ensures { (h : History) (n : ℕ) (key : List ℕ) → n ≤ h.first → value_at h n key ≡ past_value h.base n key }
{}

/// Contents that stand at a number are the versions of a base, which gives just them.
pub fn a_base_that_stands_at_a_number()
    ensures { (number : ℕ) (pairs : Pairs) →
        contents_at (record { first = number; base = standing_at number pairs; commits = [] }) number ≡ pairs }
{}

/// A commit leaves what stood at the numbers before it, and at its own number changes just the keys
/// that it names.
pub fn value_after_one_more_commit()
    ensures before { (h : History) (writes : Writes) (n : ℕ) (key : List ℕ) → n ≤ last_number h
        → value_at (with_commit h writes) n key ≡ value_at h n key }
    ensures at { (h : History) (writes : Writes) (key : List ℕ) →
        value_at (with_commit h writes) (last_number h + 1) key ≡ value_left (value_at h (last_number h) key) (get writes key) }
{}

/// Whatever is committed later, what stood at a number stays.
pub fn values_stay()
    ensures values { (least most : History) → Extends least most → (n : ℕ) (key : List ℕ)
        → n ≤ last_number least → value_at most n key ≡ value_at least n key }
    ensures number { (least most : History) → Extends least most
        → last_number least ≤ last_number most }
{}

/// A key is overwritten exactly by the last commit that names it, where that is above the number
/// and a read covers the key; and the overwritten keys rise, so that the first is the least.
pub fn overwritten_keys_are_read_and_named_later()
    ensures found { (h : History) (n : ℕ) (reads : List Read) (key : List ℕ) →
        find key_cmp key (overwritten h n reads) ≡ passing (is_overwritten n reads) key (last_naming (h.first + 1) h.commits key) }
    ensures rising { (h : History) (n : ℕ) (reads : List Read)
        → IsTrue (is_sorted key_cmp (overwritten h n reads)) }
{}

/// Without a conflict what a transaction read is explained at the last number as well as at its
/// own: it may as well have read there.
pub fn reads_without_conflict_stay_explained()
    ensures { (h : History) (n : ℕ) (reads : List Read) → h.first ≤ n → first_conflict h n reads ≡ None
        → IsExplained h n reads → IsExplained h (last_number h) reads }
{}

/// Of sources end to end the winner is the newest of the parts' winners; a part may be replaced by
/// one that has the same.
pub fn winners_of_parts()
    ensures parts { (es fs : List Entry) (key : List ℕ) (n : ℕ)
        → winner (es ++ fs) key n ≡ newest_of (winner es key n) (winner fs key n) }
    ensures replaced { (front old new back : List Entry) (key : List ℕ) (n : ℕ)
        → winner old key n ≡ winner new key n
        → winner (front ++ old ++ back) key n ≡ winner (front ++ new ++ back) key n }
{}

/// A key's winner hangs on the entries of that key alone, and not on their order but for entries of
/// one key and version.
pub fn winners_of_a_key()
    ensures own { (es : List Entry) (key : List ℕ) (n : ℕ)
        → winner (filter (λ (e : Entry). eq_by_cmp key_cmp key e.key) es) key n ≡ winner es key n }
    ensures order { (es : List Entry) (key : List ℕ) (n : ℕ)
        → winner (in_order es) key n ≡ winner es key n }
{}

/// What a flush makes of the entries of a log of any format may stand in a table; and what may stand there
/// over a log of any format, may by the first.
pub fn placed_entries_may_stand_in_tables()
    ensures flushed { (format : ℕ) (e : Entry) → IsLogged format e → is_placed format (placed e) ≡ true }
    ensures weakest { (format : ℕ) (e : Entry) → is_placed format e ≡ true → is_placed 1 e ≡ true }
{}

/// The constants are the limits that the definitions have.
pub fn constants_are_the_limits()
    ensures key { MAX_KEY_BYTES ≡ max_key_bytes }
    ensures value { (MAX_VALUE_BYTES ≡ max_value_bytes log_format) × (MAX_VALUE_BYTES_BEFORE_TAGS ≡ max_value_bytes 1) }
    ensures formats { (LOG_FORMAT ≡ log_format) × (TABLE_FORMAT ≡ table_format) × (MANIFEST_FORMAT ≡ manifest_format) }
    ensures inline { MAX_INLINE_BYTES ≡ max_inline_bytes }
    ensures transaction { (MAX_TRANSACTION_KEYS ≡ max_transaction_keys) × (MAX_TRANSACTION_BYTES ≡ max_transaction_bytes) }
    ensures live { MAX_LIVE ≡ max_live }
    ensures room { (MIN_ROOM ≡ min_room) × (MAX_ROOM ≡ max_room) }
    ensures level { MAX_LEVEL ≡ max_level }
    ensures batch { (MAX_BATCH_RECORDS ≡ max_batch_records) × (MAX_BATCH_BYTES ≡ max_batch_bytes) }
    ensures commit { MAX_COMMIT_NUMBER ≡ max_commit_number }
    ensures file { MAX_FILE_NUMBER ≡ max_file_number }
    ensures version { MAX_EPOCH ≡ max_epoch }
    ensures sessions { MAX_SESSIONS ≡ max_sessions }
{}
