// What backups and loads come to together: each law is the contract of a function that does nothing.
ghost use Rattle.std.specs.Prelude.{◌≡◌, ◌<◌, ◌≤◌, ◌^◌, ◌++◌, ℕ, List, length};
ghost use Rattle.vl_stream.specs.Batches.{AreBatchesOf, AreRising, Write, batches, joined};
ghost use Rattle.vl_stream.specs.Loads.{loaded};
ghost use Rattle.vl_stream.specs.Pieces.{record_format};
ghost use Rattle.vl_stream.specs.Restores.{stood_at};
ghost use Rattle.vl_stream.specs.Streams.{Found, HoldsStream, Whole, stream};
ghost use Rattle.vl_engine_model.specs.Changes.{changes};
ghost use Rattle.vl_model.specs.History.{History, contents_at, last_number};
ghost use Rattle.vl_seglog.specs.Commit.{AreRecords};

/// An input holds one list of batches, and is whole or damaged at one place.
pub fn an_input_is_read_in_one_way()
    ensures { (input : List ℕ) (bs cs : List (List Write)) (f g : Found) → HoldsStream input bs f → HoldsStream input cs g
        → (bs ≡ cs) × (f ≡ g) }
{}

/// Records are parted in one way into batches that have as many as the bounds allow. Where the records are within the limits
/// and in key order, and their count and both numbers fit eight bytes, their stream holds these batches, and is whole.
pub fn a_stream_holds_its_records()
    ensures parted { (ws : List Write) → AreBatchesOf ws (batches ws) }
    ensures alone { (ws : List Write) (bs : List (List Write)) → AreBatchesOf ws bs → bs ≡ batches ws }
    ensures holds { (since number : ℕ) (ws : List Write) → since < 2 ^ 64 → number < 2 ^ 64 → length ws < 2 ^ 64
        → AreRecords record_format ws → AreRising ws → HoldsStream (stream since number ws) (batches ws) Whole }
{}

/// A history that has at its last number what another had at a number, or nothing where that is 0, has what that has at a later
/// one, once it gets as commits the batches that the stream of what was changed between the two holds. So it is where that
/// stream is whole and holds the batches of these changes.
pub fn a_backup_restores()
    ensures { (h k : History) (since number : ℕ) (bs : List (List Write)) → since ≤ number
        → HoldsStream (stream since number (changes h since number)) (batches (changes h since number)) Whole
        → contents_at k (last_number k) ≡ stood_at h since
        → HoldsStream (stream since number (changes h since number)) bs Whole
        → contents_at (loaded k bs) (last_number (loaded k bs)) ≡ contents_at h number }
{}

/// Where some batches were loaded, loading these again and then those behind them comes to the same contents as loading all of
/// them once: of batches whose keys rise over all of them.
pub fn a_load_may_be_made_again()
    ensures { (k : History) (front back : List (List Write)) → AreRising (joined (front ++ back))
        → contents_at (loaded (loaded k front) (front ++ back)) (last_number (loaded (loaded k front) (front ++ back)))
        ≡ contents_at (loaded k (front ++ back)) (last_number (loaded k (front ++ back))) }
{}
