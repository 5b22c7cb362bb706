ghost use Rattle.std.specs.Prelude.{◌≡◌, ◌↔◌, IsTrue, map};
ghost use Rattle.vl_seglog.specs.Reading.{moved_of};
ghost use Rattle.vl_seglog.specs.Moves.{AreOnce, IsElsewhere};

use crate::frame::ReadRecord;

/// Whether no key and version is there twice. Each is compared with each: a store moves at most `MAX_BATCH_RECORDS` at
/// once.
pub fn are_once(records: &[ReadRecord]) -> bool
    ensures { IsTrue result ↔ AreOnce (map moved_of records.now) }
{
    let mut rest = records;
    while let [first, others @ ..] = rest {
        if !is_elsewhere(first, others) {
            return false;
        }
        rest = others;
    }
    true
}

// Whether none of the others has its key and its version.
fn is_elsewhere(moved: &ReadRecord, others: &[ReadRecord]) -> bool
    ensures { IsTrue result ↔ IsElsewhere (moved_of moved.now) (map moved_of others.now) }
{
    let mut rest = others;
    while let [first, after @ ..] = rest {
        if is_same(moved, first) {
            return false;
        }
        rest = after;
    }
    true
}

fn is_same(moved: &ReadRecord, other: &ReadRecord) -> bool
    ensures { IsTrue result ↔ ((other.now.version ≡ moved.now.version) × (other.now.key ≡ moved.now.key)) }
{
    other.version == moved.version && other.key.as_slice() == moved.key.as_slice()
}
