ghost use Rattle.std.specs.Prelude.{◌≡◌, map};
ghost use Rattle.std.specs.Ordering.{is_lt};
ghost use Rattle.std.specs.FinMap.{is_sorted};
ghost use Rattle.vl_model.specs.Keys.{key_cmp};
ghost use Rattle.vl_seglog.specs.Reading.{write_of};

use crate::frame::ReadRecord;
use vl_model::{Key, key_order};

/// Whether the keys rise, so that none is there twice.
#[tactic(auto, using(crate::proofs::Order::up_at, crate::proofs::Order::down_at, crate::proofs::Order::up_to_end))]
pub fn is_rising(records: &[ReadRecord]) -> bool
    ensures { result ≡ is_sorted key_cmp (map write_of records.now) }
{
    for i in 1..records.len() {
        if !is_below(&records[i - 1].key, &records[i].key) {
            return false;
        }
    }
    true
}

fn is_below(key: &Key, other: &Key) -> bool
    ensures { result ≡ is_lt (key_cmp key.now other.now) }
{
    key_order(key.as_slice(), other.as_slice()).is_lt()
}
