ghost use Rattle.std.specs.Prelude.{◌≡◌, ◌≤◌, IfOk, vec_len};
ghost use Rattle.std.specs.FinMap.{entries};
ghost use Rattle.vl_front.specs.Noting.{keys_of, noted_keys};

use std::alloc::{AllocError, Global};
use vl_conflict::Recent;
use vl_model::Key;
use vl_txn::Writes;

/// The keys of writes, shared.
pub fn shared_keys(alloc: Global, writes: &Writes) -> Result<Vec<Key>, AllocError>
    ensures { IfOk result (λ keys. keys.items ≡ keys_of (entries writes.now)) }
{
    let mut keys = Vec::new(alloc);
    for write in writes.as_slice() {
        keys.push(write.0.share()?)?;
    }
    Ok(keys)
}

/// Notes the keys of a commit, for which there is room.
pub fn note_all(recent: &mut Recent, keys: Vec<Key>, number: u64)
    requires { vec_len keys ≤ recent.old.room }
    ensures { recent.new.named ≡ noted_keys number keys.items recent.old.named }
{
    for key in keys {
        recent.note(key, number);
    }
}
