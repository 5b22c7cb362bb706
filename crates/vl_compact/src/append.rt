ghost use Rattle.std.specs.Prelude.{◌≡◌, ◌≤◌, ◌+◌, ◌++◌, vec_capacity, vec_len};

use vl_model::Key;

/// Puts keys with their versions behind others, for which there is room.
pub fn append_reserved(deletions: &mut Vec<(Key, u64)>, found: Vec<(Key, u64)>)
    requires { vec_len deletions.old + vec_len found ≤ vec_capacity deletions.old }
    ensures { deletions.new.items ≡ deletions.old.items ++ found.items }
{
    let mut found = found;
    let Ok(()) = deletions.append(&mut found) else {
        unreachable!()
    };
}
