ghost use Rattle.std.specs.Prelude.{◌≡◌, ◌++◌, true, length, OnOk};
ghost use Rattle.vl_model.specs.Keys.{is_key_length};
ghost use Rattle.vl_table.specs.body.Entries.{key_bytes};

use crate::writer::numbers::u16_bytes;
use std::alloc::AllocError;
use vl_model::is_key_len;

/// Appends a key behind its length. Want of memory is the answer too where no key has that length.
pub fn write_key(out: &mut Vec<u8>, key: &[u8]) -> Result<(), AllocError>
    ensures written { OnOk result (out.new.items ≡ out.old.items ++ key_bytes key.now) }
    ensures lawful { OnOk result (is_key_length (length key.now) ≡ true) }
{
    if !is_key_len(key.len()) {
        return Err(AllocError);
    }
    out.extend_from_slice(&u16_bytes(key.len() as u16))?;
    out.extend_from_slice(key)
}
