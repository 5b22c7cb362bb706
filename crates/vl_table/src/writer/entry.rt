ghost use Rattle.vl_model.specs.Formats.{table_format};
ghost use Rattle.vl_model.specs.Keys.{tagged};
ghost use Rattle.vl_model.specs.Limits.{max_inline_bytes};
ghost use Rattle.std.specs.Prelude.{◌≡◌, ◌≤◌, ◌++◌, ◌∷◌, length, OnOk};
ghost use Rattle.vl_table.specs.body.Entries.{IsBody, IsEntry, body_bytes, entry_bytes, inline_bytes};

use crate::body::{FAR, GONE, INLINE};
use crate::writer::keys::write_key;
use crate::writer::numbers::u64_bytes;
use crate::writer::pointers::pointer_bytes;
use std::alloc::AllocError;
use vl_model::{Body, Entry};

/// Appends an entry that a table may have.
pub fn write_entry(out: &mut Vec<u8>, entry: &Entry) -> Result<(), AllocError>
    requires { IsEntry table_format entry.now }
    ensures { OnOk result (out.new.items ≡ out.old.items ++ entry_bytes table_format entry.now) }
{
    write_key(out, entry.key.as_slice())?;
    out.extend_from_slice(&u64_bytes(entry.version))?;
    write_body(out, &entry.body)
}

fn write_body(out: &mut Vec<u8>, body: &Body) -> Result<(), AllocError>
    requires { IsBody table_format body.now }
    ensures { OnOk result (out.new.items ≡ out.old.items ++ body_bytes table_format body.now) }
{
    match body {
        Body::Inline(value) => write_inline(out, value.as_slice(), value.tag),
        Body::Gone => out.extend_from_slice(&[GONE]),
        Body::Far(pointer) => {
            out.extend_from_slice(&[FAR])?;
            out.extend_from_slice(&pointer_bytes(*pointer))
        }
        Body::Logged(_, _) => unreachable!(),
    }
}

// A short value with its tag, behind its kind.
fn write_inline(out: &mut Vec<u8>, value: &[u8], tag: u8) -> Result<(), AllocError>
    requires { length value.now ≤ max_inline_bytes }
    ensures { OnOk result (out.new.items ≡ out.old.items ++ INLINE ∷ inline_bytes table_format (tagged value.now tag)) }
{
    out.extend_from_slice(&[INLINE, tag, value.len() as u8])?;
    out.extend_from_slice(value)
}
