//! What a look-up has found as an entry with memory of its own.

ghost use Rattle.std.specs.Prelude.{◌≡◌, IfOk};
ghost use Rattle.vl_table.specs.body.Founds.{found_body, found_of};

use std::alloc::{AllocError, Global};
use vl_model::{Body, Entry, Key, Value};
use vl_table::{Found, FoundBody};

/// The entry that was found of a key.
pub fn owned_entry(alloc: Global, key: &[u8], found: &Found) -> Result<Entry, AllocError>
    ensures { IfOk result (λ entry. entry ≡ found_of key.now found.now) }
{
    Ok(Entry {
        key: Key::copy_of(alloc, key)?,
        version: found.version,
        body: owned_body(alloc, &found.body)?,
    })
}

fn owned_body(alloc: Global, body: &FoundBody) -> Result<Body, AllocError>
    ensures { IfOk result (λ owned. owned ≡ found_body body.now) }
{
    Ok(match body {
        FoundBody::Inline(value) => {
            Body::Inline(Value::copy_of(alloc, value.as_slice(), value.tag())?)
        }
        FoundBody::Gone => Body::Gone,
        FoundBody::Far(pointer) => Body::Far(*pointer),
    })
}
