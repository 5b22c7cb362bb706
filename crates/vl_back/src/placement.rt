//! Where values stand once they are in a table.

ghost use Rattle.std.specs.Prelude.{◌≡◌, ◌<◌, ◌^◌};
ghost use Rattle.vl_back.specs.Tables.{IsSpellable, IsSpellableBody};
ghost use Rattle.vl_table.specs.body.Entries.{IsBody, IsEntry, IsPointer};
ghost use Rattle.vl_model.specs.Formats.{table_format};
ghost use Rattle.vl_model.specs.Placement as model;

use vl_model::{Body, Entry, MAX_INLINE_BYTES, Pointer, Value};

/// The entry as a table has it: a short value beside its key, a longer one where its record lies.
pub fn placed(entry: Entry) -> Entry
    ensures { result ≡ model.placed entry }
{
    let Entry { key, version, body } = entry;
    Entry {
        key,
        version,
        body: placement(body),
    }
}

fn placement(body: Body) -> Body
    ensures { result ≡ model.placement body }
{
    match body {
        Body::Logged(value, pointer) => {
            if value.len() <= MAX_INLINE_BYTES {
                Body::Inline(value)
            } else {
                Body::Far(pointer)
            }
        }
        Body::Inline(value) => Body::Inline(value),
        Body::Gone => Body::Gone,
        Body::Far(pointer) => Body::Far(pointer),
    }
}

/// An entry's numbers fit the bytes that a table has for them, since they fit their types.
pub fn numbers_fit(entry: &Entry)
    ensures { IsSpellable entry.now → IsEntry table_format entry.now }
{
    // What is read tells the proof that it fits.
    let _version = entry.version;
    body_fits(&entry.body);
}

fn body_fits(body: &Body)
    ensures { IsSpellableBody body.now → IsBody table_format body.now }
{
    match body {
        Body::Inline(value) => tag_fits(value),
        Body::Far(pointer) => pointer_fits(pointer),
        Body::Gone => {}
        Body::Logged(_, _) => {}
    }
}

fn tag_fits(value: &Value)
    ensures { value.now.tag < 2 ^ 8 }
{
    let _tag = value.tag;
}

fn pointer_fits(pointer: &Pointer)
    ensures { IsPointer pointer.now }
{
    let _segment = pointer.segment;
    let _place = pointer.place;
    let _length = pointer.length;
}
