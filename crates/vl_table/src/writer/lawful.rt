ghost use Rattle.std.specs.Prelude.{◌≡◌, ◌↔◌, IsTrue};
ghost use Rattle.vl_model.specs.Formats.{table_format};
ghost use Rattle.vl_table.specs.body.Entries.{IsBody, IsEntry};

use vl_model::{Body, Entry, MAX_INLINE_BYTES, is_key_len};

/// Whether a table may have an entry.
pub fn is_lawful(entry: &Entry) -> bool
    ensures { IsTrue result ↔ IsEntry table_format entry.now }
{
    // What is read tells the proof that it fits its bytes.
    let _version = entry.version;
    is_key_len(entry.key.len()) && is_lawful_body(&entry.body)
}

fn is_lawful_body(body: &Body) -> bool
    ensures { IsTrue result ↔ IsBody table_format body.now }
{
    match body {
        Body::Inline(value) => {
            let _tag = value.tag;
            value.len() <= MAX_INLINE_BYTES
        }
        Body::Far(pointer) => {
            let _segment = pointer.segment;
            let _place = pointer.place;
            let _length = pointer.length;
            true
        }
        Body::Gone => true,
        Body::Logged(_, _) => false,
    }
}
