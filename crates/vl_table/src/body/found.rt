ghost use Rattle.std.specs.Prelude.{◌≡◌};
ghost use Rattle.vl_table.specs.body.Entries.{body_of, entry_of};
ghost use Rattle.vl_table.specs.body.Founds.{IsShort, found_body, found_of};

use crate::body::entry_ref::{BodyRef, EntryRef};
use crate::body::short_value::ShortValue;
use vl_model::Pointer;

/// The body of an entry that a look-up has found.
#[derive(Clone, Copy)]
pub enum FoundBody {
    Inline(ShortValue),
    Gone,
    Far(Pointer),
}

/// The entry that a look-up has found, of the key that was asked for. It owns no memory.
#[derive(Clone, Copy)]
pub struct Found {
    pub version: u64,
    pub body: FoundBody,
}

impl Found {
    /// A copy of an entry that is lent.
    pub fn of(entry: &EntryRef<'_>) -> Self
        requires { IsShort (entry_of entry.now).body }
        ensures { found_of (entry_of entry.now).key result ≡ entry_of entry.now }
    {
        Found {
            version: entry.version,
            body: FoundBody::of(&entry.body),
        }
    }
}

impl FoundBody {
    fn of(body: &BodyRef<'_>) -> Self
        requires { IsShort (body_of body.now) }
        ensures { found_body result ≡ body_of body.now }
    {
        match body {
            BodyRef::Inline(value) => FoundBody::Inline(ShortValue::of(value)),
            BodyRef::Gone => FoundBody::Gone,
            BodyRef::Far(pointer) => FoundBody::Far(*pointer),
        }
    }
}
