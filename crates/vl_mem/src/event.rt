ghost use Rattle.std.specs.Prelude.{◌≡◌, ◌+◌, ◌*◌, ◌<◌, ◌≤◌, [], ◌∷◌, ◌++◌, length, vec_capacity, OnOk};

use crate::written::Written;
use std::alloc::AllocError;
use vl_disk::Name;

/// A call of a disk in memory that left something, or what it was started with.
#[derive(Drop)]
pub enum Event {
    /// A file stood when the disk was started.
    Found(Name, Vec<u8>),
    Create(Name),
    /// An append, of which the file took so many bytes. The whole piece is due.
    Append(Name, Vec<u8>, usize),
    Sync(Name),
    /// A cut to a length, and so many bytes are left. No more is durable than was to stay.
    Cut(Name, usize, usize),
    /// A remove, or a lend, which does the same.
    Remove(Name),
    /// A file that was lent came back as it was written.
    Adopt(Name, Written),
}

/// Writes down an event in the room that was made for it.
pub fn note(events: &mut Vec<Event>, event: Event)
    requires { length events.old.items < vec_capacity events.old }
    ensures items { events.new.items ≡ events.old.items ++ event ∷ [] }
    ensures capacity { vec_capacity events.old ≤ vec_capacity events.new }
{
    let _ = events.push(event);
}

/// The most events that may come of a name between two calls of `ready`: a create or a cut with a sync and a remove after
/// it, an append with a sync, a lend with an adopt, a sync and a remove after it, and of what was there before a sync and
/// either a remove or, where it is lent, an adopt, a sync and a remove.
const EVENTS_OF_A_NAME: usize = 12;

/// Makes room for the events of so many names.
pub fn make_room(events: &mut Vec<Event>, names: usize) -> Result<(), AllocError>
    ensures room { OnOk result (length events.new.items + 12 * names ≤ vec_capacity events.new) }
    ensures items { events.new.items ≡ events.old.items }
    ensures capacity { vec_capacity events.old ≤ vec_capacity events.new }
{
    match names.checked_mul(EVENTS_OF_A_NAME) {
        Some(count) => events.reserve(count),
        None => Err(AllocError),
    }
}
