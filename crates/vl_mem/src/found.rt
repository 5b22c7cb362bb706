// The files that stand when a disk is started.
ghost use Rattle.std.specs.Prelude.{◌≡◌, vec_capacity, OnOk};
ghost use Rattle.vl_disk.specs.MadeFile.{made};
ghost use Rattle.vl_disk.specs.Name.{IsNumbered};
ghost use Rattle.vl_mem.specs.Event.{state_after};
ghost use Rattle.vl_mem.specs.Kept.{IsKept};
ghost use Rattle.vl_mem.specs.Entry.{NoneFail};

use crate::entry::Entry;
use crate::event::{Event, make_room, note};
use std::alloc::Global;
use std::collections::BTreeMap;
use vl_disk::{Name, NoMemory};

/// One file more stands.
pub fn found(
    alloc: Global,
    entries: &mut BTreeMap<Name, Entry, Global>,
    events: &mut Vec<Event>,
    name: Name,
    bytes: Vec<u8>,
) -> Result<(), NoMemory>
    requires { IsNumbered name }
    ensures state { OnOk result (state_after events.new.items ≡ made name bytes.items (state_after events.old.items)) }
    ensures failing { OnOk result (NoneFail entries.old → NoneFail entries.new) }
    ensures kept { OnOk result (IsKept entries.old events.old.items (vec_capacity events.old)
        → IsKept entries.new events.new.items (vec_capacity events.new)) }
{
    let kept = Vec::from_slice(alloc, &bytes)?;
    make_room(events, entries.len() + 1)?;
    entries.insert(name, Entry::found(alloc, bytes))?;
    note(events, Event::Found(name, kept));
    Ok(())
}
