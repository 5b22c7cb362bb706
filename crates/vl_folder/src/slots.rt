// The slots of a folder's files, in the order of their names.
ghost use Rattle.std.specs.Prelude.{◌≡◌, length};
ghost use Rattle.std.specs.List.Sorted.{IsSearchInRange};

use crate::slot::Slot;
use vl_disk::Name;

/// Where the slot of this name is, or else where it belongs.
pub fn place_of(slots: &[Slot], name: Name) -> Result<usize, usize>
    ensures { IsSearchInRange result (length slots.now) }
{
    slots.binary_search_by(|slot| slot.name().cmp(&name))
}
