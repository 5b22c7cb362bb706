//! The engine: a disk, and what is kept of its store in memory.
ghost use Rattle.std.specs.Prelude.{◌≡◌, ◌≤◌, None, true};
ghost use Rattle.std.specs.Option.{ForSome};
ghost use Rattle.vl_engine_laws.specs.Fit.{IsFitFor};
ghost use Rattle.vl_engine_laws.specs.Known.{are_known};
ghost use Rattle.vl_engine_laws.specs.Lent.{AreLent};
ghost use Rattle.vl_pins.specs.Same.{HaveSameTickets};
ghost use Rattle.vl_space.specs.Removing.{IsThere};

mod begin;
mod collect;
mod commit;
mod end;
mod flush;
mod fresh;
mod install;
mod keep;
mod merge;
mod open;
mod plan;
mod relocate;
mod rotate;
mod sweep;

use std::alloc::Global;
use vl_compact::Lent;
use vl_disk::Disk;
use vl_engine_laws::{Core, OpenMerge};
use vl_space::{Collecting, Removing};

/// A store that is open.
#[derive(Drop)]
pub struct Engine<D: Disk> {
    alloc: Global,
    disk: D,
    core: Core<D::Held>,
    // The merge that is open.
    merging: Option<OpenMerge>,
    // How much of its logs is live, and the pass that is open.
    collecting: Collecting,
    // Which files can go, and what still looks at them.
    removing: Removing<Lent<D::Writer>>,
    // What its next calls ask of the disk is so.
    ghost ready: { ForSome (D.told disk) (IsFitFor core) },
    // The next numbers are ones that files may have, if any are left.
    ghost numbered: { (1 ≤ core.back.next_log) × (1 ≤ core.back.state.next_table) },
    // The files that are lent to the open merge can be taken back.
    ghost lent: { AreLent D.Watched disk core.back.state.next_table merging },
    // No entry of its memtable has a version above the last commit's.
    ghost known: { are_known core.front.oracle.last core.version.active.entries ≡ true },
    // While it isn't halted, the files in use stand, and each retired file can be removed.
    ghost there: { core.front.halted ≡ None → IsThere D.Watched D.Writer.Writer disk core merging removing.stock },
    // What lives is pinned under its own tickets, and nothing else is.
    ghost pinned: { HaveSameTickets core.front.oracle removing.pins.live },
}
