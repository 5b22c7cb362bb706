//! A script's lines answered, one after the other, over the engine.
ghost use Rattle.vl_replay.specs.Handed.{CanHandIn};

mod begin;
mod collect;
mod commit;
mod drop;
mod flush;
mod keep;
mod lines;
mod merge;
mod open;
mod read;
mod rotate;
mod step;
mod sweep;
mod write;

use std::alloc::Global;
use vl_cache::Cached;
use vl_disk::Disk;
use vl_engine::Engine;
use vl_replay_laws::{Open, Passing, Planned};
use vl_script_model::Halt;
use vl_version::Base;

/// A store on a disk, and what reads it under a name.
#[derive(Drop)]
pub struct Served<D: Disk> {
    alloc: Global,
    engine: Engine<D>,
    /// The names that transactions and views have. No name stands here twice.
    opens: Vec<Open<D::Held, Cached<D::Reader>>>,
}

/// A store on a disk, which answers a script's lines.
#[derive(Drop)]
pub struct Replayer<D: Disk> {
    served: Served<D>,
    /// The merge that waits for its install, with a name of its own.
    planned: Option<Planned<Base<D::Held, D::Reader>, D::Held, D::Writer>>,
    /// The pass that is open, with a name of its own.
    passing: Option<Passing<Base<D::Held, D::Reader>, D::Held>>,
    /// Why a line was given no answer, after which none is.
    halted: Option<Halt>,
    // The merge can be handed in to the engine.
    ghost handed: { CanHandIn D.Watched D.Writer.Writer served.engine.disk served.engine.merging planned },
}
