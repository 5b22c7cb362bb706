use crate::levels::Levels;
use std::alloc::{AllocError, Global};
use std::marker::Model;
use std::mem;
use std::sync::Arc;
use vl_disk::HeldFile;
use vl_memtable::FrozenLog;
use vl_seglog::SealedLog;

/// The sources behind the memtable that takes commits, and the logs into which they lead.
#[derive(Drop)]
pub struct Behind<H: HeldFile> {
    /// The logs whose memtables wait for their flush, the newest first.
    pub frozen: Vec<FrozenLog>,
    /// The tables of all levels.
    pub levels: Levels<H>,
    /// The logs that pointers lead into, their numbers rising.
    pub logs: Vec<SealedLog<H>>,
}

// Where it stands: until it is shared for the first time, by itself, so that to make it takes no memory.
#[derive(Drop)]
enum Place<H: HeldFile> {
    Own(Behind<H>),
    Shared(Arc<Behind<H>, Global>),
}

/// The same as several versions share it. Clauses see what is shared.
#[derive(Drop)]
pub struct SharedBehind<H: HeldFile> {
    place: Place<H>,
}

impl<H: HeldFile> Model for SharedBehind<H> {
    ghost use Rattle.vl_version.specs.declared.behind.Behind.{Behind};

    ghost Value = { Behind H };

    ghost use Rattle.vl_version.specs.Place.{behind_of};

    ghost view = { λ a. behind_of a.place };
}

impl<H: HeldFile> SharedBehind<H> {
    ghost use Rattle.std.specs.Prelude.{◌≡◌, IfOk};

    pub fn new(behind: Behind<H>) -> Self
        ensures { result ≡ behind }
    {
        SharedBehind {
            place: Place::Own(behind),
        }
    }

    /// The same once more. It may want memory.
    pub fn share(&mut self) -> Result<Self, AllocError>
        ensures same { self.new ≡ self.old }
        ensures shared { IfOk result (λ shared. shared ≡ self.old) }
    {
        let alloc = *self.as_ref().frozen.allocator();
        let none = Place::Own(Behind {
            frozen: Vec::new(alloc),
            levels: Levels::none(alloc),
            logs: Vec::new(alloc),
        });
        self.place = mem::replace(&mut self.place, none).into_shared(alloc);
        match &self.place {
            Place::Own(_) => Err(AllocError),
            Place::Shared(behind) => Ok(SharedBehind {
                place: Place::Shared(behind.clone()?),
            }),
        }
    }

    pub fn as_ref(&self) -> &Behind<H>
        ensures { result.now ≡ self.now }
    {
        match &self.place {
            Place::Own(behind) => behind,
            Place::Shared(behind) => behind,
        }
    }
}

impl<H: HeldFile> Place<H> {
    ghost use Rattle.std.specs.Prelude.{◌≡◌};
    ghost use Rattle.vl_version.specs.Place.{behind_of};

    // The same, shared where there is memory for it.
    fn into_shared(self, alloc: Global) -> Self
        ensures { behind_of result ≡ behind_of self }
    {
        match self {
            Place::Own(behind) => match Arc::new(alloc, behind) {
                Ok(behind) => Place::Shared(behind),
                Err(failed) => Place::Own(failed.value),
            },
            Place::Shared(behind) => Place::Shared(behind),
        }
    }
}
