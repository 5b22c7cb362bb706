//! Which blocks of a table were tested.

ghost use Rattle.std.specs.Prelude.{◌≡◌, IfOk, IsTrue};
ghost use Rattle.std.specs.Arc.{arc_value};
ghost use Rattle.vl_table.specs.Tested.{IsTested};

use crate::slot::BlockId;
use std::alloc::{AllocError, Global};
use std::marker::Model;
use std::sync::{Arc, OnceLock};
use vl_disk::HeldFile;

/// The blocks of a table that were tested since it was opened or made, whoever read them: a block's check is right, and its
/// body is a block's, in order. All that share the table share this.
/// No call waits or wants memory. Where there was no memory for it none is noted, and a block is tested each time.
#[derive(Drop)]
pub struct Tested<H: HeldFile> {
    marks: Option<Arc<Marks<H>, Global>>,
}

// A place for each block, which is written once.
#[derive(Drop)]
struct Marks<H: HeldFile> {
    held: Arc<H, Global>,
    places: Vec<OnceLock<Mark<H>>>,
}

// A block that was tested, and the file in which it stands.
#[derive(Drop)]
struct Mark<H: HeldFile> {
    held: Arc<H, Global>,
    id: BlockId,
    ghost stands: { IsTested H.bytes (arc_value held) id },
}

// What was tested is no one's contents: clauses don't see it.
impl<H: HeldFile> Model for Tested<H> {
    ghost Value = { Unit {0} };

    ghost view = { λ _. tt };
}

impl<H: HeldFile> Tested<H> {
    /// Room for so many blocks of a file, none of which was tested.
    pub fn new(alloc: Global, held: &H, blocks: usize) -> Self {
        match Marks::new(alloc, held, blocks) {
            Ok(marks) => Tested { marks: Some(marks) },
            Err(_) => Tested { marks: None },
        }
    }

    /// The same once more.
    pub fn share(&self) -> Result<Self, AllocError> {
        match &self.marks {
            Some(marks) => Ok(Tested {
                marks: Some(Arc::try_clone(marks)?),
            }),
            None => Ok(Tested { marks: None }),
        }
    }

    /// Whether the block with an index was tested, and stands in this file.
    pub fn has(&self, held: &H, at: usize, id: BlockId) -> bool
        ensures { IsTrue result → IsTested H.bytes held.now id }
    {
        match &self.marks {
            Some(marks) => marks.has(held, at, id),
            None => false,
        }
    }

    /// Notes that the block with an index was tested.
    pub fn note(&self, held: &H, at: usize, id: BlockId)
        requires { IsTested H.bytes held.now id }
    {
        if let Some(marks) = &self.marks {
            marks.note(held, at, id);
        }
    }
}

impl<H: HeldFile> Marks<H> {
    fn new(alloc: Global, held: &H, blocks: usize) -> Result<Arc<Self, Global>, AllocError> {
        let mut places = Vec::new(alloc);
        places.reserve_exact(blocks)?;
        for _ in 0..blocks {
            places.push(OnceLock::new())?;
        }
        let held = shared(alloc, held.clone()?)?;
        shared(alloc, Marks { held, places })
    }

    fn has(&self, held: &H, at: usize, id: BlockId) -> bool
        ensures { IsTrue result → IsTested H.bytes held.now id }
    {
        let Some(place) = self.places.get(at) else {
            return false;
        };
        let Some(mark) = place.get() else {
            return false;
        };
        mark.id == id && held.same(&mark.held, id.place, id.length as u64)
    }

    fn note(&self, held: &H, at: usize, id: BlockId)
        requires { IsTested H.bytes held.now id }
    {
        let Some(place) = self.places.get(at) else {
            return;
        };
        if !self.held.same(held, id.place, id.length as u64) {
            return;
        }
        if let Ok(held) = Arc::try_clone(&self.held) {
            let _ = place.try_set(Mark { held, id });
        }
    }
}

// A value that is shared.
fn shared<T: Drop>(alloc: Global, value: T) -> Result<Arc<T, Global>, AllocError>
    ensures { IfOk result (λ shared. arc_value shared ≡ value) }
{
    match Arc::new(alloc, value) {
        Ok(shared) => Ok(shared),
        Err(_) => Err(AllocError),
    }
}
