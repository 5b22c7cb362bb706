//! A pass over the records of a sealed log, of which it finds those that win exactly from inside it.

use crate::batch::{Batch, Found};
use crate::take::{records_of, take_found};
use std::alloc::Global;
use vl_disk::{HeldFile, ReadFault, Reader};
use vl_merge::Sources;
use vl_seglog::SealedLog;

/// In bytes: where the first frame of a log stands.
const FIRST_FRAME: u64 = vl_seglog::LOG_HEADER_BYTES as u64;

/// A pass that is under way.
#[derive(Drop)]
pub struct Pass<V, H> {
    // The sources as they were when it began.
    base: V,
    log: SealedLog<H>,
    at: At,
}

// Where a pass is in its log.
#[derive(Clone, Copy)]
struct At {
    // In bytes: where the frame stands at which it is.
    place: u64,
    // So many of that frame's records are passed.
    done: usize,
}

impl<V, H> Pass<V, H> {
    ghost use Rattle.std.specs.Prelude.{◌≡◌};

    /// The number of the log that it goes over.
    pub fn segment(&self) -> u32
        ensures { result ≡ self.now.log.number }
    {
        self.log.number
    }
}

impl<V: Sources<Fault = ReadFault>, H: HeldFile> Pass<V, H> {
    ghost use Rattle.std.specs.Prelude.{◌≡◌, [], IfErr, IfNone, IfOk, IfSome, OnErr, OnOk};
    ghost use Rattle.vl_collect.specs.Batches.{IsBatch};
    ghost use Rattle.vl_collect.specs.Faults.{FailsPassing, MayWhere, NoneRose, counted};
    ghost use Rattle.vl_collect.specs.Passing.{AreRead, Begins, EndsAlike, Gives, IsOver, IsPass, Reaches, TornBehind, Walks};
    ghost use Rattle.vl_collect.specs.Taking.{candidates};
    ghost use Rattle.vl_engine_model.specs.Relocation as layout;

    /// A pass over this log that has given nothing yet, with the sources by which it is told what wins.
    pub fn new(base: V, log: SealedLog<H>) -> Self
        ensures begins { (p : layout.Pass) → Begins H.bytes V.has base log p → IsPass H.bytes V.has result p }
        ensures base { result.base ≡ base }
        ensures log { result.log ≡ log }
        ensures start { result.at.place ≡ 16 }
    {
        Pass {
            base,
            log,
            at: At {
                place: FIRST_FRAME,
                done: 0,
            },
        }
    }

    /// The next records that win exactly from inside the log in the sources with which it began, as many as a batch may have:
    /// so many records, and so many bytes of values, but one record however long it is. None where none is left. After a
    /// fault it is as before.
    pub fn next<R: Reader<Held = H>>(
        &mut self,
        alloc: Global,
        files: &mut R,
        looks: &mut V::Reader,
    ) -> Result<Option<Batch>, ReadFault>
        ensures gives { (p : layout.Pass) → V.fits self.old.base looks.old → IsPass H.bytes V.has self.old p
            → IfOk result (Gives H.bytes V.has self.new p) }
        ensures kept { self.new ≡ record self.old { at = self.new.at } }
        // Whatever is known besides the log's bytes, it goes on over whole frames alone, and only where these are all of the
        // log it gives nothing.
        ensures reaches { OnOk result (Reaches H.bytes self.old.log self.old.at.place self.new.at.place) }
        ensures over { IfOk result (λ batch. IfNone batch (IsOver H.bytes self.old.log self.new.at.place)) }
        // And what it gives was read from them.
        ensures read { IfOk result (λ batch. IfSome batch (AreRead H.bytes self.old.log self.old.at.place)) }
        ensures ends { OnOk result (EndsAlike H.bytes self.old.log self.old.at.place self.new.at.place) }
        ensures refused { OnErr result (self.new ≡ self.old) }
        ensures fits { V.fits self.old.base looks.old → V.fits self.old.base looks.new }
        ensures steady { OnOk result (NoneRose
            (counted (V.faults looks.old) (V.faults looks.new) (R.faults files.old) (R.faults files.new))) }
        // Reading fails only where a count says so. Which fault of its sources it is hangs on what their reader keeps. The log
        // is damaged only where the frames from the pass's place on end, and bytes stand behind them.
        ensures cause { IfErr result (FailsPassing (λ f. V.is_read_fault f)
            (MayWhere (V.fits self.old.base looks.old) (V.may_fail self.old.base))
            self.old.log.number (TornBehind H.bytes self.old.log self.old.at.place)
            (counted (V.faults looks.old) (V.faults looks.new) (R.faults files.old) (R.faults files.new))) }
    {
        let mut batch = Vec::new(alloc);
        let at = self.walk(alloc, files, looks, &mut batch)?;
        self.at = at;
        Ok(Batch::of(batch))
    }

    // Takes what is found into a batch, frame by frame, and gives where it is then.
    fn walk<R: Reader<Held = H>>(
        &self,
        alloc: Global,
        files: &mut R,
        looks: &mut V::Reader,
        batch: &mut Vec<Found>,
    ) -> Result<At, ReadFault>
        ensures walks { (p : layout.Pass) → V.fits self.now.base looks.old → IsPass H.bytes V.has self.now p
            → IfOk result (Walks H.bytes self.now.log p batch.old.items batch.new.items) }
        ensures batch { batch.old.items ≡ [] → OnOk result (IsBatch batch.new.items) }
        ensures reaches { IfOk result (λ at. Reaches H.bytes self.now.log self.now.at.place at.place) }
        ensures over { IfOk result (λ at. batch.new.items ≡ [] → IsOver H.bytes self.now.log at.place) }
        ensures read { batch.old.items ≡ []
            → OnOk result (AreRead H.bytes self.now.log self.now.at.place (candidates batch.new.items)) }
        ensures ends { IfOk result (λ at. EndsAlike H.bytes self.now.log self.now.at.place at.place) }
        ensures fits { V.fits self.now.base looks.old → V.fits self.now.base looks.new }
        ensures steady { OnOk result (NoneRose
            (counted (V.faults looks.old) (V.faults looks.new) (R.faults files.old) (R.faults files.new))) }
        ensures cause { IfErr result (FailsPassing (λ f. V.is_read_fault f)
            (MayWhere (V.fits self.now.base looks.old) (V.may_fail self.now.base))
            self.now.log.number (TornBehind H.bytes self.now.log self.now.at.place)
            (counted (V.faults looks.old) (V.faults looks.new) (R.faults files.old) (R.faults files.new))) }
    {
        let mut at = self.at;
        while at.place < self.log.held.len() {
            let Some(frame) = self.log.scan_from(alloc, files, at.place)? else {
                return Ok(at);
            };
            let records = records_of(&frame.said);
            let count = records.len();
            let done = take_found(&self.base, looks, self.log.number, records, at.done, batch)?;
            if done < count {
                return Ok(At {
                    place: at.place,
                    done,
                });
            }
            at = At {
                place: at.place.saturating_add(frame.length),
                done: 0,
            };
        }
        Ok(at)
    }
}
