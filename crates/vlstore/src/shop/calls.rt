//! The calls of a shop.
use super::SureSession;
use super::answers::{as_begin, as_commit, as_merge, as_read, as_set, as_step, as_sweep};
use super::collecting::collect;
use crate::note::Note;
use std::alloc::{AllocError, Global};
use std::sync::Wait;
use vl_cache::Cached;
use vl_disk::Disk;
use vl_drive::Shop;
use vl_engine::Txn;
use vl_mem::SureDisk;
use vl_model::Value;

impl Shop for SureSession<SureDisk> {
    ghost use Rattle.vlstore.specs.Shops.{known_by, note_of};
    ghost use Rattle.std.specs.Prelude.{Some};
    ghost use Rattle.vl_reads.specs.Sees.{Sees};
    ghost use Rattle.vl_mem.specs.Held.{held_bytes};

    type Txn = Txn<<SureDisk as Disk>::Held, Cached<<SureDisk as Disk>::Reader>>;

    type Note = Note<SureDisk>;

    ghost knows = { λ shop. known_by shop.session };

    ghost noted = { λ note. note_of note };

    ghost ticket = { λ txn. txn.ticket };

    ghost number = { λ txn. txn.number };

    ghost writes = { λ txn. txn.writes };

    ghost sees = { λ txn h reads. Sees (λ held. Some (held_bytes held)) txn h reads };

    fn begin<R: Wait>(
        &mut self,
        rt: &R,
    ) -> Result<
        Txn<<SureDisk as Disk>::Held, Cached<<SureDisk as Disk>::Reader>>,
        vl_drive::BeginFail,
    > {
        as_begin(self.session.begin(rt))
    }

    fn get(
        &mut self,
        txn: &mut Txn<<SureDisk as Disk>::Held, Cached<<SureDisk as Disk>::Reader>>,
        key: &[u8],
    ) -> Result<Option<Value>, vl_drive::ReadFail> {
        as_read(txn.get(key))
    }

    fn set(
        &mut self,
        txn: &mut Txn<<SureDisk as Disk>::Held, Cached<<SureDisk as Disk>::Reader>>,
        key: &[u8],
        value: &[u8],
    ) -> Result<(), AllocError> {
        as_set(txn.set(key, value))
    }

    fn commit<R: Wait>(
        &mut self,
        rt: &R,
        txn: Txn<<SureDisk as Disk>::Held, Cached<<SureDisk as Disk>::Reader>>,
    ) -> Result<
        vl_drive::Done,
        vl_drive::CommitFail<Txn<<SureDisk as Disk>::Held, Cached<<SureDisk as Disk>::Reader>>>,
    > {
        as_commit(self.session.commit(rt, txn))
    }

    fn forget<R: Wait>(
        &mut self,
        rt: &R,
        txn: Txn<<SureDisk as Disk>::Held, Cached<<SureDisk as Disk>::Reader>>,
    ) {
        self.session.forget(rt, txn);
    }

    fn rotate<R: Wait>(&mut self, rt: &R) -> Result<(), vl_drive::StepFail> {
        as_step(self.session.rotate(rt))
    }

    fn flush<R: Wait>(&mut self, rt: &R) -> Result<(), vl_drive::StepFail> {
        as_step(self.session.flush(rt))
    }

    fn merge<R: Wait>(&mut self, rt: &R, alloc: Global) -> Result<(), vl_drive::StepFail> {
        let answer = self.session.merge(rt, alloc);
        // All that the session did is among what it has seen.
        let _ = self.session.number(rt);
        as_merge(answer)
    }

    fn collect<R: Wait>(
        &mut self,
        rt: &R,
        alloc: Global,
        percent: u8,
    ) -> Result<(), vl_drive::StepFail> {
        collect(&mut self.session, rt, alloc, percent)
    }

    fn sweep<R: Wait>(&mut self, rt: &R) -> Result<(), vl_drive::StepFail> {
        as_sweep(self.session.sweep(rt))
    }

    fn note(&mut self) -> Result<Note<SureDisk>, AllocError> {
        self.session.note()
    }

    fn meet(&mut self, note: Note<SureDisk>) {
        self.session.meet(note);
    }
}
