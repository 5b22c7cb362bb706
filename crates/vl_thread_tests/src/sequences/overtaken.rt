// A session that another overtakes.
use super::KEY;
use std::alloc::{AllocError, Global};
use std::sync::Wait;
use vl_drive::{BeginFail, CommitFail, Done, ReadFail, Shop, StepFail};
use vl_model::Value;

// The value that tells 100.
const HUNDRED: [u8; 8] = [0, 0, 0, 0, 0, 0, 0, 100];

// A session, and another of the same store, which commits a write of the sequences' key before the first one's next
// commit: once, and only where there is memory.
#[derive(Drop)]
pub(super) struct Overtaken<S: Drop> {
    pub(super) shop: S,
    pub(super) other: S,
    // Whether the other hasn't written yet.
    pub(super) waits: bool,
}

impl<S: Shop> Shop for Overtaken<S> {
    type Txn = S::Txn;

    type Note = S::Note;

    ghost knows = { λ overtaken. S.knows overtaken.shop };

    ghost noted = { λ note. S.noted note };

    ghost ticket = { λ txn. S.ticket txn };

    ghost number = { λ txn. S.number txn };

    ghost writes = { λ txn. S.writes txn };

    ghost sees = { λ txn h reads. S.sees txn h reads };

    fn begin<R: Wait>(&mut self, rt: &R) -> Result<S::Txn, BeginFail> {
        self.shop.begin(rt)
    }

    fn get(&mut self, txn: &mut S::Txn, key: &[u8]) -> Result<Option<Value>, ReadFail> {
        self.shop.get(txn, key)
    }

    fn set(&mut self, txn: &mut S::Txn, key: &[u8], value: &[u8]) -> Result<(), AllocError> {
        self.shop.set(txn, key, value)
    }

    fn commit<R: Wait>(&mut self, rt: &R, txn: S::Txn) -> Result<Done, CommitFail<S::Txn>> {
        if self.waits {
            self.waits = false;
            match self.other.begin(rt) {
                Ok(mut write) => {
                    if self.other.set(&mut write, &KEY, &HUNDRED).is_ok() {
                        match self.other.commit(rt, write) {
                            Ok(Done::At(_) | Done::Nothing) => {}
                            Err(why) => drop(why),
                        }
                    }
                }
                Err(BeginFail::TooMany | BeginFail::NoMemory) => {}
            }
        }
        self.shop.commit(rt, txn)
    }

    fn forget<R: Wait>(&mut self, rt: &R, txn: S::Txn) {
        self.shop.forget(rt, txn);
    }

    fn rotate<R: Wait>(&mut self, rt: &R) -> Result<(), StepFail> {
        self.shop.rotate(rt)
    }

    fn flush<R: Wait>(&mut self, rt: &R) -> Result<(), StepFail> {
        self.shop.flush(rt)
    }

    fn merge<R: Wait>(&mut self, rt: &R, alloc: Global) -> Result<(), StepFail> {
        self.shop.merge(rt, alloc)
    }

    fn collect<R: Wait>(&mut self, rt: &R, alloc: Global, percent: u8) -> Result<(), StepFail> {
        self.shop.collect(rt, alloc, percent)
    }

    fn sweep<R: Wait>(&mut self, rt: &R) -> Result<(), StepFail> {
        self.shop.sweep(rt)
    }

    fn note(&mut self) -> Result<S::Note, AllocError> {
        self.shop.note()
    }

    fn meet(&mut self, note: S::Note) {
        self.shop.meet(note);
    }
}
