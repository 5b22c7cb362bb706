//! What steps change in memory behind their last call. It wants no more memory.

ghost use Rattle.std.specs.Prelude.{◌≡◌, ◌≤◌, ◌<◌, ◌+◌, ◌++◌, ◌∷◌, [], drop, OnOk, vec_capacity, vec_len};
ghost use Rattle.vl_back.specs.Deciding.{MayFlush, MayRotate};
ghost use Rattle.vl_model.specs.Limits.{max_epoch};

use crate::{Back, Waiting};
use std::alloc::AllocError;
use vl_manifest::ManifestState;

impl Back {
    /// The log that waited for longest was flushed, by a switch behind which the manifest says this.
    pub fn apply_flush(&mut self, state: ManifestState)
        requires { MayFlush self.old }
        ensures state { self.new.state ≡ state }
        ensures waiting { self.new.waiting.items ≡ drop 1 self.old.waiting.items }
        ensures version { self.new.epoch ≡ self.old.epoch + 1 }
        ensures manifest { self.new.manifest ≡ self.old.manifest }
        ensures next_log { self.new.next_log ≡ self.old.next_log }
    {
        self.state = state;
        let _ = self.waiting.remove(0);
        self.epoch += 1;
    }

    /// Tables that a merge made were put in the place of its inputs, by a switch behind which the manifest says this.
    pub fn apply_install(&mut self, state: ManifestState)
        requires { self.old.epoch < max_epoch }
        ensures state { self.new.state ≡ state }
        ensures version { self.new.epoch ≡ self.old.epoch + 1 }
        ensures others { self.new ≡ record self.old { state = state; epoch = self.new.epoch } }
    {
        self.state = state;
        self.epoch += 1;
    }

    /// Takes the memory that a rotation wants here.
    pub fn make_room(&mut self) -> Result<(), AllocError>
        ensures room { OnOk result (vec_len self.new.waiting + 1 ≤ vec_capacity self.new.waiting) }
        ensures waiting { self.new.waiting.items ≡ self.old.waiting.items }
        ensures others { self.new ≡ record self.old { waiting = self.new.waiting } }
    {
        self.waiting.reserve(1)
    }

    /// A log was made, to which commits go from now on, and this one waits for its flush.
    pub fn apply_rotation(&mut self, sealed: Waiting)
        requires may { MayRotate self.old }
        requires room { vec_len self.old.waiting + 1 ≤ vec_capacity self.old.waiting }
        ensures waiting { self.new.waiting.items ≡ self.old.waiting.items ++ sealed ∷ [] }
        ensures next_log { self.new.next_log ≡ self.old.next_log + 1 }
        ensures version { self.new.epoch ≡ self.old.epoch + 1 }
        ensures manifest { self.new.manifest ≡ self.old.manifest }
        ensures state { self.new.state ≡ self.old.state }
    {
        self.waiting.push_reserved(sealed);
        self.next_log += 1;
        self.epoch += 1;
    }
}
