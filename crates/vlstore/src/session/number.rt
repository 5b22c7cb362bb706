ghost use Rattle.std.specs.Prelude.{◌≡◌, true};
ghost use Rattle.vl_model.specs.History.{last_number};
ghost use Rattle.vlstore.specs.Knowing.{GoesOn, Looked};

use super::Session;
use super::finish::finish;
use std::marker::Brand;
use std::sync::Wait;
use vl_disk::Disk;

impl<D: Disk> Session<D> {
    /// The number of the last commit of all sessions.
    pub fn number<R: Wait>(&mut self, rt: &R) -> u64
        ensures on { GoesOn self.old self.new }
        ensures own { self.new.own ≡ self.old.own }
        ensures looks { self.old.tells ≡ true → Looked self.old self.new (λ l h. result ≡ last_number h) }
    {
        let lock = &*self.lock;
        let mut turn = lock.take(rt, &mut self.token);
        let locked = turn.value();
        let answer = locked.engine.number();
        finish::<_, Brand, _, _, _>(lock, rt, turn, &(), &answer, false);
        answer
    }
}
