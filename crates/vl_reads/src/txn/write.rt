ghost use Rattle.std.specs.Prelude.{List};
ghost use Rattle.vl_reads.specs.Reading.{OnlyWrites};
ghost use Rattle.vl_reads.specs.Sees.{Sees};
ghost use Rattle.vl_model.specs.History.{History};
ghost use Rattle.vl_model.specs.Keys.{tagged, untagged};
ghost use Rattle.vl_model.specs.Reads.{Read};
ghost use Rattle.vl_model.specs.declared.change.Change.TheVariants.{Delete, Set};
ghost use Rattle.vl_txn.specs.Refusals.{IsWritten};

use crate::{SetFail, Txn};
use vl_disk::{HeldFile, Reader};

impl<H: HeldFile, R: Reader<Held = H> + Drop> Txn<H, R> {
    /// Writes a value, in the place of an earlier write of its key. It is refused exactly by the limits, and then nothing changes.
    pub fn set(&mut self, key: &[u8], value: &[u8]) -> Result<(), SetFail>
        ensures written { IsWritten self.old.writes key.now (Set (untagged value.now)) self.new.writes result }
        ensures keeps { OnlyWrites self.old self.new }
        ensures sees { (h : History) (reads : List Read) → Sees H.bytes self.old h reads → Sees H.bytes self.new h reads }
    {
        self.writes.set(key, value, 0)
    }

    /// The same with a tag, which is 0 where none was given.
    pub fn set_tagged(&mut self, key: &[u8], value: &[u8], tag: u8) -> Result<(), SetFail>
        ensures written { IsWritten self.old.writes key.now (Set (tagged value.now tag)) self.new.writes result }
        ensures keeps { OnlyWrites self.old self.new }
        ensures sees { (h : History) (reads : List Read) → Sees H.bytes self.old h reads → Sees H.bytes self.new h reads }
    {
        self.writes.set(key, value, tag)
    }

    /// Writes that a key is deleted, likewise.
    pub fn delete(&mut self, key: &[u8]) -> Result<(), SetFail>
        ensures written { IsWritten self.old.writes key.now Delete self.new.writes result }
        ensures keeps { OnlyWrites self.old self.new }
        ensures sees { (h : History) (reads : List Read) → Sees H.bytes self.old h reads → Sees H.bytes self.new h reads }
    {
        self.writes.delete(key)
    }
}
