//! Reads through a name.
ghost use Rattle.std.specs.Prelude.{◌≡◌, ◌≤◌};
ghost use Rattle.vl_engine_model.specs.Store.Reading.{get_at_by, get_by, scan_by};
ghost use Rattle.vl_engine_model.specs.Store.Things.{thing_of};
ghost use Rattle.vl_script_model.specs.Failing.{FailsBeside};
ghost use Rattle.vl_script_model.specs.Halts.{HaltsByDamage, HaltsByDisk, HaltsByReader};
ghost use Rattle.vl_script_model.specs.Readers.{IsWithoutTables};
ghost use Rattle.vl_replay_laws.specs.Replaying.{MakesStep, OnlyNoMemory};
ghost use Rattle.vl_replay.specs.Served.{ReadSurely, ServesFor};
ghost use Rattle.vl_replay.specs.AsCalled.{AnswersGet, AnswersPast, AnswersScan};
ghost use Rattle.vl_script_model.specs.Sequential.{State};
ghost use Rattle.vl_replay_laws.specs.Standing.{open_in, tell_of, read_answer, past_answer, value_answer};
ghost use Rattle.vl_script.specs.declared.answer.Answer.TheVariants.{Rows as TheRows};

use crate::replayer::Served;
use vl_disk::Disk;
use vl_engine::{AtFail, ReadFail, Rows};
use vl_model::{Bytes, Value, Way};
use vl_replay_laws::{Thing, place};
use vl_script::{Answer, Ident};
use vl_script_model::Halt;

impl<D: Disk> Served<D> {
    /// Reads a key, and tells its value with its tag or without.
    pub(super) fn read(&mut self, name: Ident, key: Bytes, with_tag: bool) -> Result<Answer, Halt>
        ensures makes { (s : State) → ServesFor D.Watched D.Held.bytes self.old s
            → MakesStep D.Held.bytes (D.told self.new.engine.disk) self.new.engine.core self.new.opens.items s
            (get_by s.store name (tell_of with_tag) key (thing_of s.store name)) result }
        ensures near { (s : State) → ServesFor D.Watched D.Held.bytes self.old s → IsWithoutTables s.store.layout → OnlyNoMemory result }
        ensures undamaged { (s : State) → ServesFor D.Watched D.Held.bytes self.old s → HaltsByDamage result → ⊥ }
        ensures fault { HaltsByReader result → FailsBeside (ReadSurely D.Reader.faults self.old) D.Reader.faults }
        ensures sure { (s : State) → ServesFor D.Watched D.Held.bytes self.old s
            → ReadSurely D.Reader.faults self.old → ReadSurely D.Reader.faults self.new }
        ensures not_the_disk { HaltsByDisk result → ⊥ }
        // Whatever the disk holds, it is answered what the read gave.
        ensures as_called { AnswersGet D.Held.bytes (open_in self.old.opens.items name) (open_in self.new.opens.items name)
            (λ r. D.Reader.faults r.inner) name with_tag key result }
        ensures engine { self.new.engine ≡ self.old.engine }
    {
        let Some(at) = place(&self.opens, name.as_slice()) else {
            return Ok(Answer::Unknown { name });
        };
        match &mut self.opens[at].thing {
            Thing::View(view) => read_answer(view.get(key.as_slice()), with_tag),
            Thing::Transaction(txn) => read_answer(txn.get(key.as_slice()), with_tag),
        }
    }

    /// Reads a key as it stood at a number.
    pub(super) fn get_at(&mut self, name: Ident, key: Bytes, number: u64) -> Result<Answer, Halt>
        ensures makes { (s : State) → ServesFor D.Watched D.Held.bytes self.old s
            → MakesStep D.Held.bytes (D.told self.new.engine.disk) self.new.engine.core self.new.opens.items s
            (get_at_by s.store name key number (thing_of s.store name)) result }
        ensures near { (s : State) → ServesFor D.Watched D.Held.bytes self.old s → IsWithoutTables s.store.layout → OnlyNoMemory result }
        ensures undamaged { (s : State) → ServesFor D.Watched D.Held.bytes self.old s → HaltsByDamage result → ⊥ }
        ensures fault { HaltsByReader result → FailsBeside (ReadSurely D.Reader.faults self.old) D.Reader.faults }
        ensures sure { (s : State) → ServesFor D.Watched D.Held.bytes self.old s
            → ReadSurely D.Reader.faults self.old → ReadSurely D.Reader.faults self.new }
        ensures not_the_disk { HaltsByDisk result → ⊥ }
        // Whatever the disk holds, it is answered what the read gave.
        ensures as_called { AnswersPast D.Held.bytes (open_in self.old.opens.items name) (open_in self.new.opens.items name)
            (λ r. D.Reader.faults r.inner) name key number result }
        ensures engine { self.new.engine ≡ self.old.engine }
    {
        let Some(at) = place(&self.opens, name.as_slice()) else {
            return Ok(Answer::Unknown { name });
        };
        match &mut self.opens[at].thing {
            Thing::View(view) => get_at_answer(view.get_at(key.as_slice(), number)),
            Thing::Transaction(txn) => get_at_answer(txn.get_at(key.as_slice(), number)),
        }
    }

    /// Reads the first rows of an interval, as the way goes.
    pub(super) fn scan(
        &mut self,
        name: Ident,
        low: Bytes,
        high: Bytes,
        limit: u16,
        way: Way,
    ) -> Result<Answer, Halt>
        requires { 1 ≤ limit }
        ensures makes { (s : State) → ServesFor D.Watched D.Held.bytes self.old s
            → MakesStep D.Held.bytes (D.told self.new.engine.disk) self.new.engine.core self.new.opens.items s
            (scan_by s.store way name low high limit (thing_of s.store name)) result }
        ensures near { (s : State) → ServesFor D.Watched D.Held.bytes self.old s → IsWithoutTables s.store.layout → OnlyNoMemory result }
        ensures undamaged { (s : State) → ServesFor D.Watched D.Held.bytes self.old s → HaltsByDamage result → ⊥ }
        ensures fault { HaltsByReader result → FailsBeside (ReadSurely D.Reader.faults self.old) D.Reader.faults }
        ensures sure { (s : State) → ServesFor D.Watched D.Held.bytes self.old s
            → ReadSurely D.Reader.faults self.old → ReadSurely D.Reader.faults self.new }
        ensures not_the_disk { HaltsByDisk result → ⊥ }
        // Whatever the disk holds, it is answered what the scan gave.
        ensures as_called { AnswersScan D.Held.bytes (open_in self.old.opens.items name) (open_in self.new.opens.items name)
            (λ r. D.Reader.faults r.inner) name low high result }
        ensures engine { self.new.engine ≡ self.old.engine }
    {
        let Some(at) = place(&self.opens, name.as_slice()) else {
            return Ok(Answer::Unknown { name });
        };
        match &mut self.opens[at].thing {
            Thing::View(view) => {
                scan_answer(view.scan(low.as_slice(), high.as_slice(), limit, way))
            }
            Thing::Transaction(txn) => {
                scan_answer(txn.scan(low.as_slice(), high.as_slice(), limit, way))
            }
        }
    }
}

// How a read of a key is answered.
fn read_answer(read: Result<Option<Value>, ReadFail>, with_tag: bool) -> Result<Answer, Halt>
    ensures { result ≡ read_answer (value_answer with_tag) read }
{
    match read {
        Ok(None) => Ok(Answer::NoValue),
        Ok(Some(value)) => Ok(if with_tag {
            Answer::FoundTagged { value }
        } else {
            Answer::Found { value }
        }),
        Err(ReadFail::EmptyKey | ReadFail::KeyTooLong) => Ok(Answer::Invalid),
        Err(ReadFail::NoMemory) => Err(Halt::NoMemory),
        Err(ReadFail::Disk { name }) => Err(Halt::Read { name }),
        Err(ReadFail::Damaged { name, place }) => Err(Halt::Damaged { name, place }),
    }
}

// How a scan is answered.
fn scan_answer(read: Result<Rows, ReadFail>) -> Result<Answer, Halt>
    ensures { result ≡ read_answer (λ rows. TheRows rows) read }
{
    match read {
        Ok(rows) => Ok(Answer::Rows { rows }),
        Err(ReadFail::EmptyKey | ReadFail::KeyTooLong) => Ok(Answer::Invalid),
        Err(ReadFail::NoMemory) => Err(Halt::NoMemory),
        Err(ReadFail::Disk { name }) => Err(Halt::Read { name }),
        Err(ReadFail::Damaged { name, place }) => Err(Halt::Damaged { name, place }),
    }
}

// How a read at an older number is answered.
fn get_at_answer(read: Result<Option<Value>, AtFail>) -> Result<Answer, Halt>
    ensures { result ≡ past_answer read }
{
    match read {
        Ok(None) => Ok(Answer::NoValue),
        Ok(Some(value)) => Ok(Answer::Found { value }),
        Err(AtFail::EmptyKey | AtFail::KeyTooLong | AtFail::Ahead { .. }) => Ok(Answer::Invalid),
        Err(AtFail::Dropped { low }) => Ok(Answer::Dropped { low }),
        Err(AtFail::NoMemory) => Err(Halt::NoMemory),
        Err(AtFail::Disk { name }) => Err(Halt::Read { name }),
        Err(AtFail::Damaged { name, place }) => Err(Halt::Damaged { name, place }),
    }
}
