//! Writes through a name.
ghost use Rattle.std.specs.Prelude.{◌≡◌, List};
ghost use Rattle.vl_reads.specs.Reading.{OnlyWrites};
ghost use Rattle.vl_reads.specs.Sees.{Sees};
ghost use Rattle.vl_engine_model.specs.Store.Reading.{write_by};
ghost use Rattle.vl_engine_model.specs.Store.Things.{thing_of};
ghost use Rattle.vl_model.specs.History.{History};
ghost use Rattle.vl_model.specs.Reads.{Read};
ghost use Rattle.vl_replay_laws.specs.Replaying.{MakesStep, OnlyNoMemory};
ghost use Rattle.vl_replay.specs.Served.{ReadSurely, ServesFor};
ghost use Rattle.vl_script_model.specs.Sequential.{State};
ghost use Rattle.vl_replay_laws.specs.Standing.{change_of, write_answer};
ghost use Rattle.vl_txn.specs.Refusals.{IsWritten};

use crate::replayer::Served;
use vl_disk::{Disk, HeldFile, Reader};
use vl_engine::{SetFail, Txn};
use vl_model::Bytes;
use vl_replay_laws::{Thing, place};
use vl_script::{Answer, Ident};
use vl_script_model::Halt;

impl<D: Disk> Served<D> {
    /// Writes a value with its tag, or deletes the key where there is none.
    pub(super) fn write(
        &mut self,
        name: Ident,
        key: Bytes,
        value: Option<(Bytes, u8)>,
    ) -> Result<Answer, Halt>
        ensures makes { (s : State) → ServesFor D.Watched D.Held.bytes self.old s
            → MakesStep D.Held.bytes (D.told self.new.engine.disk) self.new.engine.core self.new.opens.items s
            (write_by s.store name key (change_of value) (thing_of s.store name)) result }
        ensures fails { OnlyNoMemory result }
        ensures sure { (s : State) → ServesFor D.Watched D.Held.bytes self.old s
            → ReadSurely D.Reader.faults self.old → ReadSurely D.Reader.faults self.new }
        ensures engine { self.new.engine ≡ self.old.engine }
    {
        let Some(at) = place(&self.opens, name.as_slice()) else {
            return Ok(Answer::Unknown { name });
        };
        match &mut self.opens[at].thing {
            Thing::View(_) => Ok(Answer::ReadOnly),
            Thing::Transaction(txn) => write_answer(change(txn, &key, value)),
        }
    }
}

// Writes a value with its tag in a transaction, or that there is none.
fn change<H: HeldFile, R: Reader<Held = H> + Drop>(
    txn: &mut Txn<H, R>,
    key: &Bytes,
    value: Option<(Bytes, u8)>,
) -> Result<(), SetFail>
    ensures written { IsWritten txn.old.writes key.now (change_of value) txn.new.writes result }
    ensures keeps { OnlyWrites txn.old txn.new }
    ensures sees { (h : History) (reads : List Read) → Sees H.bytes txn.old h reads → Sees H.bytes txn.new h reads }
{
    match value {
        Some((bytes, tag)) => txn.set_tagged(key.as_slice(), bytes.as_slice(), tag),
        None => txn.delete(key.as_slice()),
    }
}

// How a write is answered.
fn write_answer(written: Result<(), SetFail>) -> Result<Answer, Halt>
    ensures { result ≡ write_answer written }
{
    match written {
        Ok(()) => Ok(Answer::Done),
        Err(SetFail::EmptyKey | SetFail::KeyTooLong | SetFail::ValueTooLong) => Ok(Answer::Invalid),
        Err(SetFail::TooBig) => Ok(Answer::TooBig),
        Err(SetFail::NoMemory) => Err(Halt::NoMemory),
    }
}
