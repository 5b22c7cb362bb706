//! Loads a stream: one commit for each of its batches.

ghost use Rattle.std.specs.Prelude.{◌≡◌, Err, List, OnOk};
ghost use Rattle.std.specs.FinMap.{insert};
ghost use Rattle.vl_stream.specs.Batches.{Write};
ghost use Rattle.vl_backup.specs.Loading.{CommitsBatch, IsFullFor, IsOfBatch, IsReady, LoadFailed, Loads, Works};
ghost use Rattle.vl_backup.specs.Loading.{commit_fail, given_up, parts, sealed_for};
ghost use Rattle.vl_backup.specs.Written.{written_all};
ghost use Rattle.vl_stream.specs.Pieces.{AreChanges};
ghost use Rattle.vl_backup.specs.declared.fails.LoadFail.TheVariants as fails;
ghost use Rattle.vl_disk.specs.Faults.{HasCause};
ghost use Rattle.vl_engine_model.specs.Ruling.{ended};
ghost use Rattle.vl_engine_model.specs.Rulings.Rotate.{rotated};
ghost use Rattle.vl_engine_model.specs.declared.layout.Layout.{Layout};
ghost use Rattle.vl_model.specs.History.{History};
ghost use Rattle.vl_reads.specs.Reading.{OnlyWrites};

use crate::fails::LoadFail;
use std::alloc::Global;
use vl_cache::Cached;
use vl_disk::{Disk, HeldFile, Reader};
use vl_engine::{CommitFail, Engine, SetFail, Txn};
use vl_io::Source;
use vl_model::{Change, Counter, Key};
use vl_seglog::LOG_HEADER_BYTES;
use vl_stream::StreamReader;

/// Reads a stream to its end, and makes each of its batches a commit, in their order; a log that has no room for the next one
/// is sealed first. Gives how many records there were. After a refusal the batches before it are commits. One batch is in
/// memory at a time.
pub fn load<D: Disk, S: Source>(
    alloc: Global,
    engine: &mut Engine<D>,
    source: &mut S,
) -> Result<u64, LoadFail>
    // It read the source to its end, and the engine has gone on to the history and the layout with the stream's batches; or it
    // was refused by this and with these of them. What a crash meanwhile leaves shows the history with a front of them.
    ensures loads { Loads D.Watched D.Held.bytes (S.left source.old) (S.left source.new) (parts engine.old.core engine.old.disk)
        (parts engine.new.core engine.new.disk) result }

    // A fault is the disk's or the source's, and nothing else raises their counts.
    ensures cause { HasCause (D.faults engine.old.disk) (D.faults engine.new.disk) (LoadFailed result) }
    ensures read { HasCause (S.faults source.old) (S.faults source.new) (result ≡ Err fails.Read) }

    // The merge and the pass that are open stay so. A disk of which nothing that it gives ever fails stays such.
    ensures merging { engine.new.merging ≡ engine.old.merging }
    ensures passing { engine.new.collecting.passing ≡ engine.old.collecting.passing }
    ensures steady { D.gives_steady engine.old.disk → D.gives_steady engine.new.disk }
{
    let mut reader = StreamReader::begin(alloc, source)?;
    while let Some(batch) = reader.next(source)? {
        commit_batch(engine, &batch.records)?;
    }
    Ok(reader.records())
}

// Makes the records of a batch the next commit.
fn commit_batch<D: Disk>(engine: &mut Engine<D>, records: &[(Key, Change)]) -> Result<(), LoadFail>
    ensures commits { (h : History) (l : Layout) → AreChanges records.now
        → Works D.Watched D.Held.bytes (parts engine.old.core engine.old.disk) h l
        → CommitsBatch D.Watched D.Held.bytes (parts engine.old.core engine.old.disk) (parts engine.new.core engine.new.disk) h
        l (sealed_for h records.now l) records.now result }
    ensures cause { HasCause (D.faults engine.old.disk) (D.faults engine.new.disk) (LoadFailed result) }
    ensures of_batch { IsOfBatch result }
    ensures merging { engine.new.merging ≡ engine.old.merging }
    ensures passing { engine.new.collecting.passing ≡ engine.old.collecting.passing }
    ensures steady { D.gives_steady engine.old.disk → D.gives_steady engine.new.disk }
{
    let mut txn = engine.begin()?;
    let Ok(()) = write_all(&mut txn, records) else {
        engine.forget(txn);
        return Err(LoadFail::NoMemory);
    };
    commit_written(engine, txn)
}

// Writes the records of a batch. What the limits allow is refused for want of memory alone.
fn write_all<H: HeldFile, R: Reader<Held = H> + Drop>(
    txn: &mut Txn<H, R>,
    records: &[(Key, Change)],
) -> Result<(), SetFail>
    ensures written { OnOk result (txn.new.writes ≡ written_all txn.old.writes records.now) }
    ensures keeps { OnlyWrites txn.old txn.new }
{
    for (key, change) in records {
        write_change(txn, key, change)?;
    }
    Ok(())
}

fn write_change<H: HeldFile, R: Reader<Held = H> + Drop>(
    txn: &mut Txn<H, R>,
    key: &Key,
    change: &Change,
) -> Result<(), SetFail>
    ensures written { OnOk result (txn.new.writes ≡ insert txn.old.writes key.now change.now) }
    ensures keeps { OnlyWrites txn.old txn.new }
{
    match change {
        Change::Set(value) => txn.set_tagged(key.as_slice(), value.as_slice(), value.tag),
        Change::Delete => txn.delete(key.as_slice()),
    }
}

// Commits what a transaction has written. Where the log has no room for it, and isn't empty, it is sealed first.
fn commit_written<D: Disk>(
    engine: &mut Engine<D>,
    txn: Txn<D::Held, Cached<D::Reader>>,
) -> Result<(), LoadFail>
    ensures commits { (h : History) (l : Layout) (batch : List Write)
        → Works D.Watched D.Held.bytes (parts engine.old.core engine.old.disk) h l → IsReady txn l batch
        → CommitsBatch D.Watched D.Held.bytes (parts engine.old.core engine.old.disk) (parts engine.new.core engine.new.disk) h
        (ended txn.ticket l) (sealed_for h batch (ended txn.ticket l)) batch result }
    ensures cause { HasCause (D.faults engine.old.disk) (D.faults engine.new.disk) (LoadFailed result) }
    ensures of_batch { IsOfBatch result }
    ensures merging { engine.new.merging ≡ engine.old.merging }
    ensures passing { engine.new.collecting.passing ≡ engine.old.collecting.passing }
    ensures steady { D.gives_steady engine.old.disk → D.gives_steady engine.new.disk }
{
    match engine.commit(txn) {
        Ok(_) => Ok(()),
        Err(why) => match why {
            CommitFail::Full { txn, length, frame } => commit_full(engine, txn, length, frame),
            other => Err(refused(engine, other)),
        },
    }
}

// Commits behind a log that has this length, and no room for the frame.
fn commit_full<D: Disk>(
    engine: &mut Engine<D>,
    txn: Txn<D::Held, Cached<D::Reader>>,
    length: u64,
    frame: u64,
) -> Result<(), LoadFail>
    ensures commits { (h : History) (l : Layout) (batch : List Write)
        → Works D.Watched D.Held.bytes (parts engine.old.core engine.old.disk) h l → IsReady txn l batch
        → IsFullFor l h batch length frame
        → CommitsBatch D.Watched D.Held.bytes (parts engine.old.core engine.old.disk) (parts engine.new.core engine.new.disk) h
        (ended txn.ticket l) (rotated (ended txn.ticket l)) batch result }
    ensures cause { HasCause (D.faults engine.old.disk) (D.faults engine.new.disk) (LoadFailed result) }
    ensures of_batch { IsOfBatch result }
    ensures merging { engine.new.merging ≡ engine.old.merging }
    ensures passing { engine.new.collecting.passing ≡ engine.old.collecting.passing }
    ensures steady { D.gives_steady engine.old.disk → D.gives_steady engine.new.disk }
{
    if length <= LOG_HEADER_BYTES as u64 {
        engine.forget(txn);
        return Err(LoadFail::Full { length, frame });
    }
    match engine.rotate() {
        Ok(_) => commit_first(engine, txn),
        Err(why) => {
            engine.forget(txn);
            Err(why.into())
        }
    }
}

// Commits to a log in which nothing stands yet.
fn commit_first<D: Disk>(
    engine: &mut Engine<D>,
    txn: Txn<D::Held, Cached<D::Reader>>,
) -> Result<(), LoadFail>
    ensures commits { (h : History) (l : Layout) (batch : List Write)
        → Works D.Watched D.Held.bytes (parts engine.old.core engine.old.disk) h l → IsReady txn l batch → l.active.length ≡ 16
        → CommitsBatch D.Watched D.Held.bytes (parts engine.old.core engine.old.disk) (parts engine.new.core engine.new.disk) h
        (ended txn.ticket l) (ended txn.ticket l) batch result }
    ensures cause { HasCause (D.faults engine.old.disk) (D.faults engine.new.disk) (LoadFailed result) }
    ensures of_batch { IsOfBatch result }
    ensures merging { engine.new.merging ≡ engine.old.merging }
    ensures passing { engine.new.collecting.passing ≡ engine.old.collecting.passing }
    ensures steady { D.gives_steady engine.old.disk → D.gives_steady engine.new.disk }
{
    match engine.commit(txn) {
        Ok(_) => Ok(()),
        Err(why) => Err(refused(engine, why)),
    }
}

// Gives up what a refused commit handed back, and says why the batch was refused. A conflict can't be: nothing was read.
fn refused<D: Disk>(engine: &mut Engine<D>, why: CommitFail<D::Held, Cached<D::Reader>>) -> LoadFail
    ensures says { result ≡ commit_fail why }
    ensures works { (h : History) (l : Layout) → Works D.Watched D.Held.bytes (parts engine.old.core engine.old.disk) h l
        → Works D.Watched D.Held.bytes (parts engine.new.core engine.new.disk) h (given_up why l) }
    ensures disk { engine.new.disk ≡ engine.old.disk }
    ensures merging { engine.new.merging ≡ engine.old.merging }
    ensures collecting { engine.new.collecting ≡ engine.old.collecting }
{
    match why {
        CommitFail::Halted { name } => LoadFail::Halted { name },
        CommitFail::Disk { name } => LoadFail::Disk { name },
        CommitFail::Conflict { .. } => LoadFail::NoMemory,
        CommitFail::Exhausted(txn) => {
            engine.forget(txn);
            LoadFail::Exhausted(Counter::Commit)
        }
        CommitFail::Full { txn, length, frame } => {
            engine.forget(txn);
            LoadFail::Full { length, frame }
        }
        CommitFail::NoMemory(txn) => {
            engine.forget(txn);
            LoadFail::NoMemory
        }
    }
}
