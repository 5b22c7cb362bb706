//! Writes what was changed since a commit, as a view sees it.

ghost use Rattle.std.specs.Prelude.{◌≡◌, ◌≢◌, ℕ, Err, IfOk};
ghost use Rattle.vl_backup.specs.Backing.{BackupFailed, FailsBy, IsAnsweredSince, IsRefused, PutStream};
ghost use Rattle.vl_backup.specs.declared.fails.BackupFail.TheVariants as fails;
ghost use Rattle.vl_disk.specs.Faults.{HasCause};
ghost use Rattle.vl_disk.specs.declared.name.Name.{Name};
ghost use Rattle.vl_engine_model.specs.Changes.{change_to, changes};
ghost use Rattle.vl_model.specs.History.{History};
ghost use Rattle.vl_reads.specs.Changes.{MayTellSince, TellsChanges};
ghost use Rattle.vl_reads.specs.Reading.{OnlyReads};
ghost use Rattle.vl_reads.specs.Sees.{SeesAlone};
ghost use Rattle.vl_version.specs.Changes.{AreReadSince, IsChangeFault};

use crate::fails::BackupFail;
use std::alloc::Global;
use vl_disk::{HeldFile, Reader};
use vl_io::Sink;
use vl_model::{Change, Value};
use vl_reads::View;
use vl_stream::Packer;

/// Puts the stream of what was changed since a commit up to the last one that the view sees: of each key its newest version, if
/// that is above `since`; since 0 all that stands. Gives how many records it has. Whatever is committed meanwhile isn't in it.
/// In memory are a block of each source, one batch with its frame, and the record behind it.
pub fn backup<H: HeldFile, R: Reader<Held = H> + Drop, K: Sink>(
    alloc: Global,
    view: &mut View<H, R>,
    since: u64,
    sink: &mut K,
) -> Result<u64, BackupFail>
    // It wrote exactly the stream of what the history that the view tells of changed.
    ensures stream { (h : History) → TellsChanges H.bytes view.old h → IfOk result
        (PutStream since view.old.number (changes h since view.old.number) (K.held sink.old) (K.held sink.new)) }

    // It is refused by its number exactly where the view may not tell since then, and then the sink isn't asked.
    ensures answered { IsAnsweredSince view.old.number view.old.past.gone since result }
    ensures refused { IsRefused result → sink.new ≡ sink.old }

    // A fault is the reader's or the sink's, and nothing else raises their counts. It is of a table that has something newer
    // than that number, or of a log; what a view tells of is never damaged.
    ensures read { HasCause (R.faults view.old.reader.reader) (R.faults view.new.reader.reader) (BackupFailed result) }
    ensures put { HasCause (K.faults sink.old) (K.faults sink.new) (result ≡ Err fails.Write) }
    ensures fault { FailsBy (IsChangeFault H.bytes view.old.version since) result }
    ensures sound { (h : History) (name : Name) (place : ℕ) → TellsChanges H.bytes view.old h
        → result ≢ Err (fails.Damaged name place) }

    // Also if the tables aren't true it is given only where all blocks of the tables that have something newer stand.
    ensures whole { IfOk result (λ _. AreReadSince H.bytes since view.old.version.behind.levels) }

    // The view sees what it saw.
    ensures keeps { OnlyReads view.old view.new }
    ensures still { (h : History) → SeesAlone H.bytes view.old h → SeesAlone H.bytes view.new h }
{
    let number = view.number();
    if since > number {
        return Err(BackupFail::Ahead { number });
    }
    let gone = view.gone();
    if since > 0 && since < gone {
        return Err(BackupFail::TooOld { gone });
    }
    send(alloc, view, since, sink)
}

// Puts the stream of a view that may tell since this number.
fn send<H: HeldFile, R: Reader<Held = H> + Drop, K: Sink>(
    alloc: Global,
    view: &mut View<H, R>,
    since: u64,
    sink: &mut K,
) -> Result<u64, BackupFail>
    ensures stream { (h : History) → TellsChanges H.bytes view.old h → MayTellSince view.old.past view.old.number since
        → IfOk result (PutStream since view.old.number (changes h since view.old.number) (K.held sink.old) (K.held sink.new)) }
    ensures sent { IsRefused result → ⊥ }
    ensures read { HasCause (R.faults view.old.reader.reader) (R.faults view.new.reader.reader) (BackupFailed result) }
    ensures put { HasCause (K.faults sink.old) (K.faults sink.new) (result ≡ Err fails.Write) }
    ensures fault { FailsBy (IsChangeFault H.bytes view.old.version since) result }
    ensures sound { (h : History) (name : Name) (place : ℕ) → TellsChanges H.bytes view.old h
        → MayTellSince view.old.past view.old.number since → result ≢ Err (fails.Damaged name place) }
    ensures whole { IfOk result (λ _. AreReadSince H.bytes since view.old.version.behind.levels) }
    ensures keeps { OnlyReads view.old view.new }
    ensures still { (h : History) → SeesAlone H.bytes view.old h → SeesAlone H.bytes view.new h }
{
    let mut packer = Packer::begin(alloc, since, sink)?;
    let mut changes = view.changes(since)?;
    while let Some((key, value)) = view.next_change(&mut changes)? {
        packer.add(sink, key, change_to(value))?;
    }
    Ok(packer.end(sink, view.number())?)
}

// What makes a key have this value, or none.
fn change_to(value: Option<Value>) -> Change
    ensures { result ≡ change_to value }
{
    match value {
        Some(value) => Change::Set(value),
        None => Change::Delete,
    }
}
