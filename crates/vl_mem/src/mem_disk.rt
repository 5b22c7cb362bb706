// A disk in memory. It has its files as they are now, and each call that left something, since it tells the
// images of past moments.
ghost use Rattle.std.specs.Prelude.{vec_capacity};
ghost use Rattle.vl_mem.specs.Kept.{IsKept};
ghost use Rattle.std.proofs.Props.{props};
ghost use Rattle.vl_mem.specs.Event.{sound_prop};

use crate::change_plan::ChangePlan;
use crate::entry::Entry;
use crate::event::{Event, make_room};
use crate::files_left::files_left;
use crate::found::found;
use crate::held::MemHeld;
use crate::mem_reader::MemReader;
use crate::mem_writer::MemWriter;
use crate::names::names_of;
use crate::outcome::Outcome;
use crate::read::read_bytes;
use std::alloc::Global;
use std::collections::BTreeMap;
use vl_disk::{
    Disk, DiskFail, Failed, FaultPlan, HeldFile, Name, NoMemory, Reader, Watched, Writer,
};

mod steps;

/// A disk in memory. It tells its bytes.
#[derive(Drop)]
pub struct MemDisk {
    alloc: Global,
    // of the changing calls
    changes: ChangePlan,
    // of the other calls that can fail
    reads: FaultPlan,
    // the calls at which a writer is to fail
    writers: Vec<u64>,
    entries: BTreeMap<Name, Entry, Global>,
    events: Vec<Event>,
    ghost kept: { IsKept entries events.items (vec_capacity events) } by { Prim.hlevel (props, sound_prop) },
}

impl MemDisk {
    ghost use Rattle.std.specs.Prelude.{◌≡◌, [], Some, IfOk, All};
    ghost use Rattle.std.specs.FinMap.{get};
    ghost use Rattle.std.specs.Option.{ForSome, option_copied, option_map};
    ghost use Rattle.vl_disk.specs.Crash.{MayLeave};
    ghost use Rattle.vl_disk.specs.DiskState.{empty_disk};
    ghost use Rattle.vl_disk.specs.FaultPlan.{new_plan};
    ghost use Rattle.vl_disk.specs.Name.{IsNumbered};
    ghost use Rattle.vl_disk.specs.Started.{Started};
    ghost use Rattle.vl_mem.specs.ChangePlan.{new_changes, stopping_after};
    ghost use Rattle.vl_mem.specs.CrashImage.{crash_image};
    ghost use Rattle.vl_mem.specs.Kept.{image_of};
    ghost use Rattle.vl_mem.specs.MemDisk.{state_of, told_by, moment_of, changes_of, reads_of, writers_of};
    ghost use Rattle.vl_mem.specs.MemDisk.{failing_at, KeepsFiles, KeepsWriters};
    ghost use Rattle.vl_mem.specs.Steady.{GivesSteady};
    ghost use Rattle.vl_disk.specs.declared.name.Name.{Name};

    /// An empty disk. Of its changing calls exactly those fail that `faults` lists, by their numbers from 1, and of its
    /// other calls that can fail those that `read_faults` lists.
    pub fn new(alloc: Global, faults: Vec<u64>, read_faults: Vec<u64>) -> Self
        ensures told { told_by result ≡ Some empty_disk }
        ensures moment { moment_of result ≡ 0 }
        ensures changes { changes_of result ≡ new_changes faults.items }
        ensures reads { reads_of result ≡ new_plan read_faults.items }
        ensures writers { writers_of result ≡ [] }
        ensures steady { read_faults.items ≡ [] → GivesSteady result }
    {
        MemDisk {
            alloc,
            changes: ChangePlan::new(faults),
            reads: FaultPlan::new(read_faults),
            writers: Vec::new(alloc),
            entries: BTreeMap::new(alloc),
            events: Vec::new(alloc),
        }
    }

    /// A disk that was just started: these files stand on it, whole and durable. Of files of one name the last counts.
    pub fn started(
        alloc: Global,
        files: Vec<(Name, Vec<u8>)>,
        faults: Vec<u64>,
        read_faults: Vec<u64>,
    ) -> Result<Self, NoMemory>
        requires { All (λ file. IsNumbered file.0) files.items }
        ensures started { IfOk result (λ disk. ForSome (told_by disk) (Started (image_of files.items))) }
        ensures changes { IfOk result (λ disk. changes_of disk ≡ new_changes faults.items) }
        ensures reads { IfOk result (λ disk. reads_of disk ≡ new_plan read_faults.items) }
        ensures writers { IfOk result (λ disk. writers_of disk ≡ []) }
        ensures steady { IfOk result (λ disk. read_faults.items ≡ [] → GivesSteady disk) }
    {
        let mut entries = BTreeMap::new(alloc);
        let mut events = Vec::new(alloc);
        for (name, bytes) in files {
            found(alloc, &mut entries, &mut events, name, bytes)?;
        }
        Ok(MemDisk {
            alloc,
            changes: ChangePlan::new(faults),
            reads: FaultPlan::new(read_faults),
            writers: Vec::new(alloc),
            entries,
            events,
        })
    }

    /// Lets so many changing calls pass, and fails each later one. It counts creates, appends, syncs, cuts and removes;
    /// those that are listed fail all the same. Of two stops the later one counts.
    pub fn stop_after(&mut self, calls: u64)
        ensures changes { changes_of self.new ≡ stopping_after calls (changes_of self.old) }
        ensures keeps { KeepsFiles self.old self.new }
        ensures writers { KeepsWriters self.old self.new }
    {
        self.changes.stop_after(calls);
    }

    /// Each writer whose name is made ready from now on fails at these of its calls, appends and syncs, numbered from 1.
    /// `stop_after` doesn't count them.
    pub fn fail_writers(&mut self, calls: Vec<u64>)
        ensures writers { writers_of self.new ≡ calls.items }
        ensures ready { (name : Name) → failing_at self.new name ≡ failing_at self.old name }
        ensures changes { changes_of self.new ≡ changes_of self.old }
        ensures keeps { KeepsFiles self.old self.new }
    {
        self.writers = calls;
    }

    /// A disk that was just started from what a crash of this one leaves. Its counts begin anew, and none of its calls is
    /// to fail. Where memory runs out, nothing is left of either.
    pub fn crash(self, outcome: Outcome) -> Result<MemDisk, NoMemory>
        ensures started { IfOk result (λ disk. Started (crash_image outcome (state_of self)) (state_of disk)) }
        ensures left { MayLeave (state_of self) (crash_image outcome (state_of self)) }
        ensures changes { IfOk result (λ disk. changes_of disk ≡ new_changes []) }
        ensures reads { IfOk result (λ disk. reads_of disk ≡ new_plan []) }
        ensures writers { IfOk result (λ disk. writers_of disk ≡ []) }
        ensures steady { IfOk result GivesSteady }
    {
        let MemDisk { alloc, entries, .. } = self;
        let files = files_left(alloc, entries, outcome)?;
        MemDisk::started(alloc, files, Vec::new(alloc), Vec::new(alloc))
    }

    /// The bytes of a file, if it stands.
    pub fn bytes(&self, name: Name) -> Option<&[u8]>
        ensures { ForSome (told_by self.now)
            (λ disk. option_copied result ≡ option_map (λ file. file.bytes) (get disk.standing name)) }
    {
        let entry = self.entries.get(&name)?;
        if entry.stands() {
            Some(&entry.bytes)
        } else {
            None
        }
    }
}

impl Watched for MemDisk {
    ghost use Rattle.std.specs.Prelude.{true};
    ghost use Rattle.vl_disk.specs.Started.{Started};
    ghost use Rattle.vl_mem.specs.Kept.{image_of};
    ghost use Rattle.vl_mem.specs.MemDisk.{told_by, moment_of, was_since, changes_of, faults_of, room_of};
    ghost use Rattle.vl_mem.specs.FailsPast.{FailsPast};
    ghost use Rattle.vl_mem.specs.Steady.{GivesSteady};

    ghost told = { told_by };

    ghost moment = { moment_of };

    ghost states_since = { was_since };

    ghost calls = { λ disk. (changes_of disk).listed.calls };

    ghost faults = { faults_of };

    ghost spare = { room_of };

    ghost fails_cleanly = { true };

    ghost fails_past = { FailsPast };

    ghost gives_steady = { GivesSteady };
}

impl Disk for MemDisk {
    type Held = MemHeld;

    type Reader = MemReader;

    type Writer = MemWriter;

    ghost use Rattle.std.specs.Prelude.{◌≡◌, ◌+◌, length, Some, OnOk, OnErr, IfOk, IsTrue, IsErr, IsErrOf, All};
    ghost use Rattle.std.specs.Option.{ForSome};
    ghost use Rattle.vl_disk.specs.Name.{IsNumbered};
    ghost use Rattle.vl_disk.specs.DiskState.{bytes_at, file_at, new_file};
    ghost use Rattle.vl_disk.specs.Lending.{IsJustMade, Lends, Adopts};
    ghost use Rattle.vl_disk.specs.Disk.{Stands, IsFree, IsInside, Lists};
    ghost use Rattle.vl_disk.specs.Calls.{ChangesNothing, Creates, Appends, Syncs, Cuts, Removes};
    ghost use Rattle.vl_disk.specs.FaultPlan.{new_plan};
    ghost use Rattle.vl_disk.specs.Spare.{IsReady, CanAppend, SameSpare, SameSpareElsewhere, UsesHold};
    ghost use Rattle.vl_mem.specs.Event.{told_lawful, counts_present, only_present};
    ghost use Rattle.vl_mem.specs.Held.{is_told};
    ghost use Rattle.vl_mem.specs.MemDisk.{state_of, told_by, room_of, changes_of, reads_of, reads_by, writers_of, failing_at};
    ghost use Rattle.vl_mem.specs.MemDisk.{writes_of, file_by, CountsChange, CountsRead, KeepsOtherWriters};
    ghost use Rattle.vl_mem.specs.MemDisk.{KeepsWriters};
    ghost use Rattle.vl_mem.specs.FailsPast.{counted_past};
    ghost use Rattle.vl_mem.specs.Steady.{GivesSteady};
    ghost use Rattle.vl_disk.specs.Faults.{IsNewCount};

    ghost lawful = { λ m. told_lawful m.events.items m.kept.sound };

    ghost counts_now = { λ m. counts_present m.events.items };

    ghost only_now = { λ m. only_present m.events.items };

    ghost counts_past = { counted_past };

    ghost alike = { λ one other none. is_told (state_of one) none };

    fn list(&mut self, alloc: Global) -> Result<Vec<Name>, DiskFail>
        ensures names { IfOk result (λ names. ForSome (told_by self.old) (Lists names.items)) }
        ensures numbered { IfOk result (λ names. All IsNumbered names.items) }
        ensures no_change { ChangesNothing ⟦<MemDisk as Watched>⟧ self.old self.new (IsErrOf result DiskFail.Failed) }
        ensures spare { SameSpare (room_of self.old) (room_of self.new) }
        ensures counts { CountsRead self.old self.new (IsErrOf result DiskFail.Failed) }
        ensures writers { KeepsWriters self.old self.new }
    {
        if self.reads.fails() {
            return Err(DiskFail::Failed);
        }
        Ok(names_of(alloc, &self.entries)?)
    }

    fn size(&mut self, name: Name) -> Result<u64, Failed>
        requires { ForSome (told_by self.old) (Stands name) }
        ensures size { IfOk result (λ size. ForSome (told_by self.old)
            (λ disk. size ≡ length (file_at disk name).bytes)) }
        ensures no_change { ChangesNothing ⟦<MemDisk as Watched>⟧ self.old self.new (IsErr result) }
        ensures spare { SameSpare (room_of self.old) (room_of self.new) }
        ensures counts { CountsRead self.old self.new (IsErr result) }
        ensures writers { KeepsWriters self.old self.new }
    {
        if self.reads.fails() {
            return Err(Failed);
        }
        Ok(self.entry(name).bytes.len() as u64)
    }

    fn read(&mut self, name: Name, place: u64, out: &mut [u8]) -> Result<(), Failed>
        requires stands { ForSome (told_by self.old) (Stands name) }
        requires inside { ForSome (told_by self.old) (IsInside name (place + length out.old)) }
        ensures bytes { OnOk result (ForSome (told_by self.old)
            (λ disk. out.new ≡ bytes_at place (length out.old) (file_at disk name).bytes)) }
        ensures no_change { ChangesNothing ⟦<MemDisk as Watched>⟧ self.old self.new (IsErr result) }
        ensures spare { SameSpare (room_of self.old) (room_of self.new) }

        // Where it fails, it reads nothing.
        ensures counts { CountsRead self.old self.new (IsErr result) }
        ensures writers { KeepsWriters self.old self.new }
        ensures nothing { OnErr result (out.new ≡ out.old) }
    {
        if self.reads.fails() {
            return Err(Failed);
        }
        read_bytes(&self.entry(name).bytes, place as usize, out);
        Ok(())
    }

    fn ready(&mut self, name: Name, bytes: u64) -> Result<(), NoMemory>
        ensures ready { OnOk result (IsReady bytes (room_of self.new name)) }
        ensures hold { OnOk result (IsTrue (room_of self.new name).hold) }
        ensures lend { OnOk result (IsTrue (room_of self.new name).lend) }
        ensures elsewhere { SameSpareElsewhere name (room_of self.old) (room_of self.new) }
        ensures refused { OnErr result (SameSpare (room_of self.old) (room_of self.new)) }
        ensures no_change { ChangesNothing ⟦<MemDisk as Watched>⟧ self.old self.new ⊥ }
        ensures changes { changes_of self.new ≡ changes_of self.old }
        ensures reads { reads_of self.new ≡ reads_of self.old }

        // A writer of this name fails at the calls that are listed now.
        ensures writers { OnOk result (failing_at self.new name ≡ writers_of self.old) }
        ensures other_writers { KeepsOtherWriters name self.old self.new }
        ensures refused_writers { OnErr result (KeepsWriters self.old self.new) }
    {
        self.know(name)?;
        make_room(&mut self.events, self.entries.len())?;
        let entry = self.entries.get_mut(&name).unwrap();
        entry.make_room(self.alloc, bytes as usize, &self.writers)
    }

    fn create(&mut self, name: Name) -> Result<(), Failed>
        requires numbered { IsNumbered name }
        requires free { ForSome (told_by self.old) (IsFree name) }
        requires room { IsTrue (room_of self.old name).change }
        ensures disk { Creates ⟦<MemDisk as Watched>⟧ name self.old self.new result }
        ensures counts { CountsChange self.old self.new (IsErr result) }
        ensures writers { KeepsWriters self.old self.new }
    {
        if self.changes.fails() {
            return Err(Failed);
        }
        self.make(name);
        Ok(())
    }

    fn append(&mut self, name: Name, piece: &[u8]) -> Result<(), Failed>
        requires stands { ForSome (told_by self.old) (Stands name) }
        requires room { CanAppend (length piece.now) (room_of self.old name) }
        ensures disk { Appends ⟦<MemDisk as Watched>⟧ name piece.now self.old self.new result }
        ensures counts { CountsChange self.old self.new (IsErr result) }
        ensures writers { KeepsWriters self.old self.new }
    {
        if self.changes.fails() {
            self.hand(name, piece, 0);
            return Err(Failed);
        }
        self.hand(name, piece, piece.len());
        Ok(())
    }

    fn sync(&mut self, name: Name) -> Result<(), Failed>
        requires { ForSome (told_by self.old) (Stands name) }
        ensures disk { Syncs ⟦<MemDisk as Watched>⟧ name self.old self.new result }
        ensures counts { CountsChange self.old self.new (IsErr result) }
        ensures writers { KeepsWriters self.old self.new }
    {
        if self.changes.fails() {
            return Err(Failed);
        }
        if self.entry(name).wholly_synced {
            return Ok(());
        }
        self.settle(name);
        Ok(())
    }

    fn cut(&mut self, name: Name, len: u64) -> Result<(), Failed>
        requires stands { ForSome (told_by self.old) (Stands name) }
        requires inside { ForSome (told_by self.old) (IsInside name len) }
        requires room { IsTrue (room_of self.old name).change }
        ensures disk { Cuts ⟦<MemDisk as Watched>⟧ name len self.old self.new result }
        ensures counts { CountsChange self.old self.new (IsErr result) }
        ensures writers { KeepsWriters self.old self.new }
    {
        if self.changes.fails() {
            let whole = self.entry(name).bytes.len();
            self.shorten(name, len as usize, whole);
            return Err(Failed);
        }
        self.shorten(name, len as usize, len as usize);
        Ok(())
    }

    fn remove(&mut self, name: Name) -> Result<(), Failed>
        requires { ForSome (told_by self.old) (Stands name) }
        ensures disk { Removes ⟦<MemDisk as Watched>⟧ name self.old self.new result }
        ensures counts { CountsChange self.old self.new (IsErr result) }
        ensures writers { KeepsWriters self.old self.new }
    {
        if self.changes.fails() {
            return Err(Failed);
        }
        self.take_away(name);
        Ok(())
    }

    fn hold(&mut self, name: Name) -> Result<MemHeld, DiskFail>
        requires { ForSome (told_by self.old) (Stands name) }
        ensures held { IfOk result (λ held. ForSome (told_by self.old)
            (λ disk. ⟦<MemHeld as HeldFile>⟧.bytes held ≡ Some (file_at disk name).bytes)) }
        ensures named { IfOk result (λ held. ⟦<MemHeld as HeldFile>⟧.named held ≡ name) }
        ensures no_change { ChangesNothing ⟦<MemDisk as Watched>⟧ self.old self.new (IsErrOf result DiskFail.Failed) }
        ensures memory { IsTrue (room_of self.old name).hold → IsErrOf result DiskFail.NoMemory → ⊥ }
        ensures spare { UsesHold name (room_of self.old) (room_of self.new) }
        ensures counts { CountsRead self.old self.new (IsErrOf result DiskFail.Failed) }
        ensures writers { KeepsWriters self.old self.new }
    {
        if self.reads.fails() {
            return Err(DiskFail::Failed);
        }
        let copy = self.share(name)?;
        Ok(MemHeld::new(self.alloc, name, copy))
    }

    #[tactic(auto, using(crate::specs::Steady::new_count))]
    fn lend(&mut self, name: Name) -> Result<MemWriter, Failed>
        requires just_made { ForSome (told_by self.old) (IsJustMade name) }
        requires room { IsTrue (room_of self.old name).lend }
        ensures lends { Lends ⟦<MemDisk as Watched>⟧ name self.old self.new (IsErr result) }
        ensures named { IfOk result (λ writer. ⟦<MemWriter as Writer>⟧.named writer ≡ name) }
        ensures file { IfOk result (λ writer. ForSome (told_by self.old)
            (λ _. ⟦<MemWriter as Writer>⟧.file writer ≡ Some new_file)) }
        ensures faults { IfOk result (λ writer. IsNewCount (GivesSteady self.old) (⟦<MemWriter as Writer>⟧.faults writer)) }
        ensures counts { CountsRead self.old self.new (IsErr result) }
        ensures writers { OnErr result (KeepsWriters self.old self.new) }
        ensures other_writers { KeepsOtherWriters name self.old self.new }

        // Of its calls those fail that were listed when the name was made ready.
        ensures plan { IfOk result (λ writer. writes_of writer ≡ new_plan (failing_at self.old name)) }
    {
        if self.reads.fails() {
            return Err(Failed);
        }
        let failing = self.give(name);
        Ok(MemWriter::new(self.alloc, name, failing))
    }

    fn adopt(&mut self, writer: MemWriter)
        requires free { ForSome (told_by self.old) (IsFree (⟦<MemWriter as Writer>⟧.named writer)) }
        requires room { IsTrue (room_of self.old (⟦<MemWriter as Writer>⟧.named writer)).adopt }
        ensures disk { Adopts ⟦<MemDisk as Watched>⟧ (⟦<MemWriter as Writer>⟧.named writer) (file_by writer) self.old self.new }
        ensures changes { changes_of self.new ≡ changes_of self.old }
        ensures reads { reads_of self.new ≡ reads_of self.old }
        ensures writers { KeepsWriters self.old self.new }
    {
        self.take_back(writer.into_returned());
    }

    #[tactic(auto, using(crate::specs::Steady::new_count))]
    fn reader(&self, alloc: Global) -> Result<MemReader, NoMemory>
        ensures faults { IfOk result (λ reader. IsNewCount (GivesSteady self.now) (⟦<MemReader as Reader>⟧.faults reader)) }

        // Of its reads those fail that are listed for the disk's calls, counted anew.
        ensures plan { IfOk result (λ reader. reads_by reader ≡ new_plan (reads_of self.now).failing) }
    {
        Ok(MemReader::new(self.reads.again(alloc)?))
    }
}
