// What the calls of a disk in memory do, where they don't fail.
ghost use Rattle.std.specs.Prelude.{◌≡◌, ◌≤◌, [], Some, false, IsTrue, IsSome, IsOk, OnOk, IfOk, length, vec_capacity};
ghost use Rattle.std.specs.Option.{ForSome};
ghost use Rattle.vl_disk.specs.DiskState.{created, appended, synced, cut_to, without, file_at};
ghost use Rattle.vl_disk.specs.Disk.{Stands};
ghost use Rattle.vl_disk.specs.Name.{IsNumbered};
ghost use Rattle.vl_disk.specs.Spare.{CanAppend, SameSpare, UsesChange, UsesAppend, UsesHold, UsesLend, UsesAdopt};
ghost use Rattle.vl_disk.specs.Lending.{adopted};
ghost use Rattle.vl_mem.specs.Entry.{entry_of};
ghost use Rattle.vl_mem.specs.MemDisk.{told_by, room_of, failing_at, Goes, KeepsOtherWriters, KeepsWriters, Stays};
ghost use Rattle.vl_mem.specs.Written.{IsReady, file_written};

use super::MemDisk;
use crate::entry::Entry;
use crate::event::{Event, note};
use crate::mem_writer::Returned;
use vl_disk::{Name, NoMemory};

impl MemDisk {
    // The entry of a file that stands.
    pub(super) fn entry(&self, name: Name) -> &Entry
        requires { ForSome (told_by self.now) (Stands name) }
        ensures { entry_of self.now.entries name ≡ Some result.now }
    {
        self.entries.get(&name).unwrap()
    }

    // An empty file is made.
    pub(super) fn make(&mut self, name: Name)
        requires numbered { IsNumbered name }
        requires room { IsTrue (room_of self.old name).change }
        ensures goes { Goes self.old self.new (created name) }
        ensures writers { KeepsWriters self.old self.new }
        ensures spare { UsesChange name (room_of self.old) (room_of self.new) }
    {
        let entry = self.entries.get_mut(&name).unwrap();
        entry.create();
        note(&mut self.events, Event::Create(name));
    }

    // A piece is handed over, and the file takes so many bytes of it.
    pub(super) fn hand(&mut self, name: Name, piece: &[u8], taken: usize)
        requires stands { ForSome (told_by self.old) (Stands name) }
        requires room { CanAppend (length piece.now) (room_of self.old name) }
        requires part { taken ≤ length piece.now }
        ensures goes { Goes self.old self.new (appended name piece.now taken) }
        ensures writers { KeepsWriters self.old self.new }
        ensures spare { UsesAppend name (room_of self.old) (room_of self.new) }
    {
        let entry = self.entries.get_mut(&name).unwrap();
        let kept = entry.append(piece, taken);
        note(&mut self.events, Event::Append(name, kept, taken));
    }

    // A file that isn't wholly synced is made durable.
    pub(super) fn settle(&mut self, name: Name)
        requires stands { ForSome (told_by self.old) (Stands name) }
        requires torn { ForSome (told_by self.old) (λ disk. (file_at disk name).wholly_synced ≡ false) }
        ensures goes { Goes self.old self.new (synced name) }
        ensures writers { KeepsWriters self.old self.new }
        ensures spare { SameSpare (room_of self.old) (room_of self.new) }
    {
        let entry = self.entries.get_mut(&name).unwrap();
        entry.sync();
        note(&mut self.events, Event::Sync(name));
    }

    // A file was to be cut to a length, and so many bytes of it are left.
    pub(super) fn shorten(&mut self, name: Name, len: usize, left: usize)
        requires stands { ForSome (told_by self.old) (Stands name) }
        requires room { IsTrue (room_of self.old name).change }
        requires short { len ≤ left }
        ensures goes { Goes self.old self.new (cut_to name len left) }
        ensures writers { KeepsWriters self.old self.new }
        ensures spare { UsesChange name (room_of self.old) (room_of self.new) }
    {
        let entry = self.entries.get_mut(&name).unwrap();
        entry.cut(len, left);
        note(&mut self.events, Event::Cut(name, len, left));
    }

    // A file is removed.
    pub(super) fn take_away(&mut self, name: Name)
        requires { ForSome (told_by self.old) (Stands name) }
        ensures goes { Goes self.old self.new (without name) }
        ensures writers { KeepsWriters self.old self.new }
        ensures spare { SameSpare (room_of self.old) (room_of self.new) }
    {
        let entry = self.entries.get_mut(&name).unwrap();
        entry.remove();
        note(&mut self.events, Event::Remove(name));
    }

    // A file that was just made goes to a writer, which is to fail at the calls that are given.
    pub(super) fn give(&mut self, name: Name) -> Vec<u64>
        requires stands { ForSome (told_by self.old) (Stands name) }
        requires room { IsTrue (room_of self.old name).lend }
        ensures failing { result.items ≡ failing_at self.old name }
        ensures none_left { failing_at self.new name ≡ [] }
        ensures goes { Goes self.old self.new (without name) }
        ensures writers { KeepsOtherWriters name self.old self.new }
        ensures spare { UsesLend name (room_of self.old) (room_of self.new) }
    {
        let entry = self.entries.get_mut(&name).unwrap();
        let failing = entry.lend(self.alloc);
        note(&mut self.events, Event::Remove(name));
        failing
    }

    // A file comes back from its writer.
    pub(super) fn take_back(&mut self, file: Returned)
        requires room { IsTrue (room_of self.old file.name).adopt }
        requires ready { IsReady file.name file.written file.bytes file.copy }
        ensures goes { Goes self.old self.new (adopted file.name (file_written file.written)) }
        ensures writers { KeepsWriters self.old self.new }
        ensures spare { UsesAdopt file.name (room_of self.old) (room_of self.new) }
    {
        let Returned {
            name,
            written,
            bytes,
            copy,
        } = file;
        let entry = self.entries.get_mut(&name).unwrap();
        entry.adopt(bytes, copy, &written);
        note(&mut self.events, Event::Adopt(name, written));
    }

    // A name that has no entry gets one.
    pub(super) fn know(&mut self, name: Name) -> Result<(), NoMemory>
        ensures known { OnOk result (IsSome (entry_of self.new.entries name)) }
        ensures stays { Stays self.old self.new }
        ensures writers { KeepsWriters self.old self.new }
        ensures spare { SameSpare (room_of self.old) (room_of self.new) }
        ensures room { vec_capacity self.new.events ≡ vec_capacity self.old.events }
    {
        if self.entries.contains_key(&name) {
            return Ok(());
        }
        match self.entries.insert(name, Entry::blank(self.alloc)) {
            Ok(_) => Ok(()),
            Err(_) => Err(NoMemory),
        }
    }

    // A copy of a file, in the room that was made for it, or that is made where there is none.
    pub(super) fn share(&mut self, name: Name) -> Result<Vec<u8>, NoMemory>
        requires { ForSome (told_by self.old) (Stands name) }
        ensures copied { IfOk result (λ copy. ForSome (told_by self.old)
            (λ disk. copy.items ≡ (file_at disk name).bytes)) }
        ensures has_room { IsTrue (room_of self.old name).hold → IsOk result }
        ensures stays { Stays self.old self.new }
        ensures writers { KeepsWriters self.old self.new }
        ensures spare { UsesHold name (room_of self.old) (room_of self.new) }
    {
        let entry = self.entries.get_mut(&name).unwrap();
        entry.make_hold_room()?;
        Ok(entry.share(self.alloc))
    }
}
