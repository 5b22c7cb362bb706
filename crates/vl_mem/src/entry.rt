// What a disk in memory keeps under one name.
ghost use Rattle.std.specs.Prelude.{◌≡◌, ◌≤◌, [], length, Some, Ok, true, false, OnOk, OnErr};

use crate::outcome::Outcome;
use crate::written::Written;
use std::alloc::Global;
use std::mem;
use vl_disk::NoMemory;

/// Whether the file of a name stands.
#[derive(Clone, Copy)]
pub enum Presence {
    /// None was there since the disk was started.
    Absent,
    Standing,
    Removed,
    /// A writer has it. It is empty to the disk, as it was when it was lent.
    Lent,
}

#[derive(Drop)]
pub struct Entry {
    pub presence: Presence,
    pub bytes: Vec<u8>,
    /// So many of the bytes are durable.
    pub synced: usize,
    /// Nothing was asked for since the last sync that passed.
    pub wholly_synced: bool,
    /// It was synced once, or stood when the disk was started.
    pub lasting: bool,
    /// There is room for a create or a cut.
    pub change: bool,
    /// There is room for a lend and the adopt after it.
    pub lend: bool,
    /// The calls at which the writer is to fail.
    pub failing: Vec<u64>,
    /// Room for the next piece. `bytes` has as much room behind its end.
    pub buffer: Option<Vec<u8>>,
    /// There is room in `copy` for a copy of the file, with the next piece.
    pub hold: bool,
    pub copy: Vec<u8>,
}

impl Entry {
    ghost use Rattle.vl_disk.specs.Spare.{CanAppend, IsReady};
    ghost use Rattle.vl_disk.specs.DiskState.{new_file, settled, synced_file, lengthened, shortened};
    ghost use Rattle.vl_mem.specs.declared.entry.Presence.TheVariants.{Standing, Removed, Lent};
    ghost use Rattle.vl_mem.specs.Written.{IsDoubled, file_written};
    ghost use Rattle.std.specs.Option.{option_map};
    ghost use Rattle.vl_mem.specs.CrashImage.{left_of};
    ghost use Rattle.vl_mem.specs.Entry.{Fits, IsBlank, Becomes, KeepsFile, file_of, is_standing, plain, removed_in};
    ghost use Rattle.vl_mem.specs.Entry.{slots, spare_of, standing_in};

    /// An entry of a name of which nothing is known.
    pub fn blank(alloc: Global) -> Self
        ensures { IsBlank result }
    {
        Entry {
            presence: Presence::Absent,
            bytes: Vec::new(alloc),
            synced: 0,
            wholly_synced: true,
            lasting: false,
            change: false,
            lend: false,
            failing: Vec::new(alloc),
            buffer: None,
            hold: false,
            copy: Vec::new(alloc),
        }
    }

    /// An entry of a file that stood when the disk was started.
    pub fn found(alloc: Global, bytes: Vec<u8>) -> Self
        ensures presence { result.presence ≡ Standing }
        ensures failing { result.failing.items ≡ [] }
        ensures file { file_of result ≡ settled bytes.items }
        ensures fits { Fits result }
        ensures slots { slots result ≡ 1 }
    {
        Entry {
            presence: Presence::Standing,
            synced: bytes.len(),
            bytes,
            wholly_synced: true,
            lasting: true,
            change: false,
            lend: false,
            failing: Vec::new(alloc),
            buffer: None,
            hold: false,
            copy: Vec::new(alloc),
        }
    }

    /// Whether the file of this name stands.
    pub fn stands(&self) -> bool
        ensures { result ≡ is_standing self.now.presence }
    {
        match self.presence {
            Presence::Standing => true,
            _ => false,
        }
    }

    /// Makes room for a create or a cut, for an append of so many bytes, for a hold, and for a lend to a writer that is to
    /// fail at the calls that are listed.
    pub fn make_room(
        &mut self,
        alloc: Global,
        bytes: usize,
        failing: &[u64],
    ) -> Result<(), NoMemory>
        ensures ready { OnOk result (IsReady bytes (spare_of (Some self.new))) }
        ensures hold { OnOk result (self.new.hold ≡ true) }
        ensures lend { OnOk result (self.new.lend ≡ true) }
        ensures failing { OnOk result (self.new.failing.items ≡ failing.now) }
        ensures refused { OnErr result (spare_of (Some self.new) ≡ spare_of (Some self.old)) }
        ensures not_failing { OnErr result (self.new.failing ≡ self.old.failing) }
        ensures keeps { KeepsFile self.old self.new }
    {
        let Ok(buffer) = Vec::with_capacity(alloc, bytes) else {
            return Err(NoMemory);
        };
        if self.bytes.reserve(buffer.capacity()).is_err() {
            return Err(NoMemory);
        }
        if self.copy.reserve(self.bytes.capacity()).is_err() {
            return Err(NoMemory);
        }
        let Ok(failing) = Vec::from_slice(alloc, failing) else {
            return Err(NoMemory);
        };
        self.failing = failing;
        self.buffer = Some(buffer);
        self.hold = true;
        self.change = true;
        self.lend = true;
        Ok(())
    }

    /// Makes room for a hold, where there is none.
    pub fn make_hold_room(&mut self) -> Result<(), NoMemory>
        ensures hold { OnOk result (self.new.hold ≡ true) }
        ensures has_room { self.old.hold ≡ true → result ≡ Ok tt }
        ensures failing { self.new.failing ≡ self.old.failing }
        ensures keeps { KeepsFile self.old self.new }
        ensures slots { slots self.new ≤ slots self.old }
        ensures change { self.new.change ≡ self.old.change }
        ensures buffer { self.new.buffer ≡ self.old.buffer }
        ensures lend { self.new.lend ≡ self.old.lend }
    {
        if !self.hold {
            if self.copy.reserve(self.bytes.capacity()).is_err() {
                return Err(NoMemory);
            }
            self.hold = true;
        }
        Ok(())
    }

    /// The file stands, and is empty.
    pub fn create(&mut self)
        requires { self.old.change ≡ true }
        ensures becomes { Becomes self.old self.new Standing new_file }
        ensures failing { self.new.failing ≡ self.old.failing }
        ensures buffer { self.new.buffer ≡ self.old.buffer }
        ensures hold { self.new.hold ≡ self.old.hold }
        ensures lend { self.new.lend ≡ self.old.lend }
    {
        self.presence = Presence::Standing;
        self.bytes.clear();
        self.synced = 0;
        self.wholly_synced = false;
        self.lasting = false;
        self.change = false;
    }

    /// Gives back the piece in the room that was made for it. The file takes so many bytes of it.
    pub fn append(&mut self, piece: &[u8], taken: usize) -> Vec<u8>
        requires room { CanAppend (length piece.now) (spare_of (Some self.old)) }
        requires part { taken ≤ length piece.now }
        requires fits { Fits self.old }
        ensures piece { result.items ≡ piece.now }
        ensures failing { self.new.failing ≡ self.old.failing }
        ensures becomes { Becomes self.old self.new self.old.presence
            (plain (lengthened result.items taken (file_of self.old))) }
        ensures change { self.new.change ≡ self.old.change }
        ensures hold { self.new.hold ≡ self.old.hold }
        ensures lend { self.new.lend ≡ self.old.lend }
    {
        let mut buffer = self.buffer.take().unwrap();
        let _ = buffer.extend_from_slice(piece);
        let _ = self.bytes.extend_from_slice(&piece[..taken]);
        self.wholly_synced = false;
        buffer
    }

    /// What was asked for is durable.
    pub fn sync(&mut self)
        requires { self.old.wholly_synced ≡ false }
        ensures becomes { Becomes self.old self.new self.old.presence (synced_file (file_of self.old)) }
        ensures failing { self.new.failing ≡ self.old.failing }
        ensures spare { spare_of (Some self.new) ≡ spare_of (Some self.old) }
    {
        self.synced = self.bytes.len();
        self.wholly_synced = true;
        self.lasting = true;
    }

    /// The file was to be cut to a length, and so many bytes of it are left.
    pub fn cut(&mut self, len: usize, left: usize)
        requires { self.old.change ≡ true }
        ensures becomes { Becomes self.old self.new self.old.presence (shortened len left (file_of self.old)) }
        ensures failing { self.new.failing ≡ self.old.failing }
        ensures buffer { self.new.buffer ≡ self.old.buffer }
        ensures hold { self.new.hold ≡ self.old.hold }
        ensures lend { self.new.lend ≡ self.old.lend }
    {
        self.bytes.truncate(left);
        self.synced = len.min(self.synced);
        self.wholly_synced = false;
        self.change = false;
    }

    /// The file doesn't stand any more.
    pub fn remove(&mut self)
        requires { self.old.presence ≡ Standing }
        ensures becomes { Becomes self.old self.new Removed (file_of self.old) }
        ensures failing { self.new.failing ≡ self.old.failing }
        ensures spare { spare_of (Some self.new) ≡ spare_of (Some self.old) }
    {
        self.presence = Presence::Removed;
    }

    /// The file goes to a writer, which is to fail at the calls that it gives.
    pub fn lend(&mut self, alloc: Global) -> Vec<u64>
        requires stands { self.old.presence ≡ Standing }
        requires room { self.old.lend ≡ true }
        ensures failing { result.items ≡ self.old.failing.items }
        ensures none_left { self.new.failing.items ≡ [] }
        ensures becomes { Becomes self.old self.new Lent (file_of self.old) }
        ensures change { self.new.change ≡ self.old.change }
        ensures buffer { self.new.buffer ≡ self.old.buffer }
        ensures hold { self.new.hold ≡ self.old.hold }
    {
        self.presence = Presence::Lent;
        self.lend = false;
        mem::replace(&mut self.failing, Vec::new(alloc))
    }

    /// The file comes back from its writer, with room for a copy of it.
    pub fn adopt(&mut self, bytes: Vec<u8>, copy: Vec<u8>, written: &Written)
        requires lent { self.old.presence ≡ Lent }
        requires doubled { IsDoubled written.now bytes copy }
        ensures becomes { Becomes self.old self.new Standing (plain (file_written written.now)) }
        ensures failing { self.new.failing ≡ self.old.failing }
        ensures hold { self.new.hold ≡ true }
    {
        self.presence = Presence::Standing;
        self.bytes = bytes;
        self.synced = written.synced;
        self.wholly_synced = written.wholly_synced;
        self.lasting = written.lasting;
        self.buffer = None;
        self.copy = copy;
        self.hold = true;
    }

    /// Copies the file into the room that was made for it.
    pub fn share(&mut self, alloc: Global) -> Vec<u8>
        requires room { self.old.hold ≡ true }
        requires fits { Fits self.old }
        ensures copied { result.items ≡ self.old.bytes.items }
        ensures failing { self.new.failing ≡ self.old.failing }
        ensures keeps { KeepsFile self.old self.new }
        ensures slots { slots self.new ≤ slots self.old }
        ensures change { self.new.change ≡ self.old.change }
        ensures buffer { self.new.buffer ≡ self.old.buffer }
        ensures lend { self.new.lend ≡ self.old.lend }
    {
        let mut copy = mem::replace(&mut self.copy, Vec::new(alloc));
        let _ = copy.extend_from_slice(&self.bytes);
        self.hold = false;
        copy
    }

    /// What a crash leaves of the file.
    pub fn left(self, outcome: Outcome) -> Option<Vec<u8>>
        ensures { option_map (λ bytes. bytes.items) result
            ≡ left_of outcome (standing_in (Some self)) (removed_in (Some self)) }
    {
        let len = match (self.presence, outcome) {
            (Presence::Standing, Outcome::Kept) => self.bytes.len(),
            (Presence::Standing, Outcome::Halved) => {
                self.synced + self.bytes.len().saturating_sub(self.synced) / 2
            }
            (Presence::Absent, _) => return None,
            (_, Outcome::Lost) if self.lasting => self.synced,
            _ => return None,
        };
        let mut bytes = self.bytes;
        bytes.truncate(len);
        Some(bytes)
    }
}
