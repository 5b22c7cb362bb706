ghost use Rattle.std.specs.Prelude.{◌≡◌, ◌↔◌, IsErr, IfOk, None, Some, true, false};
ghost use Rattle.vl_disk.specs.Faults.{HasCause, one_more};

use crate::common::Fault;
use crate::folder::Folder;
use crate::folder_error::{FolderError, Trouble};
use crate::folder_reader::FolderReader;
use crate::held::FolderHeld;
use crate::writer::FolderWriter;
use std::alloc::Global;
use std::fs::File;
use std::rt::Files;
use vl_disk::{Disk, DiskFail, Failed, Name, NoMemory, Watched};

/// A folder of the file system as a disk. It tells no bytes, and opens nothing before its first call. It prints nothing: what
/// failed is asked for.
#[derive(Drop)]
pub struct FolderDisk<R: Files<File = File>> {
    rt: R,
    alloc: Global,
    folder: Folder<R>,
    calls: u64,
    faults: u64,
    // what failed last, and what is told of it
    fault: Option<Fault>,
    told: Option<FolderError>,
}

impl<R: Files<File = File> + Copy> FolderDisk<R> {
    /// A disk over the folder of this path, which may be missing.
    pub fn new(rt: R, alloc: Global, path: String) -> Self
        ensures { ⟦<FolderDisk<R> as Watched>⟧.faults result ≡ 0 }
    {
        FolderDisk {
            rt,
            alloc,
            folder: Folder::new(rt, alloc, path),
            calls: 0,
            faults: 0,
            fault: None,
            told: None,
        }
    }

    /// What failed last, of the disk's own calls, of its readers and of its writers, if anything did.
    pub fn last_fault(&mut self) -> Option<&FolderError> {
        if let Some(noted) = self.folder.take_noted() {
            self.fault = Some(noted);
        }
        let fault = self.fault?;
        self.told = Some(FolderError::new(self.folder.path(fault.name), fault.trouble));
        self.told.as_ref()
    }

    /// Counts a fault of the file of this name or, where there is none, of the folder.
    fn count(&mut self, name: Option<Name>, trouble: Trouble)
        ensures cause { HasCause self.old.faults self.new.faults (Unit {0}) }
        ensures calls { self.new.calls ≡ self.old.calls }
        ensures folder { self.new.folder ≡ self.old.folder }
    {
        self.faults = self.faults.saturating_add(1);
        self.fault = Some(Fault { name, trouble });
        // What was noted before isn't the last.
        let _ = self.folder.take_noted();
    }

    /// The answer of a call that changes nothing.
    fn answer<T: Drop>(&mut self, name: Name, answer: Result<T, Trouble>) -> Result<T, Failed>
        ensures failed { IsErr result ↔ IsErr answer }
        ensures cause { HasCause self.old.faults self.new.faults (IsErr result) }
        ensures calls { self.new.calls ≡ self.old.calls }
        ensures folder { self.new.folder ≡ self.old.folder }
    {
        match answer {
            Ok(found) => Ok(found),
            Err(trouble) => {
                self.count(Some(name), trouble);
                Err(Failed)
            }
        }
    }

    /// The answer of a call that changes something.
    fn answer_change(&mut self, name: Name, answer: Result<(), Trouble>) -> Result<(), Failed>
        ensures failed { IsErr result ↔ IsErr answer }
        ensures cause { HasCause self.old.faults self.new.faults (IsErr result) }
        ensures calls { self.new.calls ≡ one_more self.old.calls }
        ensures folder { self.new.folder ≡ self.old.folder }
    {
        self.calls = self.calls.saturating_add(1);
        self.answer(name, answer)
    }
}

impl<R: Files<File = File>> Watched for FolderDisk<R> {
    ghost use Rattle.vl_folder.specs.Untold.{all_room};

    ghost told = { λ _. None };

    ghost moment = { λ _. 0 };

    ghost states_since = { λ _ _ _. ⊥ };

    ghost calls = { λ disk. disk.calls };

    ghost faults = { λ disk. disk.faults };

    ghost spare = { λ _ _. all_room };

    ghost fails_cleanly = { false };

    ghost fails_past = { λ _ _. ⊥ };

    ghost gives_steady = { λ _. ⊥ };
}

impl<R: Files<File = File> + Copy> Disk for FolderDisk<R> {
    type Held = FolderHeld;

    type Reader = FolderReader<R>;

    type Writer = FolderWriter;

    ghost use Rattle.std.specs.Prelude.{true, IsSomeAnd, OnOk};
    ghost use Rattle.vl_disk.specs.Calls.{Syncs};
    ghost use Rattle.vl_folder.specs.Untold.{untold};

    ghost lawful = { λ _ state told. untold state told };

    ghost counts_now = { λ _ state _ told _. untold state told };

    ghost only_now = { λ _ state _ told _. untold state told };

    ghost counts_past = { λ _ _ past. absurd past };

    ghost alike = { λ _ _ none. none };

    fn list(&mut self, alloc: Global) -> Result<Vec<Name>, DiskFail> {
        let names = match self.folder.list(alloc) {
            Ok(names) => names,
            Err(Trouble::NoMemory) => return Err(DiskFail::NoMemory),
            Err(trouble) => {
                self.count(None, trouble);
                return Err(DiskFail::Failed);
            }
        };
        match self.folder.look_at(&names) {
            Ok(()) => Ok(names),
            Err((_, Trouble::NoMemory)) => Err(DiskFail::NoMemory),
            Err((name, trouble)) => {
                self.count(Some(name), trouble);
                Err(DiskFail::Failed)
            }
        }
    }

    fn size(&mut self, name: Name) -> Result<u64, Failed> {
        let size = self.folder.size(name);
        self.answer(name, size)
    }

    fn read(&mut self, name: Name, place: u64, out: &mut [u8]) -> Result<(), Failed> {
        let read = self.folder.read(name, place, out);
        self.answer(name, read)
    }

    fn ready(&mut self, name: Name, _bytes: u64) -> Result<(), NoMemory> {
        match self.folder.ready(name) {
            Ok(()) => Ok(()),
            Err(_) => Err(NoMemory),
        }
    }

    fn create(&mut self, name: Name) -> Result<(), Failed> {
        let created = self.folder.create(name);
        self.answer_change(name, created)
    }

    fn append(&mut self, name: Name, piece: &[u8]) -> Result<(), Failed> {
        let appended = self.folder.append(name, piece);
        self.answer_change(name, appended)
    }

    fn sync(&mut self, name: Name) -> Result<(), Failed>
        ensures disk { Syncs ⟦<FolderDisk<R> as Watched>⟧ name self.old self.new result }

        // The names of the folder are durable too.
        ensures folder { OnOk result (IsSomeAnd self.new.folder.entered (λ e. e.folder.durable ≡ true)) }
    {
        let synced = self.folder.sync(name);
        self.answer_change(name, synced)
    }

    fn cut(&mut self, name: Name, len: u64) -> Result<(), Failed> {
        let cut = self.folder.cut(name, len);
        self.answer_change(name, cut)
    }

    fn remove(&mut self, name: Name) -> Result<(), Failed> {
        let removed = self.folder.remove(name);
        self.answer_change(name, removed)
    }

    fn hold(&mut self, name: Name) -> Result<FolderHeld, DiskFail> {
        let held = self.folder.hold(name);
        match self.answer(name, held) {
            Ok((len, shared)) => Ok(FolderHeld::new(name, len, shared)),
            Err(Failed) => Err(DiskFail::Failed),
        }
    }

    fn lend(&mut self, name: Name) -> Result<FolderWriter, Failed> {
        let lent = self.folder.lend(name);
        let lent = self.answer(name, lent)?;
        Ok(FolderWriter::new(name, lent))
    }

    fn adopt(&mut self, writer: FolderWriter) {
        let (name, file) = writer.into_parts();
        self.folder.adopt(name, file);
    }

    fn reader(&self, alloc: Global) -> Result<FolderReader<R>, NoMemory> {
        Ok(FolderReader::new(self.rt, alloc))
    }
}
