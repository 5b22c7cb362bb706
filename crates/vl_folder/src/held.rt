// A file that a folder shares.
ghost use Rattle.std.specs.Prelude.{◌≡◌, ◌↔◌, ℕ, None, IsTrue};

use crate::common::Common;
use crate::folder_error::Trouble;
use crate::identity::Identity;
use crate::named::Named;
use crate::open::open_file;
use crate::shared_file::SharedFile;
use std::alloc::{AllocError, Global};
use std::fs::File;
use std::io;
use std::os::unix::fs::FileExt;
use std::rt::Files;
use std::sync::Arc;
use vl_disk::{HeldFile, Name};

/// A file that a folder shares. It doesn't tell its bytes, and keeps its length. It is open only while it was read lately.
#[derive(Drop)]
pub struct FolderHeld {
    name: Name,
    len: u64,
    shared: Shared,
}

/// How the file is read.
#[derive(Drop)]
pub struct Shared {
    pub named: Arc<Named, Global>,
    pub identity: Identity,
    pub common: Arc<Common, Global>,
}

impl FolderHeld {
    pub fn new(name: Name, len: u64, shared: Shared) -> Self
        ensures { result.name ≡ name }
    {
        FolderHeld { name, len, shared }
    }

    /// Notes what a reader of it met.
    pub fn note(&self, trouble: Trouble) {
        self.shared.common.note(self.name, trouble);
    }

    /// Reads from a place on, as many bytes as fill `out`. Several readers may do so at a time.
    pub fn read<R: Files<File = File>>(
        &self,
        rt: &R,
        alloc: Global,
        place: u64,
        out: &mut [u8],
    ) -> Result<(), Trouble> {
        let shared = &self.shared;
        if shared.read_removed(place, out)? || shared.read_open(place, out)? {
            return Ok(());
        }
        match shared.open(rt) {
            Ok(file) => shared.read_again(alloc, file, place, out),
            // It may have been removed meanwhile.
            Err(error) => match shared.read_removed(place, out)? {
                true => Ok(()),
                false => Err(error),
            },
        }
    }
}

impl Shared {
    /// Reads the file if it was removed, and says whether it was.
    fn read_removed(&self, place: u64, out: &mut [u8]) -> io::Result<bool> {
        match self.named.removed(self.identity) {
            Some(file) => {
                file.read_exact_at(out, place)?;
                Ok(true)
            }
            None => Ok(false),
        }
    }

    /// Reads the file if the pool has it open, and says whether it has.
    fn read_open(&self, place: u64, out: &mut [u8]) -> io::Result<bool> {
        let Some(found) = self.common.pool.find(self.identity) else {
            return Ok(false);
        };
        let Some(file) = found.get() else {
            return Ok(false);
        };
        file.read_exact_at(out, place)?;
        Ok(true)
    }

    /// Reads the file, which was opened again, and has the pool keep it open.
    fn read_again(
        &self,
        alloc: Global,
        file: File,
        place: u64,
        out: &mut [u8],
    ) -> Result<(), Trouble> {
        file.read_exact_at(out, place)?;
        if let Ok(room) = SharedFile::room(alloc) {
            room.fill(file);
            self.keep_open(room);
        }
        Ok(())
    }

    /// Opens the file by its name. Where the process may open no more files, those that needn't stay open are closed.
    fn open<R: Files<File = File>>(&self, rt: &R) -> Result<File, Trouble> {
        let path = self.named.path.as_str();
        let opened = match open_file(rt, path) {
            Err(trouble) if trouble.is_too_many() => {
                self.common.pool.close_all();
                open_file(rt, path)
            }
            opened => opened,
        };
        let (file, identity) = opened?;
        if identity != self.identity {
            return Err(Trouble::Replaced);
        }
        Ok(file)
    }

    /// Has the pool keep the file open, unless it was removed.
    pub fn keep_open(&self, file: SharedFile) {
        self.common.pool.keep(self.identity, file, &self.named);
        if self.named.is_gone() {
            self.common.pool.close_removed();
        }
    }
}

impl Clone for FolderHeld {
    ghost is_clone = { λ held copy. (copy.len ≡ held.len) × (copy.name ≡ held.name) };

    fn clone(&self) -> Result<FolderHeld, AllocError> {
        Ok(FolderHeld {
            name: self.name,
            len: self.len,
            shared: Shared {
                named: self.shared.named.clone()?,
                identity: self.shared.identity,
                common: self.shared.common.clone()?,
            },
        })
    }
}

impl HeldFile for FolderHeld {
    ghost use Rattle.vl_folder.specs.Untold.{untold, same_file};

    ghost bytes = { λ _. None };

    ghost size = { λ held. held.len };

    ghost named = { λ held. held.name };

    ghost sized = { λ _ bytes told. untold bytes told };

    ghost shared = { λ held copy same. same_file held.len copy.len same.0 };

    ghost named_alike = { λ held copy same. same.1 };

    ghost alike = { λ _ _ none. none };

    fn len(&self) -> u64 {
        self.len
    }

    fn name(&self) -> Name {
        self.name
    }

    /// Files that tell no bytes are the same where their names are.
    fn same(&self, other: &FolderHeld, _place: u64, _len: u64) -> bool
        ensures { IsTrue result ↔ (self.now.name ≡ other.now.name) }
    {
        self.name == other.name
    }
}
