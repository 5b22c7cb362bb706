// A folder and its open files, as the system has them.
ghost use Rattle.std.specs.Prelude.{◌≡◌, ◌<◌, true, false, IfOk, IfSome, IsSomeAnd, OnOk, All, vec_len};
ghost use Rattle.vl_disk.specs.Name.{IsNumbered};

use crate::absolute::absolute;
use crate::again::open_dir;
use crate::common::{Common, Fault};
use crate::file_name::{named, path_of};
use crate::folder_error::Trouble;
use crate::held::Shared;
use crate::identity::Identity;
use crate::lent::Lent;
use crate::open::plain_file;
use crate::open_file::OpenFile;
use crate::open_folder::OpenFolder;
use crate::parents::make_folder;
use crate::slot::Slot;
use crate::slots::place_of;
use std::alloc::{AllocError, Global};
use std::fs::File;
use std::io::{ErrorKind, Read};
use std::rt::Files;
use std::sync::Arc;
use vl_disk::Name;

/// The bytes of names that are read at a time.
const NAMES: usize = 4096;

/// So many files stay open that needn't.
const MOST_OPEN_TO_WRITE: usize = 64;

/// So many of the last bytes of a log may not have been written, though it was synced: no frame is longer.
const UNWRITTEN: u64 = 17 * 1024 * 1024;

/// The folder once it was opened, and what is shared of it.
#[derive(Drop)]
struct Entered {
    // from the root on
    path: String,
    // locked
    folder: OpenFolder,
    common: Arc<Common, Global>,
}

/// A folder, of which each call makes calls of the system.
#[derive(Drop)]
pub struct Folder<R: Files<File = File>> {
    rt: R,
    alloc: Global,
    // as it was given
    path: String,
    // once a call has opened the folder
    entered: Option<Entered>,
    slots: Vec<Slot>,
    // so many files were opened since those that needn't stay open were closed
    opened: usize,
}

impl<R: Files<File = File>> Folder<R> {
    pub fn new(rt: R, alloc: Global, path: String) -> Self {
        Folder {
            rt,
            alloc,
            path,
            entered: None,
            slots: Vec::new(alloc),
            opened: 0,
        }
    }

    /// The path of the file of this name or, where there is none, of the folder, as it was given. Where there is no memory
    /// for it, it is empty.
    pub fn path(&self, name: Option<Name>) -> String {
        let path: Result<String, AllocError> = match name {
            Some(name) => path_of(self.alloc, self.path.as_str(), name),
            None => self.path.clone(),
        };
        match path {
            Ok(path) => path,
            Err(_) => String::new(self.alloc),
        }
    }

    /// What a reader or a writer met last, once.
    pub fn take_noted(&self) -> Option<Fault> {
        match &self.entered {
            Some(entered) => entered.common.take_noted(),
            None => None,
        }
    }

    /// Opens the folder and locks it, so that another disk over it is refused. The names that stand are made durable.
    fn enter(&mut self) -> Result<(), Trouble> {
        if self.entered.is_some() {
            return Ok(());
        }
        let path = absolute(&self.rt, self.alloc, self.path.as_str())?;
        let folder = OpenFolder::open(&self.rt, self.alloc, path.as_str())?;
        folder.lock()?;
        let common = Arc::new(self.alloc, Common::new(self.alloc)?)?;
        self.lay_slots(path.as_str())?;
        self.entered = Some(Entered {
            path,
            folder,
            common,
        });
        self.sync_names()
    }

    /// The slots that room was made for before are of files in this folder.
    fn lay_slots(&mut self, path: &str) -> Result<(), Trouble> {
        for slot in self.slots.iter_mut() {
            slot.lay_in(self.alloc, path)?;
        }
        Ok(())
    }

    /// The path that leads to the folder.
    fn way(&self) -> &str {
        match &self.entered {
            Some(entered) => entered.path.as_str(),
            None => self.path.as_str(),
        }
    }

    /// Whether the path still leads to the folder that was opened.
    fn look_again(&self) -> Result<(), Trouble> {
        if let Some(entered) = &self.entered
            && let Ok(found) = self.rt.metadata(entered.path.as_str())
            && entered.folder.is(Identity::of(&found))
        {
            return Ok(());
        }
        Err(Trouble::Moved)
    }

    fn sync_names(&mut self) -> Result<(), Trouble>
        ensures slots { self.new.slots ≡ self.old.slots }
        ensures durable { OnOk result (IsSomeAnd self.new.entered (λ e. e.folder.durable ≡ true)) }
    {
        match &mut self.entered {
            Some(entered) => entered.folder.sync(),
            None => Err(Trouble::Moved),
        }
    }

    /// Notes that a name is about to be made.
    fn change_names(&mut self)
        ensures slots { self.new.slots ≡ self.old.slots }
        ensures unsynced { IfSome self.new.entered (λ e. e.folder.durable ≡ false) }
    {
        if let Some(entered) = &mut self.entered {
            entered.folder.change();
        }
    }

    /// Where the slot of this name is.
    fn slot(&mut self, name: Name) -> Result<usize, Trouble>
        ensures place { IfOk result (λ at. at < vec_len self.new.slots) }
        ensures entered { self.new.entered ≡ self.old.entered }
    {
        let at = match place_of(&self.slots, name) {
            Ok(at) => return Ok(at),
            Err(at) => at,
        };
        let slot = Slot::new(self.alloc, self.way(), name)?;
        self.slots.insert(at, slot)?;
        Ok(at)
    }

    /// Where the slot of this name is, whose file is open.
    fn open(&mut self, name: Name) -> Result<usize, Trouble>
        ensures { IfOk result (λ at. at < vec_len self.new.slots) }
    {
        self.enter()?;
        let at = self.slot(name)?;
        if !self.slots[at].is_open() {
            self.look_again()?;
            self.close_idle();
            self.open_slot(at)?;
        }
        Ok(at)
    }

    fn open_slot(&mut self, at: usize) -> Result<(), Trouble>
        requires { at < vec_len self.old.slots }
        ensures { vec_len self.new.slots ≡ vec_len self.old.slots }
    {
        let unwritten = unwritten_of(&self.slots[at..]);
        let opened = self.slots[at].open(&self.rt, self.alloc, unwritten);
        match opened {
            Err(trouble) if trouble.is_too_many() => {
                self.close_unneeded();
                self.slots[at].open(&self.rt, self.alloc, unwritten)
            }
            opened => opened,
        }
    }

    /// Closes the files that needn't stay open, where many are open, so that a store may have more files than a process
    /// may have open. One more is opened next.
    fn close_idle(&mut self)
        ensures { vec_len self.new.slots ≡ vec_len self.old.slots }
    {
        if self.opened >= MOST_OPEN_TO_WRITE {
            self.close_slots();
        }
        self.opened = self.opened.saturating_add(1);
    }

    fn close_slots(&mut self)
        ensures slots { vec_len self.new.slots ≡ vec_len self.old.slots }
        ensures entered { self.new.entered ≡ self.old.entered }
    {
        for slot in self.slots.iter_mut() {
            slot.close_if_idle(self.alloc);
        }
        self.opened = 0;
    }

    /// Closes all files that needn't stay open, since the process may open no more.
    fn close_unneeded(&mut self)
        ensures slots { vec_len self.new.slots ≡ vec_len self.old.slots }
        ensures entered { self.new.entered ≡ self.old.entered }
    {
        self.close_slots();
        if let Some(entered) = &self.entered {
            entered.common.pool.close_all();
        }
    }

    /// The names of the store's files in the folder, which is made where it is missing.
    pub fn list(&mut self, alloc: Global) -> Result<Vec<Name>, Trouble>
        ensures { IfOk result (λ names. All IsNumbered names.items) }
    {
        if self.entered.is_none() {
            make_folder(&self.rt, alloc, self.path.as_str())?;
        }
        self.enter()?;
        self.look_again()?;
        match self.read_names(alloc) {
            Err(trouble) if trouble.is_too_many() => {
                self.close_unneeded();
                self.read_names(alloc)
            }
            names => names,
        }
    }

    /// Makes room for the files of these names. Each must be a plain file, or else it is told which isn't.
    pub fn look_at(&mut self, names: &[Name]) -> Result<(), (Name, Trouble)> {
        for name in names {
            if let Err(error) = self.look_at_one(*name) {
                return Err((*name, error));
            }
        }
        Ok(())
    }

    fn look_at_one(&mut self, name: Name) -> Result<(), Trouble> {
        let at = self.slot(name)?;
        self.slots[at].make_room(self.alloc)?;
        plain_file(&self.rt, self.slots[at].path())?;
        self.slots[at].find();
        Ok(())
    }

    /// The names of the store's files in the folder. All other names are passed over.
    fn read_names(&self, alloc: Global) -> Result<Vec<Name>, Trouble>
        ensures { IfOk result (λ names. All IsNumbered names.items) }
    {
        let mut names = Vec::new(alloc);
        // The slash makes the system follow a link to a folder.
        let inside = format!(in alloc; "{}/", self.way())?;
        let mut folder = open_dir(&self.rt, inside.as_str())?;
        let mut buffer = [0u8; NAMES];
        for _ in 0..u64::MAX {
            let count = match folder.read(&mut buffer) {
                Ok(count) => count,
                Err(error) if error.kind() == ErrorKind::Interrupted => continue,
                Err(error) => return Err(Trouble::from(error)),
            };
            if count == 0 {
                break;
            }
            add_names(&buffer[..count], &mut names)?;
        }
        Ok(names)
    }

    pub fn ready(&mut self, name: Name) -> Result<(), Trouble> {
        let at = self.slot(name)?;
        self.slots[at].make_room(self.alloc)?;
        Ok(())
    }

    pub fn size(&mut self, name: Name) -> Result<u64, Trouble> {
        let at = self.open(name)?;
        self.slots[at].size()
    }

    pub fn read(&mut self, name: Name, place: u64, out: &mut [u8]) -> Result<(), Trouble> {
        let at = self.open(name)?;
        self.slots[at].read(place, out)
    }

    /// Makes a file. Its name is durable once a sync has passed.
    pub fn create(&mut self, name: Name) -> Result<(), Trouble>
        ensures { OnOk result (IfSome self.new.entered (λ e. e.folder.durable ≡ false)) }
    {
        self.enter()?;
        self.look_again()?;
        let at = self.slot(name)?;
        self.close_idle();
        self.change_names();
        let created = self.slots[at].create(&self.rt, self.alloc);
        match created {
            Err(trouble) if trouble.is_too_many() => {
                self.close_unneeded();
                self.slots[at].create(&self.rt, self.alloc)
            }
            created => created,
        }
    }

    pub fn append(&mut self, name: Name, piece: &[u8]) -> Result<(), Trouble> {
        let at = self.open(name)?;
        self.slots[at].append(piece)
    }

    /// Makes a file and the names in the folder durable.
    pub fn sync(&mut self, name: Name) -> Result<(), Trouble>
        ensures { OnOk result (IsSomeAnd self.new.entered (λ e. e.folder.durable ≡ true)) }
    {
        let at = self.open(name)?;
        self.slots[at].sync()?;
        let named = self.sync_names();
        if named.is_err() {
            self.slots[at].lose();
        }
        named
    }

    pub fn cut(&mut self, name: Name, len: u64) -> Result<(), Trouble> {
        let at = self.open(name)?;
        self.slots[at].cut(len)
    }

    /// Removes a file. One that is held is opened before, so that it can be read as long as it is.
    pub fn remove(&mut self, name: Name) -> Result<(), Trouble> {
        self.enter()?;
        self.look_again()?;
        let mut at = self.slot(name)?;
        if self.slots[at].is_held() {
            at = self.open(name)?;
        }
        if let Some(entered) = &self.entered {
            self.slots[at].remove(&self.rt, &entered.common)?;
        }
        self.slots.remove(at);
        Ok(())
    }

    /// Shares a file, and says how long it is.
    pub fn hold(&mut self, name: Name) -> Result<(u64, Shared), Trouble> {
        let at = self.open(name)?;
        match &self.entered {
            Some(entered) => self.slots[at].hold(&entered.common),
            None => Err(Trouble::Moved),
        }
    }

    /// The file, its name and the folder, for a writer.
    pub fn lend(&mut self, name: Name) -> Result<Lent, Trouble> {
        self.enter()?;
        let (folder, common) = match self.share() {
            Err(trouble) if trouble.is_too_many() => {
                self.close_unneeded();
                self.share()?
            }
            shared => shared?,
        };
        let at = self.open(name)?;
        let (named, file) = self.slots[at].lend()?;
        Ok(Lent {
            named,
            file,
            folder,
            common,
        })
    }

    /// The folder, opened anew, and what is shared of it.
    fn share(&self) -> Result<(OpenFolder, Arc<Common, Global>), Trouble> {
        match &self.entered {
            Some(entered) => Ok((
                entered.folder.again(&self.rt, entered.path.as_str())?,
                entered.common.clone()?,
            )),
            None => Err(Trouble::Moved),
        }
    }

    /// The file comes back from its writer.
    pub fn adopt(&mut self, name: Name, file: OpenFile) {
        if let Ok(at) = place_of(&self.slots, name) {
            self.slots[at].adopt(file);
        }
    }
}

/// How many of the last bytes of a file that is found may not have been written, though a sync answers: an earlier process
/// may have gone on past one that failed, or have been stopped at it. A log that isn't the last was synced whole before the
/// next one was made, and so was a table before a manifest named it. The slot is the first of these, which all are behind it.
fn unwritten_of(slots: &[Slot]) -> u64 {
    let Some((slot, behind)) = slots.split_first() else {
        return 0;
    };
    match slot.name() {
        Name::Manifest(_) => u64::MAX,
        Name::Log(_) if !behind.iter().any(|other| other.is_found_log()) => UNWRITTEN,
        _ => 0,
    }
}

/// Adds the names of a store's files, out of names that each end with a zero.
fn add_names(texts: &[u8], names: &mut Vec<Name>) -> Result<(), Trouble>
    requires { All IsNumbered names.old.items }
    ensures { OnOk result (All IsNumbered names.new.items) }
{
    for text in texts.split(|byte| *byte == 0) {
        if let Some(name) = named(text) {
            names.push(name)?;
        }
    }
    Ok(())
}
