// One file of a folder, as the disk knows it.
use crate::again::remove_file;
use crate::common::Common;
use crate::folder_error::Trouble;
use crate::held::Shared;
use crate::identity::Identity;
use crate::named::Named;
use crate::open::{make_file, open_file, plain_file};
use crate::open_file::OpenFile;
use crate::shared_file::SharedFile;
use std::alloc::{AllocError, Global};
use std::fs::File;
use std::rt::Files;
use std::sync::Arc;
use vl_disk::Name;

/// The room for a file of a folder, and the file while it is open.
#[derive(Drop)]
pub struct Slot {
    named: Arc<Named, Global>,
    name: Name,
    file: Option<OpenFile>,
    // the file that a writer has
    lent: Option<Identity>,
    // the room for the next opening of the file
    room: Option<SharedFile>,
    // the folder had it when it was listed
    found: bool,
    // no sync of it can have failed before that this disk doesn't know of: the disk made it, or wrote again what may not
    // have been written
    known: bool,
}

impl Slot {
    pub fn new(alloc: Global, folder: &str, name: Name) -> Result<Self, AllocError> {
        Ok(Slot {
            named: Arc::new(alloc, Named::new(alloc, folder, name)?)?,
            name,
            file: None,
            lent: None,
            room: Some(SharedFile::room(alloc)?),
            found: false,
            known: false,
        })
    }

    pub fn name(&self) -> Name {
        self.name
    }

    /// The file lies in this folder.
    pub fn lay_in(&mut self, alloc: Global, folder: &str) -> Result<(), AllocError> {
        self.named = Arc::new(alloc, Named::new(alloc, folder, self.name)?)?;
        Ok(())
    }

    /// Makes room for the file, so that to make or open it wants no memory. One that is open may be closed, and opened again.
    pub fn make_room(&mut self, alloc: Global) -> Result<(), AllocError> {
        if self.room.is_none() {
            self.room = Some(SharedFile::room(alloc)?);
        }
        Ok(())
    }

    /// Notes that the folder has the file.
    pub fn find(&mut self) {
        self.found = !self.known;
    }

    /// Whether it is of a log that was found.
    pub fn is_found_log(&self) -> bool {
        self.found && matches!(self.name, Name::Log(_))
    }

    fn take_room(&mut self, alloc: Global) -> Result<SharedFile, AllocError> {
        match self.room.take() {
            Some(room) => Ok(room),
            None => SharedFile::room(alloc),
        }
    }

    pub fn is_open(&self) -> bool {
        self.file.is_some()
    }

    pub fn path(&self) -> &str {
        self.named.path.as_str()
    }

    /// Makes the file, which must not stand.
    pub fn create<R: Files<File = File>>(&mut self, rt: &R, alloc: Global) -> Result<(), Trouble> {
        let (file, identity) = make_file(rt, self.named.path.as_str())?;
        let file = OpenFile::new(self.take_room(alloc)?, file, identity);
        if self.is_held() {
            // An earlier file of this name is.
            self.named = Arc::new(alloc, self.named.again(alloc)?)?;
        }
        self.file = Some(file);
        self.lent = None;
        self.known = true;
        Ok(())
    }

    /// Opens the file. What an earlier process wrote is made durable, before anything rests on it: of the last bytes at most
    /// so many may not have been written.
    pub fn open<R: Files<File = File>>(
        &mut self,
        rt: &R,
        alloc: Global,
        unwritten: u64,
    ) -> Result<(), Trouble> {
        if self.lent.is_some() {
            return Err(Trouble::Lent);
        }
        let (file, identity) = open_file(rt, self.named.path.as_str())?;
        let mut file = OpenFile::new(self.take_room(alloc)?, file, identity);
        let synced = if self.known {
            file.sync()
        } else {
            file.sync_found(unwritten)
        };
        self.known = synced.is_ok();
        self.file = Some(file);
        synced
    }

    pub fn size(&mut self) -> Result<u64, Trouble> {
        match &mut self.file {
            Some(file) => file.size(),
            None => Err(Trouble::Lent),
        }
    }

    pub fn read(&self, place: u64, out: &mut [u8]) -> Result<(), Trouble> {
        match &self.file {
            Some(file) => file.read(place, out),
            None => Err(Trouble::Lent),
        }
    }

    pub fn append(&mut self, piece: &[u8]) -> Result<(), Trouble> {
        match &mut self.file {
            Some(file) => file.append(piece),
            None => Err(Trouble::Lent),
        }
    }

    pub fn cut(&mut self, len: u64) -> Result<(), Trouble> {
        match &mut self.file {
            Some(file) => file.cut(len),
            None => Err(Trouble::Lent),
        }
    }

    pub fn sync(&mut self) -> Result<(), Trouble> {
        match &mut self.file {
            Some(file) => file.sync(),
            None => Err(Trouble::Lent),
        }
    }

    /// From now on each call but `remove` fails.
    pub fn lose(&mut self) {
        if let Some(file) = &mut self.file {
            file.lose();
        }
    }

    /// Removes the file. Where something holds it, it must be open, and stays so until nothing does.
    pub fn remove<R: Files<File = File>>(&self, rt: &R, common: &Common) -> Result<(), Trouble> {
        plain_file(rt, self.named.path.as_str())?;
        if self.is_held() {
            self.keep_removed()?;
        }
        remove_file(rt, self.named.path.as_str())?;
        self.named.set_gone();
        common.pool.close_removed();
        Ok(())
    }

    fn keep_removed(&self) -> Result<(), Trouble> {
        match &self.file {
            Some(file) => self.named.keep_removed(file.identity(), file.share()?),
            None => Ok(()),
        }
    }

    /// Whether something holds the file, so that it must be open when it is removed.
    pub fn is_held(&self) -> bool {
        Arc::strong_count(&self.named) > 1
    }

    /// Shares the file, and says how long it is.
    pub fn hold(&mut self, common: &Arc<Common, Global>) -> Result<(u64, Shared), Trouble> {
        let len = self.size()?;
        let Some(file) = &self.file else {
            return Err(Trouble::Lent);
        };
        let shared = Shared {
            named: self.named.clone()?,
            identity: file.identity(),
            common: common.clone()?,
        };
        shared.keep_open(file.share()?);
        Ok((len, shared))
    }

    /// The file and its name, for a writer.
    pub fn lend(&mut self) -> Result<(Arc<Named, Global>, OpenFile), Trouble> {
        let named = self.named.clone()?;
        match self.file.take() {
            Some(file) => {
                self.lent = Some(file.identity());
                Ok((named, file))
            }
            None => Err(Trouble::Lent),
        }
    }

    /// The file comes back from its writer. Another one than was lent is closed.
    pub fn adopt(&mut self, file: OpenFile) {
        if self.lent == Some(file.identity()) {
            self.file = Some(file);
            self.lent = None;
        }
    }

    /// Closes a file that needn't stay open, where there is memory for the room to open it again.
    pub fn close_if_idle(&mut self, alloc: Global) {
        let idle = match &self.file {
            Some(file) => file.is_idle(),
            None => false,
        };
        if idle && self.make_room(alloc).is_ok() {
            self.file = None;
        }
    }
}
