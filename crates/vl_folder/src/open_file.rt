// An open file that is written, by the disk or by a writer.
use crate::folder_error::Trouble;
use crate::identity::Identity;
use crate::shared_file::SharedFile;
use std::fs::File;
use std::io;
use std::io::ErrorKind;
use std::os::unix::fs::{FileExt, MetadataExt};

/// The bytes that are written again at a time.
const PIECE: usize = 65536;

/// An open file.
#[derive(Drop)]
pub struct OpenFile {
    file: SharedFile,
    identity: Identity,
    // where the file ends, if that is known
    end: Option<u64>,
    // what a failed sync leaves can't be relied on: the system may have dropped what it didn't write
    lost: bool,
    // nothing was changed since it was opened, synced or shared, so that it needn't stay open
    idle: bool,
}

impl OpenFile {
    /// A file that was opened, in the room that was made for it.
    pub fn new(room: SharedFile, file: File, identity: Identity) -> Self {
        room.fill(file);
        OpenFile {
            identity,
            file: room,
            end: None,
            lost: false,
            idle: false,
        }
    }

    /// The file, where it isn't lost.
    fn file(&self) -> Result<&File, Trouble> {
        match self.file.get() {
            Some(file) if !self.lost => Ok(file),
            _ => Err(Trouble::Lost),
        }
    }

    /// Notes where a file ends that was changed, if that is known.
    fn changed(&mut self, end: Option<u64>) {
        self.end = end;
        self.idle = false;
    }

    pub fn size(&mut self) -> Result<u64, Trouble> {
        self.file()?;
        if let Some(end) = self.end {
            return Ok(end);
        }
        let end = self.file()?.metadata()?.len();
        self.end = Some(end);
        Ok(end)
    }

    pub fn read(&self, place: u64, out: &mut [u8]) -> Result<(), Trouble> {
        self.file()?.read_exact_at(out, place)?;
        Ok(())
    }

    pub fn append(&mut self, piece: &[u8]) -> Result<(), Trouble> {
        let end = self.size()?;
        let written = self.file()?.write_all_at(piece, end);
        self.changed(match written {
            Ok(()) => end.checked_add(piece.len() as u64),
            Err(_) => None,
        });
        written?;
        Ok(())
    }

    pub fn cut(&mut self, len: u64) -> Result<(), Trouble> {
        if len > self.size()? {
            return Err(Trouble::from(io::Error::from(ErrorKind::InvalidInput)));
        }
        let cut = self.file()?.set_len(len);
        self.changed(match cut {
            Ok(()) => Some(len),
            Err(_) => None,
        });
        cut?;
        Ok(())
    }

    /// Makes the file's bytes durable. Where that fails the file is lost.
    pub fn sync(&mut self) -> Result<(), Trouble> {
        let synced = self.sync_named();
        self.lost = synced.is_err();
        self.idle = synced.is_ok();
        synced
    }

    /// Makes the file's bytes durable. It is an error where the file has no name any more, since no later opening finds it.
    fn sync_named(&self) -> Result<(), Trouble> {
        let file = self.file()?;
        file.sync_data()?;
        if file.metadata()?.nlink() == 0 {
            return Err(Trouble::Removed);
        }
        Ok(())
    }

    /// Makes the bytes of a file durable that was found. Its last bytes, at most so many, are written again before: where an
    /// earlier sync of them failed, the system may take them for written, and then a sync tells nothing of them.
    pub fn sync_found(&mut self, most: u64) -> Result<(), Trouble> {
        let written = self.write_again(most);
        if written.is_err() {
            self.lose();
        }
        written?;
        self.sync()
    }

    fn write_again(&mut self, most: u64) -> Result<(), Trouble> {
        let end = self.size()?;
        let file = self.file()?;
        let mut piece = [0u8; PIECE];
        let mut left = end.min(most);
        for _ in 0..u64::MAX {
            if left == 0 {
                break;
            }
            let count = left.min(PIECE as u64);
            let part = &mut piece[..count as usize];
            file.read_exact_at(part, end - left)?;
            file.write_all_at(part, end - left)?;
            left -= count;
        }
        Ok(())
    }

    /// From now on each call fails.
    pub fn lose(&mut self) {
        self.lost = true;
        self.idle = false;
    }

    pub fn is_idle(&self) -> bool {
        self.idle
    }

    pub fn identity(&self) -> Identity {
        self.identity
    }

    /// The file, shared.
    pub fn share(&self) -> Result<SharedFile, Trouble> {
        Ok(self.file.again()?)
    }
}
