// A file that is written beside a disk in memory, as it is written down once it is adopted.
ghost use Rattle.std.specs.Prelude.{◌≡◌, ◌+◌, ◌≤◌, length, vec_capacity};
ghost use Rattle.vl_disk.specs.DiskState.{lengthened, new_file, synced_file};

use std::alloc::Global;
use vl_disk::NoMemory;

/// A piece that was handed over since the last sync that passed, and its place in the file.
#[derive(Drop)]
pub struct Unsynced {
    pub place: usize,
    pub bytes: Vec<u8>,
}

#[derive(Drop)]
pub struct Written {
    pub bytes: Vec<u8>,
    /// So many of the bytes are durable.
    pub synced: usize,
    /// Nothing was asked for since the last sync that passed.
    pub wholly_synced: bool,
    /// It was synced once.
    pub lasting: bool,
    pub unsynced: Vec<Unsynced>,
}

impl Written {
    ghost use Rattle.std.specs.Prelude.{OnOk};
    ghost use Rattle.vl_mem.specs.Written.{file_written};

    /// A file as `create` makes it.
    pub fn new(alloc: Global) -> Self
        ensures file { file_written result ≡ new_file }
        ensures empty { length result.bytes.items ≡ 0 }
    {
        Written {
            bytes: Vec::new(alloc),
            synced: 0,
            wholly_synced: false,
            lasting: false,
            unsynced: Vec::new(alloc),
        }
    }

    /// Makes room for a piece of so many bytes.
    pub fn make_room(&mut self, count: usize) -> Result<(), NoMemory>
        ensures bytes { OnOk result (length self.new.bytes.items + count ≤ vec_capacity self.new.bytes) }
        ensures piece { OnOk result (length self.new.unsynced.items + 1 ≤ vec_capacity self.new.unsynced) }
        ensures file { file_written self.new ≡ file_written self.old }
    {
        if self.bytes.reserve(count).is_err() || self.unsynced.reserve(1).is_err() {
            return Err(NoMemory);
        }
        Ok(())
    }

    /// A piece was handed over, and the file takes so many bytes of it.
    pub fn take(&mut self, piece: Vec<u8>, taken: usize)
        requires part { taken ≤ length piece.items }
        requires bytes { length self.old.bytes.items + length piece.items ≤ vec_capacity self.old.bytes }
        requires piece { length self.old.unsynced.items + 1 ≤ vec_capacity self.old.unsynced }
        ensures { file_written self.new ≡ lengthened piece.items taken (file_written self.old) }
    {
        let place = self.bytes.len();
        let _ = self.bytes.extend_from_slice(&piece[..taken]);
        self.wholly_synced = false;
        let _ = self.unsynced.push(Unsynced {
            place,
            bytes: piece,
        });
    }

    /// What was handed over is durable.
    pub fn sync(&mut self)
        ensures { file_written self.new ≡ synced_file (file_written self.old) }
    {
        self.synced = self.bytes.len();
        self.wholly_synced = true;
        self.lasting = true;
        self.unsynced.clear();
    }
}
